//! The hub over a Unix socket.
ghost use Rattle.std.specs.Prelude.{◌≡◌, ◌≤◌, ◌<◌, ◌==◌, ℕ, false, None, Err, IfOk, IfSome, if◌then◌else◌, length};
ghost use Rattle.qo_causes.specs.Cause.{HasCause, counted};
ghost use Rattle.qo_causes.specs.Hub.{GoneOnly, Loses, is_gone};
ghost use Rattle.qo_causes.specs.Names.{no_names};
ghost use Rattle.qo_unix.specs.Counts.{after_begin, after_input, after_next, after_send, none_counted, with_loss, IsDue};
ghost use Rattle.qo_unix.specs.Inputs.{IsOurs, NeverBad, OfOneSession};
ghost use Rattle.qo_unix.specs.declared.unix_hub.TheConstants.{CHUNK_BYTES};

use crate::socket_file::SocketFile;
use qo_causes::{Chunk, Failed, Hub, Input, Lane, Moment, NextError, SendError, What};
use std::alloc::{AllocError, Global};
use std::io::{self, ErrorKind, Read, Write};
use std::marker::Model;
use std::os::unix::net::{UnixListener, UnixStream};
use std::time::{Duration, SystemTime};

/// The greatest number of bytes that one read takes.
const CHUNK_BYTES: usize = 4096;

/// How long a write waits for a peer that does not read. The session is lost after it.
const WRITE_SECONDS: u64 = 10;

/// A Unix socket that serves so many clients, one after the other, each as session 0.
///
/// It tells nothing of what clients send and get. Contracts see its counts: the calls of `begin` and `next`
/// that failed, the sends that failed, how often session 0 was lost, and how many clients are still to come.
/// They see too whether a client is served.
pub struct UnixHub {
    rt: HostRuntime,
    file: SocketFile,
    listener: Option<UnixListener>,
    // The client that is served, if there is one.
    peer: Option<UnixStream>,
    // How many clients are still to be served after it.
    connections: u32,
    next_faults: u64,
    send_faults: u64,
    losses: u64,
}

impl Model for UnixHub {
    ghost use Rattle.std.specs.Prelude.{◌≡◌, false, is_some};
    ghost use Rattle.qo_unix.specs.Counts.{Counts};

    ghost Value = { Counts };

    ghost view = { λ h. record {
      next_faults = h.next_faults;
      send_faults = h.send_faults;
      losses = h.losses;
      left = h.connections;
      serving = is_some h.peer;
    } };

    ghost invariant = { λ h. is_some h.listener ≡ false → h.connections ≡ 0 };
}

impl Drop for UnixHub {
    /// Removes the socket file, where it is still there.
    fn drop(mut self) {
        self.file.remove(&self.rt);
        let UnixHub {
            rt: _,
            file: _,
            listener: _,
            peer: _,
            connections: _,
            next_faults: _,
            send_faults: _,
            losses: _,
        } = self;
    }
}

/// One more, in a count whose last value is 2^64 - 1.
fn one_more(count: u64) -> u64
    ensures value { result ≡ counted count }
    ensures least { count ≤ result }
{
    count.saturating_add(1)
}

/// The moment by the clock.
fn now(rt: &HostRuntime) -> io::Result<Moment>
    ensures { IfOk result (λ at. at.micros < 1000000) }
{
    match SystemTime::now(rt)?.duration_since(SystemTime::UNIX_EPOCH) {
        Ok(since) => Ok(Moment {
            seconds: since.as_secs(),
            micros: since.subsec_micros(),
        }),
        Err(_) => Err(io::Error::from(ErrorKind::InvalidData)),
    }
}

/// Bytes of a peer in one piece; None where it shut its writing side, and where the read failed.
fn read_chunk(alloc: Global, peer: &mut UnixStream) -> Result<Option<Chunk>, AllocError>
    ensures { IfOk result (λ read. IfSome read (λ chunk. length chunk ≤ CHUNK_BYTES)) }
{
    let mut buffer = vec![in alloc; 0u8; CHUNK_BYTES]?;
    let count = peer.read(&mut buffer).unwrap_or(0);
    if count == 0 {
        return Ok(None);
    }
    buffer.truncate(count);
    Ok(Some(Chunk::from_vec(buffer)))
}

/// Waits for the next client.
fn accept(listener: &UnixListener) -> io::Result<UnixStream> {
    let (peer, _address) = listener.accept()?;
    peer.set_write_timeout(Some(Duration::from_secs(WRITE_SECONDS)))?;
    Ok(peer)
}

impl UnixHub {
    /// A hub that listens nowhere yet. The room for its path is taken here.
    pub fn new(rt: HostRuntime) -> Result<UnixHub, AllocError>
        ensures { IfOk result (λ hub. hub ≡ none_counted) }
    {
        Ok(UnixHub {
            file: SocketFile::new(rt.alloc())?,
            rt,
            listener: None,
            peer: None,
            connections: 0,
            next_faults: 0,
            send_faults: 0,
            losses: 0,
        })
    }

    /// What comes next, without its moment.
    fn wait(&mut self) -> Result<What, NextError>
        ensures ours { IfOk result OfOneSession }
        ensures not_bad { NeverBad result }
        ensures counts { record self.new { left = self.old.left; serving = self.old.serving } ≡ self.old }
        ensures given { IfOk result (λ w. self.new ≡ after_input self.old w) }
        ensures due { IfOk result (λ w. IsDue self.old w) }
    {
        if let Some(peer) = &mut self.peer {
            let Ok(read) = read_chunk(self.rt.alloc(), peer) else {
                return Err(NextError::Memory);
            };
            let Some(chunk) = read else {
                self.peer = None;
                return Ok(What::Shut(0));
            };
            return Ok(What::Bytes(0, chunk));
        }
        self.wait_for_client()
    }

    /// The opening of the next client's session, or the end after the last one, where none is served.
    fn wait_for_client(&mut self) -> Result<What, NextError>
        requires { self.old.serving ≡ false }
        ensures ours { IfOk result OfOneSession }
        ensures not_bad { NeverBad result }
        ensures counts { record self.new { left = self.old.left; serving = self.old.serving } ≡ self.old }
        ensures given { IfOk result (λ w. self.new ≡ after_input self.old w) }
        ensures due { IfOk result (λ w. IsDue self.old w) }
    {
        let Some(listener) = &self.listener else {
            return Ok(What::End);
        };
        if self.connections == 0 {
            self.listener = None;
            self.file.remove(&self.rt);
            return Ok(What::End);
        }
        let Ok(peer) = accept(listener) else {
            return Err(NextError::Failed);
        };
        self.peer = Some(peer);
        self.connections -= 1;
        Ok(What::Open(0))
    }

    /// What comes next, with its moment.
    fn wait_for_input(&mut self) -> Result<Input, NextError>
        ensures ours { IfOk result IsOurs }
        ensures not_bad { NeverBad result }
        ensures counts { record self.new { left = self.old.left; serving = self.old.serving } ≡ self.old }
        ensures given { IfOk result (λ i. self.new ≡ after_input self.old i.what) }
        ensures due { IfOk result (λ i. IsDue self.old i.what) }
    {
        let what = self.wait()?;
        match now(&self.rt) {
            Ok(at) => Ok(Input { at, what }),
            Err(_) => Err(NextError::Failed),
        }
    }

    /// Session 0 is lost: its client is let go.
    fn lose(&mut self) -> Result<(), SendError>
        ensures least { self.old.losses ≤ self.new.losses }
        ensures answer { result ≡ Err (SendError.Gone 0) }
        ensures after { self.new ≡ with_loss self.old }
    {
        self.peer = None;
        self.losses = one_more(self.losses);
        Err(SendError::Gone(0))
    }
}

impl Hub for UnixHub {
    ghost inputs = { λ _. None };

    ghost names = { λ _. no_names };

    ghost bad = { λ _. None };

    ghost got = { λ _ _. None };

    ghost sent = { λ _. None };

    ghost asked = { λ _. None };

    ghost next_faults = { λ h. h.next_faults };

    ghost send_faults = { λ h. h.send_faults };

    ghost losses = { λ h s. if s == 0 then h.losses else 0 };

    ghost starved = { λ _. Unit {0} };

    ghost later = { λ _ _. Unit {0} };

    /// Listens at the path, for so many clients.
    ///
    /// A socket file there on which nobody listens is replaced. It fails where anything else stands there,
    /// where no file can be made there, where the path is empty or longer than 107 bytes, and where the hub
    /// listens already; what stands at the path is then left as it was.
    fn begin(&mut self, path: &str, connections: u32) -> Result<(), Failed>
        ensures cause { HasCause self.old.next_faults self.new.next_faults result }
        ensures after { self.new ≡ after_begin self.old connections result }
    {
        if self.listener.is_none() {
            if let Ok(listener) = self.file.listen(&self.rt, path) {
                self.listener = Some(listener);
                self.connections = connections;
                return Ok(());
            }
        }
        self.next_faults = one_more(self.next_faults);
        Err(Failed)
    }

    /// Waits for what the client that is served does next, or for the next client.
    ///
    /// A client's session opens where its connection is accepted. Its bytes come in pieces of at most 4,096,
    /// one for each read. It is shut where the client shut its writing side and where a read failed. The end
    /// comes after the last client, and where the hub listens nowhere; the socket file is removed then. It
    /// fails where no connection can be accepted, and where the clock fails.
    fn next(&mut self) -> Result<Input, NextError>
        ensures next_count { self.old.next_faults ≤ self.new.next_faults }
        ensures ours { IfOk result IsOurs }
        ensures not_bad { NeverBad result }
        ensures after { record self.new { left = self.old.left; serving = self.old.serving } ≡ after_next self.old result }
        ensures given { IfOk result (λ i. self.new ≡ after_input self.old i.what) }
        ensures due { IfOk result (λ i. IsDue self.old i.what) }
    {
        let given = self.wait_for_input();
        if let Err(NextError::Failed) = given {
            self.next_faults = one_more(self.next_faults);
        }
        given
    }

    /// Writes the bytes to the client that is served.
    ///
    /// Session 0 is gone where no client is served, where a write fails, and where the client takes nothing
    /// for ten seconds while no more bytes fit on the way to it. It fails at any other lane, since no such
    /// session and no guest is there.
    fn send(&mut self, lane: Lane, bytes: &[u8]) -> Result<(), SendError>
        ensures losses { (t : ℕ) → Loses (is_gone result t) (if t == 0 then self.old.losses else 0) (if t == 0 then self.new.losses else 0) }
        ensures send_count { self.old.send_faults ≤ self.new.send_faults }
        ensures gone { GoneOnly lane result }
        ensures others { (lane ≡ Lane.Session 0 → ⊥) → result ≡ Err SendError.Failed }
        ensures after { self.new ≡ after_send self.old result }
        ensures nobody { self.old.serving ≡ false → lane ≡ Lane.Session 0 → result ≡ Err (SendError.Gone 0) }
    {
        let Lane::Session(0) = lane else {
            self.send_faults = one_more(self.send_faults);
            return Err(SendError::Failed);
        };
        let Some(peer) = &mut self.peer else {
            return self.lose();
        };
        match peer.write_all(bytes) {
            Ok(()) => Ok(()),
            Err(_) => self.lose(),
        }
    }

    ghost now = { λ a. tt };

    ghost after = { λ a b c p q. tt };
}
