//! Sessions.

ghost use Rattle.std.specs.Prelude.{◌≡◌, IfOk};
ghost use Rattle.qo_requests.specs.Messages.{command};
ghost use Rattle.qo_sessions.specs.Acts.{act, judged};

use crate::acts::{SessionAct, asked, refusal_code};
use crate::modes::Mode;
use json::Scratch;
use qo_framing::{Framer, Item};
use qo_replies::greeting;
use qo_requests::{ReadError, read};
use qo_values::{Chars, Code};
use std::alloc::{AllocError, Global};
use std::marker::Model;

/// A session: its mode, and what is unfinished of its bytes.
#[derive(Drop)]
pub struct Session {
    mode: Mode,
    framer: Framer,
}

impl Model for Session {
    ghost use Rattle.qo_sessions.specs.Sessions.{State};

    ghost Value = { State };

    ghost view = { λ s. record { mode = s.mode; framing = s.framer } };
}

impl Session {
    ghost use Rattle.std.specs.Prelude.{◌≡◌, IfOk, OnErr};
    ghost use Rattle.qo_replies.specs.Replies.{greeting};
    ghost use Rattle.qo_sessions.specs.Acts.{act, mode_after};
    ghost use Rattle.qo_sessions.specs.Sessions.{begun, closed, fed, in_mode};
    ghost use Rattle.qo_sessions.specs.declared.modes.Mode.TheVariants as Mode;

    /// A session that opens: it has to negotiate.
    pub fn begin(alloc: Global) -> Result<Session, AllocError>
        ensures { IfOk result (λ s. s ≡ begun) }
    {
        let framer = Framer::new(alloc)?;
        Ok(Session {
            mode: Mode::Negotiating,
            framer,
        })
    }

    /// A session that is not open.
    pub fn closed(alloc: Global) -> Result<Session, AllocError>
        ensures { IfOk result (λ s. s ≡ closed) }
    {
        let framer = Framer::new(alloc)?;
        Ok(Session {
            mode: Mode::Closed,
            framer,
        })
    }

    /// Its mode. It takes no memory.
    pub fn mode(&self) -> Mode
        ensures { result ≡ self.now.mode }
    {
        self.mode
    }

    /// What it is sent when it opens.
    pub fn greet_text(&self, alloc: Global) -> Result<Chars, AllocError>
        ensures { IfOk result (λ text. text ≡ greeting) }
    {
        greeting(alloc)
    }

    /// The items of further bytes, after those that came before. A closed session takes none. They are put
    /// into `room`, whose own items go first. After an error the session is as before.
    pub fn feed(
        &mut self,
        alloc: Global,
        bytes: &[u8],
        room: Vec<Item>,
    ) -> Result<Vec<Item>, AllocError>
        ensures items { IfOk result (λ items. fed self.old bytes.now ≡ record { items = items.items; session = self.new }) }
        ensures kept { OnErr result (self.new ≡ self.old) }
    {
        if self.mode == Mode::Closed {
            let mut items = room;
            items.clear();
            return Ok(items);
        }
        self.framer.feed(alloc, bytes, room)
    }

    /// What an item comes to, and the mode after it. `scratch` is room for reading. After an error
    /// the session is as before.
    pub fn act(
        &mut self,
        alloc: Global,
        item: &Item,
        scratch: &mut Scratch,
    ) -> Result<SessionAct, AllocError>
        ensures act { IfOk result (λ what. what ≡ act self.old.mode item.now) }
        ensures mode { IfOk result (λ what. self.new ≡ in_mode (mode_after self.old.mode what) self.old) }
        ensures kept { OnErr result (self.new ≡ self.old) }
    {
        let what = act_in(alloc, self.mode, item, scratch)?;
        if let SessionAct::Negotiated(_) = &what {
            self.mode = Mode::Commanding;
        }
        Ok(what)
    }

    /// It closes, and what is unfinished is dropped. It takes no memory.
    pub fn close(&mut self)
        ensures { self.new ≡ closed }
    {
        self.mode = Mode::Closed;
        self.framer.reset();
    }
}

/// What a message comes to.
fn judged(
    alloc: Global,
    mode: Mode,
    bytes: &[u8],
    scratch: &mut Scratch,
) -> Result<SessionAct, AllocError>
    ensures { IfOk result (λ what. what ≡ judged mode (command bytes.now)) }
{
    match read(alloc, bytes, scratch) {
        Ok(parsed) => Ok(asked(mode, parsed)),
        Err(
            ReadError::Refused {
                code,
                id,
                negotiates,
            },
        ) => Ok(SessionAct::Answer(refusal_code(mode, negotiates, code), id)),
        Err(ReadError::Memory) => Err(AllocError),
    }
}

#[tactic(auto, unfolding(crate::specs::Acts::act))]
/// What an item comes to.
fn act_in(
    alloc: Global,
    mode: Mode,
    item: &Item,
    scratch: &mut Scratch,
) -> Result<SessionAct, AllocError>
    ensures { IfOk result (λ what. what ≡ act mode item.now) }
{
    match item {
        Item::Object(bytes) => judged(alloc, mode, bytes.as_slice(), scratch),
        Item::Junk => Ok(SessionAct::Answer(Code::E2, None)),
        Item::Broken => Ok(SessionAct::Answer(Code::E3, None)),
        Item::TooLong => Ok(SessionAct::Answer(Code::E4, None)),
        Item::TooDeep => Ok(SessionAct::Answer(Code::E5, None)),
    }
}
