//! A session that is lost as it is sent something.

use compose::{Ran, Status, compose};
use qo_causes::{ByteSink, ByteSource, Chunk, Input, Lane, Moment, ScriptHub, What};
use qo_listen::Listeners;
use std::alloc::Global;
use std::process::Abort;
use std::test::Fail;

const NEGOTIATE: &[u8] = b"{\"execute\":\"qmp_capabilities\"}";

/// What a lost session says: it negotiates, and adds a tag.
const UNHEARD: &[u8] =
    b"{\"execute\":\"qmp_capabilities\"}{\"execute\":\"object-add\",\"arguments\":{\"qom-type\":\"tag\",\"id\":\"t\"}}";

/// What it asks once it is open again.
const ASKED: &[u8] = b"{\"execute\":\"qom-list\",\"arguments\":{\"path\":\"/objects\"}}";

const GREETING: &str =
    "{\"QMP\":{\"capabilities\":[],\"version\":{\"package\":\"compose\",\"qemu\":{\"major\":1,\"micro\":0,\"minor\":0}}}}\r\n";

/// What it is sent behind the greeting then: a reply, and that there is no tag.
const REPLIES: &str =
    "{\"return\":{}}\r\n{\"return\":[{\"name\":\"type\",\"type\":\"string\"}]}\r\n";

/// What a session says, as an input.
fn said(alloc: Global, session: u8, bytes: &[u8]) -> Result<What, Fail> {
    let bytes = Vec::from_slice(alloc, bytes)?;
    if bytes.is_empty() || bytes.len() > Chunk::MAX {
        return Ok(What::Shut(session));
    }
    Ok(What::Bytes(session, Chunk::from_vec(bytes)))
}

/// A hub with these inputs, whose send of this number finds its session gone.
fn losing_hub(alloc: Global, whats: Vec<What>, send: u64) -> Result<ScriptHub, Fail> {
    let mut inputs = Vec::new(alloc);
    for what in whats {
        let at = Moment {
            seconds: 1,
            micros: 0,
        };
        inputs.push(Input { at, what })?;
    }
    let none = Vec::new(alloc);
    let gone = Vec::from_slice(alloc, &[send])?;
    Ok(ScriptHub::new(alloc, inputs, 4_096, none, Vec::new(alloc), gone)?)
}

/// The status of `serve` over a hub.
fn served(alloc: Global, hub: &mut ScriptHub) -> Result<Status, Fail> {
    let mut words: Vec<String> = Vec::new(alloc);
    for word in ["serve", "--socket", "s", "--connections", "2"] {
        words.push(String::from_str(alloc, word)?)?;
    }
    let source = ByteSource::new(Vec::new(alloc), Vec::new(alloc));
    let sink = ByteSink::new(alloc, 16, Vec::new(alloc))?;
    let mut complaints = ByteSink::new(alloc, 256, Vec::new(alloc))?;
    let Ran {
        status,
        code: _,
        source: _,
        sink: _,
    } = compose(
        alloc,
        words.as_slice(),
        source,
        sink,
        &mut complaints,
        hub,
        Listeners::new(alloc),
    );
    Ok(status)
}

/// What a session is sent that is greeted and asks whether there is a tag.
fn greeted_and_told(alloc: Global) -> Result<Vec<u8>, Fail> {
    let mut sent = Vec::from_slice(alloc, GREETING.as_bytes())?;
    sent.extend_from_slice(REPLIES.as_bytes())?;
    Ok(sent)
}

#[test]
fn a_lost_session_is_not_heard_until_it_opens_again(rt: HostRuntime) -> Result<(), Fail> {
    let mut whats = Vec::new(rt.alloc());
    whats.push(What::Open(0))?;
    whats.push(said(rt.alloc(), 0, UNHEARD)?)?;
    whats.push(What::Open(0))?;
    whats.push(said(rt.alloc(), 0, NEGOTIATE)?)?;
    whats.push(said(rt.alloc(), 0, ASKED)?)?;
    let mut hub = losing_hub(rt.alloc(), whats, 1)?;
    assert_eq!(rt; served(rt.alloc(), &mut hub)?, Status::Done);
    let sent = greeted_and_told(rt.alloc())?;
    assert_eq!(rt; hub.lane(Lane::Session(0)), sent.as_slice());
    Ok(())
}

#[test]
fn a_session_that_is_lost_as_it_negotiates_is_sent_nothing_more(
    rt: HostRuntime,
) -> Result<(), Fail> {
    let mut whats = Vec::new(rt.alloc());
    whats.push(What::Open(0))?;
    whats.push(What::Open(1))?;
    // Both were greeted, so that the third send is the reply to this.
    whats.push(said(rt.alloc(), 1, NEGOTIATE)?)?;
    whats.push(said(rt.alloc(), 1, UNHEARD)?)?;
    whats.push(said(rt.alloc(), 0, NEGOTIATE)?)?;
    whats.push(said(rt.alloc(), 0, ASKED)?)?;
    let mut hub = losing_hub(rt.alloc(), whats, 3)?;
    assert_eq!(rt; served(rt.alloc(), &mut hub)?, Status::Done);
    let sent = greeted_and_told(rt.alloc())?;
    assert_eq!(rt; hub.lane(Lane::Session(0)), sent.as_slice());
    assert_eq!(rt; hub.lane(Lane::Session(1)), GREETING.as_bytes());
    Ok(())
}
