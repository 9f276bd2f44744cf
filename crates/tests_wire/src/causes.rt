//! What no clause says: that calls succeed with ample memory, the texts, and the impls at concrete types.
use qo_causes::{
    ByteSink, ByteSource, Failed, Hub, Lane, NextError, ScriptHub, SendError, Sink, Source,
    StdSink, StdSource, What, put_all,
};
use std::io::{self, ErrorKind, Read};
use std::test::Fail;

#[derive(Drop)]
struct Broken;

impl Read for Broken {
    fn read(&mut self, _buf: &mut [u8]) -> io::Result<usize> {
        Err(io::Error::from(ErrorKind::BrokenPipe))
    }
}

#[test]
fn source_over_a_reader(rt: HostRuntime) {
    let mut source = StdSource::new(b"abcd".as_slice());
    let mut buf = [0; 3];
    assert_eq!(rt; source.take(&mut buf), Ok(3));
    assert_eq!(rt; source.take(&mut buf), Ok(1));
    assert_eq!(rt; buf, *b"dbc");
    assert_eq!(rt; source.take(&mut buf), Ok(0));
    assert_eq!(rt; StdSource::new(Broken).take(&mut buf), Err(Failed));
}

#[test]
fn sink_over_a_writer(rt: HostRuntime) -> Result<(), Fail> {
    let mut bytes = Vec::new(rt.alloc());
    let mut sink = StdSink::new(&mut bytes);
    assert_eq!(rt; put_all(&mut sink, b"abc"), Ok(()));
    assert_eq!(rt; bytes.as_slice(), b"abc".as_slice());
    let mut room = [0; 2];
    let mut full = StdSink::new(room.as_mut_slice());
    assert_eq!(rt; put_all(&mut full, b"abc"), Err(Failed));
    let mut printed = StdSink::new(io::writer(&rt));
    assert_eq!(rt; printed.put(b""), Ok(0));
    Ok(())
}

#[test]
fn errors_have_their_texts(rt: HostRuntime) -> Result<(), Fail> {
    let alloc = rt.alloc();
    let texts = format!(in alloc; "{}; {}; {}", Failed, NextError::Bad(7), SendError::Gone(3))?;
    assert_eq!(rt;
        texts.as_str(),
        "a call of the outside failed; no input at byte 7; session 3 is gone"
    );
    assert!(rt; Lane::Session(3) != Lane::Guest);
    Ok(())
}

#[test]
fn what_is_in_memory_is_made(rt: HostRuntime) -> Result<(), Fail> {
    let alloc = rt.alloc();
    let mut source = ByteSource::new(vec![in alloc; 1, 2]?, Vec::new(alloc));
    let mut buf = [0; 3];
    assert_eq!(rt; source.take(&mut buf), Ok(2));
    let mut sink = ByteSink::new(alloc, 3, Vec::new(alloc))?;
    assert_eq!(rt; put_all(&mut sink, b"abc"), Ok(()));
    let (inputs, nexts, sends) = (Vec::new(alloc), Vec::new(alloc), Vec::new(alloc));
    let mut hub = ScriptHub::new(alloc, inputs, 5, nexts, sends, Vec::new(alloc))?;
    assert_eq!(rt; hub.begin("s", 3), Ok(()));
    assert!(rt; hub.send(Lane::Session(15), b"abc").is_ok());
    assert!(rt; matches!(hub.next()?.what, What::End));
    Ok(())
}
