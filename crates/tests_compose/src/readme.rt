//! The example of the repository's README, as it stands there.

use compose::{NoHub, Ran, Status, compose};
use qo_causes::{ByteSink, ByteSource};
use qo_listen::Listeners;
use std::test::Fail;

#[test]
fn the_example_of_the_readme(rt: HostRuntime) -> Result<(), Fail> {
    let alloc = rt.alloc();
    let record = Vec::from_slice(alloc, b"qrec 1\n")?;
    let words = Vec::from_array(alloc, [String::from_str(alloc, "replay")?])?;
    let source = ByteSource::new(record, Vec::new(alloc));
    let sink = ByteSink::new(alloc, 65_536, Vec::new(alloc))?;
    let mut complaints = ByteSink::new(alloc, 256, Vec::new(alloc))?;
    let Ran {
        status,
        code: _,
        source: _,
        sink,
    } = compose(
        alloc,
        words.as_slice(),
        source,
        sink,
        &mut complaints,
        &mut NoHub,
        Listeners::new(alloc),
    );
    assert_eq!(rt; status, Status::Done);
    let transcript = sink.held();
    assert_eq!(rt; transcript.len(), 0);
    Ok(())
}
