//! Streams of bytes that are no objects.

use crate::replaying::{NO_FAULTS, replay};
use compose::Status;
use std::process::Abort;
use std::test::Fail;

const GREETING: &[u8] =
    b"0 {\"QMP\":{\"capabilities\":[],\"version\":{\"package\":\"compose\",\"qemu\":{\"major\":1,\"micro\":0,\"minor\":0}}}}\r\n";

/// The bytes of each entry, how often they come in it, and the lines of the transcript that they come to.
const ENTRIES: [(&[u8], usize, &[u8]); 6] = [
    (
        b"{\"execute\":\"qmp_capabilities\"}",
        1,
        b"0 {\"return\":{}}\r\n",
    ),
    (
        b"{",
        65_536,
        b"0 {\"error\":{\"class\":\"GenericError\",\"desc\":\"E5 object nested too deep\"}}\r\n",
    ),
    (b"{", 65_536, b""),
    (
        b"\n{\"execute\":\"query-status\"}",
        1,
        b"0 {\"return\":{\"running\":true,\"status\":\"running\"}}\r\n",
    ),
    (b"\xff", 65_536, b""),
    (
        b"]",
        65_536,
        b"0 {\"error\":{\"class\":\"GenericError\",\"desc\":\"E2 input outside an object\"}}\r\n",
    ),
];

#[test]
fn bytes_without_an_end_are_refused_once(rt: HostRuntime) -> Result<(), Fail> {
    let mut record = Vec::from_slice(rt.alloc(), b"qrec 1\nopen 1.000000 0\n")?;
    let mut transcript = Vec::from_slice(rt.alloc(), GREETING)?;
    for (said, times, lines) in ENTRIES {
        let head = format!(in rt.alloc(); "bytes 1.000000 0 {}\n", said.len() * times)?;
        record.extend_from_slice(head.as_bytes())?;
        for _ in 0..times {
            record.extend_from_slice(said)?;
        }
        record.push(b'\n')?;
        transcript.extend_from_slice(lines)?;
    }
    let left = replay(rt.alloc(), record.as_slice(), NO_FAULTS)?;
    assert_eq!(rt; left.status, Status::Done);
    assert_eq!(rt; left.held.as_slice(), transcript.as_slice());
    assert!(rt; left.told.is_empty());
    Ok(())
}
