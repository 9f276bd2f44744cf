//! Records that are cut short.

use crate::life::Life;
use crate::replaying::{NO_FAULTS, replay};
use compose::Status;
use std::process::Abort;
use std::test::Fail;

/// How long record and transcript are behind the last entry that ends within so many bytes; nothing within the header.
fn whole_within(life: &Life, most: usize) -> (usize, usize) {
    let mut whole = (0, 0);
    for lengths in life.lengths.iter() {
        if lengths.0 <= most {
            whole = *lengths;
        }
    }
    whole
}

#[test]
fn a_record_that_is_cut_is_bad_at_the_entry_that_is_cut(rt: HostRuntime) -> Result<(), Fail> {
    let life = Life::of_a_uart(rt.alloc())?;
    for at in 0..=life.record.len() {
        let left = replay(rt.alloc(), &life.record.as_slice()[..at], NO_FAULTS)?;
        let (entries, lines) = whole_within(&life, at);
        assert!(rt; lines <= life.transcript.len());
        assert_eq!(rt; left.held.as_slice(), &life.transcript.as_slice()[..lines]);
        if at == entries && at > 0 {
            assert_eq!(rt; left.status, Status::Done);
            assert!(rt; left.told.is_empty());
        } else {
            assert_eq!(rt; left.status, Status::BadRecord);
            let told = format!(in rt.alloc(); "compose: bad record at byte {entries}\n")?;
            assert_eq!(rt; left.told.as_slice(), told.as_bytes());
        }
    }
    Ok(())
}
