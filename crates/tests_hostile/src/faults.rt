//! Takes and puts that fail.

use crate::life::Life;
use crate::replaying::{Faults, Left, NO_FAULTS, replay, replay_into};
use crate::slow_sink::SlowSink;
use compose::Status;
use qo_causes::ByteSink;
use std::alloc::Global;
use std::process::Abort;
use std::test::Fail;

/// A replay that failed so: it put a front of the transcript, and complained in this line.
fn is_cut(rt: &impl Abort, left: &Left, life: &Life, status: Status, told: &[u8]) {
    assert_eq!(rt; left.status, status);
    assert!(rt; life.transcript.as_slice().starts_with(left.held.as_slice()));
    assert_eq!(rt; left.told.as_slice(), told);
}

/// A replay that was not disturbed.
fn is_whole(rt: &impl Abort, left: &Left, life: &Life) {
    assert_eq!(rt; left.status, Status::Done);
    assert_eq!(rt; left.held.as_slice(), life.transcript.as_slice());
    assert!(rt; left.told.is_empty());
}

#[test]
fn the_record_has_its_transcript(rt: HostRuntime) -> Result<(), Fail> {
    let life = Life::of_a_uart(rt.alloc())?;
    let left = replay(rt.alloc(), life.record.as_slice(), NO_FAULTS)?;
    is_whole(&rt, &left, &life);
    Ok(())
}

#[test]
fn each_take_that_fails_is_a_read_fault(rt: HostRuntime) -> Result<(), Fail> {
    let life = Life::of_a_uart(rt.alloc())?;
    // All of the record comes with the first take, and the second one tells that nothing is left.
    for take in [1, 2] {
        let faults = Faults {
            takes: &[take],
            ..NO_FAULTS
        };
        let left = replay(rt.alloc(), life.record.as_slice(), faults)?;
        is_cut(
            &rt,
            &left,
            &life,
            Status::ReadFault,
            b"compose: read fault\n",
        );
    }
    let faults = Faults {
        takes: &[3],
        ..NO_FAULTS
    };
    let left = replay(rt.alloc(), life.record.as_slice(), faults)?;
    is_whole(&rt, &left, &life);
    Ok(())
}

/// How many lines a transcript has.
fn lines_in(transcript: &[u8]) -> u64 {
    transcript.iter().filter(|byte| **byte == b'\n').count() as u64
}

#[test]
fn each_put_that_fails_is_a_write_fault(rt: HostRuntime) -> Result<(), Fail> {
    let life = Life::of_a_uart(rt.alloc())?;
    let lines = lines_in(life.transcript.as_slice());
    for put in 1..=lines {
        let faults = Faults {
            puts: &[put],
            ..NO_FAULTS
        };
        let left = replay(rt.alloc(), life.record.as_slice(), faults)?;
        is_cut(
            &rt,
            &left,
            &life,
            Status::WriteFault,
            b"compose: write fault\n",
        );
        // Each message is one put.
        assert_eq!(rt; lines_in(left.held.as_slice()), put - 1);
    }
    let none = lines.checked_add(1).expect(&rt, "few lines");
    let faults = Faults {
        puts: &[none],
        ..NO_FAULTS
    };
    let left = replay(rt.alloc(), life.record.as_slice(), faults)?;
    is_whole(&rt, &left, &life);
    Ok(())
}

/// The status of a replay stays as it is, whichever put of its complaint fails: the line has at most three.
fn keeps_its_status(
    rt: &impl Abort,
    alloc: Global,
    record: &[u8],
    faults: Faults,
    status: Status,
) -> Result<(), Fail> {
    let usual = replay(alloc, record, faults)?;
    assert_eq!(rt; usual.status, status);
    for complaint in 1..=3 {
        let complaints = &[complaint];
        let left = replay(
            alloc,
            record,
            Faults {
                complaints,
                ..faults
            },
        )?;
        assert_eq!(rt; left.status, status);
        assert_eq!(rt; left.held.as_slice(), usual.held.as_slice());
        assert!(rt; usual.told.as_slice().starts_with(left.told.as_slice()));
    }
    Ok(())
}

#[test]
fn complaints_that_fail_change_no_status(rt: HostRuntime) -> Result<(), Fail> {
    let mut life = Life::of_a_uart(rt.alloc())?;
    let record = life.record.as_slice();
    keeps_its_status(&rt, rt.alloc(), record, NO_FAULTS, Status::Done)?;
    let unread = Faults {
        takes: &[1],
        ..NO_FAULTS
    };
    keeps_its_status(&rt, rt.alloc(), record, unread, Status::ReadFault)?;
    let unwritten = Faults {
        puts: &[2],
        ..NO_FAULTS
    };
    keeps_its_status(&rt, rt.alloc(), record, unwritten, Status::WriteFault)?;
    life.record.push(b'x')?;
    let record = life.record.as_slice();
    keeps_its_status(&rt, rt.alloc(), record, NO_FAULTS, Status::BadRecord)
}

#[test]
fn a_sink_may_take_one_byte_at_a_time(rt: HostRuntime) -> Result<(), Fail> {
    let life = Life::of_a_uart(rt.alloc())?;
    let sink = SlowSink::new(rt.alloc(), 65_536)?;
    let mut complaints = ByteSink::new(rt.alloc(), 4_096, Vec::new(rt.alloc()))?;
    let record = life.record.as_slice();
    let (status, sink) = replay_into(rt.alloc(), record, &[], sink, &mut complaints)?;
    assert_eq!(rt; status, Status::Done);
    assert_eq!(rt; sink.held(), life.transcript.as_slice());
    Ok(())
}
