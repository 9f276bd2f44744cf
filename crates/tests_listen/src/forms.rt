//! What a tape and a mirror tell of a timer that comes and goes.

use qo_listen::{Listener, Mirror, Tape};
use qo_model::{Deed, Note};
use qo_values::{Act, TypeId};
use std::test::Fail;

/// The notes of a timer with its clock, up to its end: it is made and realized, and goes through a reset.
const COMING: [Note; 8] = [
    Note {
        birth: 9,
        deed: Deed::Did(Act::Init(TypeId::Device)),
    },
    Note {
        birth: 9,
        deed: Deed::Did(Act::Init(TypeId::SlotDevice)),
    },
    Note {
        birth: 9,
        deed: Deed::Did(Act::Init(TypeId::SlotTimer)),
    },
    Note {
        birth: 10,
        deed: Deed::Did(Act::Init(TypeId::Clock)),
    },
    Note {
        birth: 9,
        deed: Deed::Did(Act::Realize),
    },
    Note {
        birth: 9,
        deed: Deed::Did(Act::Enter),
    },
    Note {
        birth: 9,
        deed: Deed::Did(Act::Hold),
    },
    Note {
        birth: 9,
        deed: Deed::Did(Act::Exit),
    },
];

/// Those of its end.
const GOING: [Note; 5] = [
    Note {
        birth: 9,
        deed: Deed::Did(Act::Unrealize),
    },
    Note {
        birth: 10,
        deed: Deed::Final(TypeId::Clock),
    },
    Note {
        birth: 9,
        deed: Deed::Final(TypeId::SlotTimer),
    },
    Note {
        birth: 9,
        deed: Deed::Final(TypeId::SlotDevice),
    },
    Note {
        birth: 9,
        deed: Deed::Final(TypeId::Device),
    },
];

#[test]
fn a_tape_tells_each_note(rt: HostRuntime) -> Result<(), Fail> {
    let mut tape = Tape::new(rt.alloc());
    assert_eq!(rt; tape.report()?.as_slice(), b"".as_slice());
    for note in &COMING[..5] {
        tape.told(note)?;
    }
    for note in &GOING[..2] {
        tape.told(note)?;
    }
    let told =
        b"init 9 device\ninit 9 slot-device\ninit 9 slot-timer\ninit 10 clock\nrealize 9\nunrealize 9\nfinal 10 clock\n";
    assert_eq!(rt; tape.report()?.as_slice(), told.as_slice());
    Ok(())
}

#[test]
fn a_mirror_tells_who_is_left(rt: HostRuntime) -> Result<(), Fail> {
    let mut mirror = Mirror::new(rt.alloc());
    assert_eq!(rt; mirror.report()?.as_slice(), b"live\n".as_slice());
    for note in &COMING {
        mirror.told(note)?;
    }
    assert_eq!(rt; mirror.report()?.as_slice(), b"live 9 10\n".as_slice());
    for note in &GOING {
        mirror.told(note)?;
    }
    assert_eq!(rt; mirror.report()?.as_slice(), b"live\n".as_slice());
    Ok(())
}
