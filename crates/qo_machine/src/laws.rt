//! What holds of the machine alone: who is touched by what, that each message is answered once, that pieces of bytes
//! may be cut anywhere, and what holds of objects over whole runs.

ghost use Rattle.qo_machine.specs.Answering.{AnsweredInRuns};
ghost use Rattle.qo_machine.specs.Later.{LaterInRuns};
ghost use Rattle.qo_machine.specs.Laws.{ChunksAreFree, FinalOnceInRuns, HeldInRuns, LanesAreApart, PhasesInRuns, SoundInRuns};

/// Opening, shutting, and each item of a session that is no command leave the board, the guest line
/// and all other sessions as they are, and send to that session alone.
pub fn law_lanes()
    ensures { LanesAreApart }
{}

/// In any run each item of an open session before the end of the run is answered by exactly one reply, which goes
/// to that session, and each line that the guest ends by exactly one answer. It is the defined one, after events;
/// or, for a command or a line for which memory runs out, E99 or `no memory` alone. A session that opens is
/// greeted. Nothing else is sent.
pub fn law_answers()
    ensures { AnsweredInRuns }
{}

/// In any run, bytes of a session that come whole may as well come in two pieces at the same moment, while sessions
/// have the same names, and the other way round: the same is sent, with the same transcript, and the same state is left.
pub fn law_chunks()
    ensures { ChunksAreFree }
{}

/// Over every run from the opening each object has its final notes at most once, those of its type derived
/// first, and no note after them.
pub fn law_final_once()
    ensures { FinalOnceInRuns }
{}

/// Each step keeps the tree of the board sound: births, names, targets, children, pins, references and
/// what aliases pass on to. With it, each step keeps devices in their places, and the lists of pending
/// removals and of notices; and with these what clocks go by, their periods and numbers, and the moments
/// of timers. So all these are sound over every run from the opening: what
/// `qo_sound_devices::law_devices_say` says of devices, and `qo_sound_clocks::law_clocks_say` of clocks,
/// is so of each board of it. With all these the whole of what a sound board is (`SoundBoard`): each object
/// is shaped as its type says, what stands in `/objects` may be made by a user, each clock goes by the one
/// for it, the segments of timers are sound, and so are rings and what devices claim of rings, memory and
/// addresses, holds are on what a reset reaches, and the limits on objects, time and holds are kept.
pub fn law_sound()
    ensures { SoundInRuns }
{}

/// Over every run from the opening the phases of resets that are noted of each birth are the beginning of
/// enter, hold, exit, repeated. A machine, a bus or a device that is attached is held by its notes where a
/// hold is on it or above it, and nowhere else; and it has no more holds on it and above it than one more
/// than may be before a hold.
pub fn law_phases()
    ensures { PhasesInRuns }
{}

/// Over every run an object that is there and not attached is held, through child slots and strong links,
/// from an object on a cycle of such, or from an attached object: nothing else outlives its place in the
/// tree.
pub fn law_cycle()
    ensures { HeldInRuns }
{}

/// Each step and each run lead from a board to a later one, whatever the state at first: births and the
/// virtual time do not go back, what was noted stays, what is noted comes after it, and no birth is given
/// twice.
pub fn law_later()
    ensures { LaterInRuns }
{}
