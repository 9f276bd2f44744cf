//! The commands on objects keep the tree of a board sound: functions without effect, whose
//! contracts say so. The definitions of the tree and of its changes stand in `qo_model`.
#![tactic(auto)]

ghost use Rattle.qo_model.specs.ChangeScope.{StaysLaw};
ghost use Rattle.qo_sound.specs.DeviceScope.{DevicesStayLaw};
ghost use Rattle.qo_sound.specs.TreeKept.{SoundKeptLaw};
ghost use Rattle.qo_sound.specs.NotesKept.{NotesKeptLaw};
ghost use Rattle.qo_sound.specs.PlugOutcomes.{PlugComesToLaw};
ghost use Rattle.qo_sound.specs.NoTimers.{TimerlessKeptLaw};

/// Where the tree is sound, and no alias outlasts the child that it passes on to, so it is after
/// each command on objects, taken or refused, after a device that is added, refused at any stage
/// or cut, and after a device that is detached. So the tree is sound after any commands on
/// objects of the opening board.
#[tactic(auto, using(crate::proofs::TreeKeptLemmas::sound_kept_lem))]
pub fn law_sound_kept()
    ensures { SoundKeptLaw }
{}

/// A command on objects leaves of a board all but its objects, births, pins, notes and events.
pub fn law_stays()
    ensures { StaysLaw }
{}

/// Adding a device leaves of a board the time, the holds, the pending removals, the rings and the
/// events, and one that comes to nothing the notices and the number of accepted adds too. A device
/// that is detached leaves the time and the rings, and its events come after those of before.
#[tactic(auto, using(crate::proofs::DeviceScopeLemmas::devices_stay_lem))]
pub fn law_devices_stay()
    ensures { DevicesStayLaw }
{}

/// A machine begins without timers, and no command makes one but the adding of a device that is a
/// timer: the commands on objects, devices of other types, an add that is cut, a removal that is
/// asked for, refused or done, and the reset of the whole board.
#[tactic(auto, using(crate::proofs::NoTimersLemmas::timerless_kept_lem))]
pub fn law_timerless_kept()
    ensures { TimerlessKeptLaw }
{}

/// Where the notes of a board tell the story of each birth, so they do after a device that is added,
/// refused at any stage or cut, after a device that is there and is detached, and after the reset
/// of an object that is there: objects act only while they are there, and end with their final notes.
#[tactic(auto, using(crate::proofs::NotesKeptLemmas::notes_kept_lem))]
pub fn law_notes_kept()
    ensures { NotesKeptLaw }
{}

/// Adding a device leaves the board as it is where its type, its id, its bus or the number of objects
/// refuses it; a refusal for a property, or at a later stage, leaves an attempt that was given up; and
/// where nothing refuses it the device is added.
#[tactic(auto, using(crate::proofs::PlugOutcomesLemmas::plug_comes_to_lem))]
pub fn law_plug_comes_to()
    ensures { PlugComesToLaw }
{}
