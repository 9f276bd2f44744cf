//! How a board is rebuilt of its description, step by step. Functions without effect, whose contracts say
//! so. The definitions stand in `specs/`.
#![tactic(auto)]

ghost use Rattle.qo_rebuilt.specs.DescribableKept.{DescribableKeptLaw};
ghost use Rattle.qo_rebuilt.specs.FactorsMade.{FactorsMadeLaw};
ghost use Rattle.qo_rebuilt.specs.Made.{ClockMadeLaw, RingsMadeLaw};
ghost use Rattle.qo_rebuilt.specs.DevicesMade.{DevicesMadeLaw, PluggedMadeLaw};
ghost use Rattle.qo_rebuilt.specs.DeviceTaken.{DeviceTakenLaw};
ghost use Rattle.qo_rebuilt.specs.NumbersTaken.{NumbersTakenLaw};
ghost use Rattle.qo_rebuilt.specs.ObjectsMade.{ObjectsMadeLaw};
ghost use Rattle.qo_rebuilt.specs.Rebuilt.{LinksMadeLaw, RebuiltLaw};
ghost use Rattle.qo_rebuilt.specs.TypesTold.{TypesToldLaw};
ghost use Rattle.qo_rebuilt.specs.WholeKept.{WholeKeptLaw};

/// Each change that rebuilds a board keeps it in order, and sound in all that its description is of.
#[tactic(auto, using(crate::proofs::WholeLemmas::whole_kept_lem))]
pub fn law_whole()
    ensures { WholeKeptLaw }
{}

/// Good rings, whose ids differ and are free, are added to a board, and then its description tells them
/// after those that it told before.
#[tactic(auto, using(crate::proofs::RingLemmas::rings_made_lem))]
pub fn law_rings()
    ensures { RingsMadeLaw }
{}

/// A number that is written at the canonical path of a clock, as wide as its property, goes to the clock:
/// its period, or what it multiplies and divides by.
#[tactic(auto, using(crate::proofs::NumberLemmas::numbers_taken_lem))]
pub fn law_numbers()
    ensures { NumbersTakenLaw }
{}

/// Good numbers of the system clock are written to the opening board, and then its description tells them.
/// So do the rings of a good description that are added after them.
#[tactic(auto, using(crate::proofs::ClockLemmas::clock_made_lem))]
pub fn law_clock()
    ensures { ClockMadeLaw }
{}

/// Good objects, whose ids differ and are free, are added where there is room, and then the description tells them
/// after those that it told before. So are those of a good description, after its clock and its rings.
#[tactic(auto, using(crate::proofs::ObjectLemmas::objects_made_lem))]
pub fn law_objects()
    ensures { ObjectsMadeLaw }
{}

/// A good device that nothing refuses is added, and then the description tells it after those that it told before:
/// where no clock of a device multiplies or divides yet, and no link is written.
#[tactic(auto, using(crate::proofs::DeviceLemmas::plugged_made_lem))]
pub fn law_plugged()
    ensures { PluggedMadeLaw }
{}

/// Each object of the opening board tells the name of its type, and where the objects of a board are shaped
/// as their types say and do, they do after each change: each command on objects, a device that is added,
/// taken or refused at any stage, a device that is detached, acts and holds, the reset of the whole board, a
/// write of a clock's numbers that is not refused, other registers of an object, and what changes no object.
/// So does each object of a board that is rebuilt of a description, and whole.
#[tactic(auto, using(crate::proofs::TypesLawLemmas::types_told_lem))]
pub fn law_types()
    ensures { TypesToldLaw }
{}

/// The factors of the clocks of a good description's devices are written to a board that tells all else of
/// it but links: none is refused, and then its description tells them.
#[tactic(auto, using(crate::proofs::FrontLemmas::factors_made_lem))]
pub fn law_factors()
    ensures { FactorsMadeLaw }
{}

/// The links of a good description are written, in its order, to a board that tells all else of it: none is
/// refused, and then its description tells them.
#[tactic(auto, using(crate::proofs::LinkLemmas::links_made_lem))]
pub fn law_links()
    ensures { LinksMadeLaw }
{}

/// A good device whose id is no other's is not refused, where there is room for its objects: on a board whose description
/// tells those that stand before it, by a layout of them.
#[tactic(auto, using(crate::proofs::TakenLemmas::device_taken_lem))]
pub fn law_taken()
    ensures { DeviceTakenLaw }
{}

/// Good devices are added in order, where there is room for their objects, and then the description tells them
/// after those that it told before.
#[tactic(auto, using(crate::proofs::DevicesLawLemmas::devices_made_lem))]
pub fn law_devices()
    ensures { DevicesMadeLaw }
{}

/// Every good description is rebuilt without refusal, and the board that is made tells it. So every sound
/// board in order, whose objects tell their types, and that has a description, is rebuilt of that to a board
/// that is like it and has the same description.
#[tactic(auto, using(crate::proofs::RebuiltLemmas::rebuilt_lem))]
pub fn law_rebuilt()
    ensures { RebuiltLaw }
{}

/// Whatever is rebuilt of a description, good or not, is in order and has a description: so has the opening
/// board, and what each command makes that is not refused, of a board in order that has one: a value is
/// written at any path and name, a ring, a user's object, and a device with an id are added.
#[tactic(auto, using(crate::proofs::DescribableLemmas::describable_kept_lem))]
pub fn law_describable()
    ensures { DescribableKeptLaw }
{}
