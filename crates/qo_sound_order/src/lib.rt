//! The order of a board: that ids are ids, that births rise down its tree, and that no object is of an
//! abstract type; and that its plain values are told as they are. Functions without effect, whose
//! contracts say what keeps it so. The definitions stand in `specs/`.
#![tactic(auto)]

ghost use Rattle.qo_sound_order.specs.OrderKept.{OrderKeptLaw};
ghost use Rattle.qo_sound_order.specs.TypesKept.{TypesKeptLaw};
ghost use Rattle.qo_sound_order.specs.ValuesKept.{ValuesKeptLaw};

/// No object is of an abstract type on the opening board, and after each change of a board, whatever
/// the board: each command on objects, a device that is added, refused at any stage or cut, a removal
/// that is asked for or refused, a device that is detached, acts and holds, the reset of the whole
/// board, a write of a clock's numbers that is not refused, other registers of an object, and what
/// changes no object.
#[tactic(auto, using(crate::proofs::TypesLemmas::types_kept_lem))]
pub fn law_types_kept()
    ensures { TypesKeptLaw }
{}

/// A board is in order where each ring has an id, and so have the objects that users made and the devices
/// that were added with one; births rise from each object along its children, and from each bus along
/// the devices on it; and no object is of an abstract type. It is so on the opening board, after what
/// changes neither objects nor rings, a ring that is added under an id or removed, rings that get other
/// bytes, an act, and other registers of an object. Where the board is sound as far as devices go, it
/// is so after each change.
#[tactic(auto, using(crate::proofs::OrderLawLemmas::order_kept_lem))]
pub fn law_order_kept()
    ensures { OrderKeptLaw }
{}

/// The plain values of a board are told as they are where each text is in UTF-8, and each number stands
/// as one of 64 bits, with a sign only where it is below 0. They are so on the opening board, after what
/// changes no object, and after each change, whatever the board: where clocks are written with numbers
/// of 64 bits, and what is given to a new object, to a device or to a property is told as it is.
#[tactic(auto, using(crate::proofs::ValuesLawLemmas::values_kept_lem))]
pub fn law_values_kept()
    ensures { ValuesKeptLaw }
{}
