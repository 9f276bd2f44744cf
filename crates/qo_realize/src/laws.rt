//! What holds of the board. Each is a function with no effect, whose contract is the law.

ghost use Rattle.qo_realize.specs.Addresses.{AddressLaw};
ghost use Rattle.qo_realize.specs.Refusals.{RefusedDevicesLaw};

/// A device or a user's object that is refused leaves the board as it was: its tree, and all that stands
/// beside it. Only births and notes may be left of an attempt that was made. So does an attempt that is
/// cut for want of memory, each stage of an add that is made in stages, and a device that is abandoned.
#[tactic(auto, using(crate::proofs::RefusedDeviceLemmas::refused_devices_lem))]
pub fn law_refused_devices()
    ensures { RefusedDevicesLaw }
{}

/// On a sound board the address of a device that stands in its place is the one at which the guest finds
/// it.
#[tactic(auto, using(crate::proofs::AddressLemmas::address_lem))]
pub fn law_address()
    ensures { AddressLaw }
{}
