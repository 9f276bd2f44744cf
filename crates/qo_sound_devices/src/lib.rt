//! The soundness of devices on a board: that each stands in its place, among the containers of
//! devices and on a bus, and that the lists that name devices name those that do. Functions without
//! effect, whose contracts say what keeps it so. The definitions stand in `specs/`.
#![tactic(auto)]

ghost use Rattle.qo_sound_devices.specs.DevicesKept.{DevicesKeptLaw};
ghost use Rattle.qo_sound_devices.specs.DeviceFacts.{DevicesSayLaw};
ghost use Rattle.qo_sound_devices.specs.ListsKept.{ListsKeptLaw};
ghost use Rattle.qo_sound_devices.specs.PlacesKept.{PlacesKeptLaw};

/// Where devices stand is sound on the opening board. Where the tree and the places of a board are
/// sound, the places are so after each command on objects, taken or refused, after attempts that
/// were given up or cut, after a removal that is asked for or refused, after a device that is added
/// or refused at any stage, and after a device that stands in a container and is detached.
#[tactic(auto, using(crate::proofs::LawLemmas::places_kept_lem))]
pub fn law_places_kept()
    ensures { PlacesKeptLaw }
{}

/// The removals that are pending, and the notices that the guest has, are of devices that are realized
/// and stand in their places, no removal is pending twice, and there are not too many notices: so it is
/// on the opening board, and after each command on objects, an attempt that was given up or cut, a
/// removal that is asked for or refused, a notice that is read, and a device that is added. A device
/// that is detached leaves both lists with all that is below it.
#[tactic(auto, using(crate::proofs::ListsLawLemmas::lists_kept_lem))]
pub fn law_lists_kept()
    ensures { ListsKeptLaw }
{}

/// The tree, the places and the lists of a board are sound together on the opening board, and after
/// any steps of it: commands on objects, devices that are added, refused or cut, removals that are
/// asked for and refused or let go, notices that are read, acts, holds, and resets of the whole board.
/// Each step keeps them so.
#[tactic(auto, using(crate::proofs::DevicesLawLemmas::devices_kept_lem))]
pub fn law_devices_kept()
    ensures { DevicesKeptLaw }
{}

/// On such a board a device is realized where it is attached, and nowhere else; a realized device is
/// on an attached bus for its type, which has it in the slot that it names, and its kept path is its
/// canonical path; no two objects have one id; and no more than eight bridges stand above an attached
/// bus.
#[tactic(auto, using(crate::proofs::FactLemmas::devices_say_lem))]
pub fn law_devices_say()
    ensures { DevicesSayLaw }
{}
