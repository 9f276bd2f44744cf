//! Laws of the memory map and of the interrupt lines. Functions without effect, whose contracts say so.

ghost use Rattle.qo_layout.specs.Layout.{MapLaw, WindowLaw};
ghost use Rattle.qo_layout.specs.LineLaws.{LinesLaw, SameLinesLaw, TimelyLaw, TurnsLaw};
ghost use Rattle.qo_layout.specs.SameViews.{SameViewLaw};

/// On a sound board a device that is found at slots from the root bus on shows at the address of these
/// slots: there the map has the device, and at four bytes for each register the register's place in it.
#[tactic(auto, using(crate::proofs::WindowLemmas::window_lem))]
pub fn law_window()
    ensures { WindowLaw }
{}

/// On a sound board each region may be added to a map after those of lower numbers: it names these alone,
/// its numbers are in range, and neither are there too many regions nor do they stand too deep in one
/// another.
pub fn law_map()
    ensures { MapLaw }
{}

/// On a sound board the line of a UART and of a timer is by its registers, that of a bus is high where
/// that of a device on it is, and that of a bridge is its bus's unless its control register hides it.
#[tactic(auto, using(crate::proofs::LineLemmas::line_is))]
pub fn law_turns()
    ensures { TurnsLaw }
{}

/// On a sound board the level of each line of a net that was made for it is the line of the object that it
/// stands for.
#[tactic(auto, using(crate::proofs::LineLemmas::lines_lem))]
pub fn law_lines()
    ensures { LinesLaw }
{}

/// Lines that were made for a board are made for each other board with the same devices.
#[tactic(auto, using(crate::proofs::SameLemmas::same_lem))]
pub fn law_same()
    ensures { SameLinesLaw }
{}

/// The heap of a board whose moments are sound is timely, as calls of `Lines` require.
#[tactic(auto, using(crate::proofs::TimeLemmas::timely_lem))]
pub fn law_timely()
    ensures { TimelyLaw }
{}

/// Boards with the same objects have the same flat view, whatever the registers of these read, where each
/// DIMM has the same range.
#[tactic(auto, using(crate::proofs::SameViewLemmas::same_view_lem))]
pub fn law_same_view()
    ensures { SameViewLaw }
{}
