//! Laws over the definitions of regions. Each is a function with no effect, whose contract is the law.

ghost use Rattle.qo_memmap.specs.FlatViews.{OneFlatLaw};
ghost use Rattle.qo_memmap.specs.Laws.{LawRegions, LawTopmost};

/// Where each region names lower ones, what a region shows is what its kind and its children make of
/// what those show that it names.
pub fn law_regions()
    ensures { LawRegions }
{}

/// Of the children that show something at an address, the one of the greatest priority shows, and of
/// these the last in the list.
pub fn law_topmost()
    ensures { LawTopmost }
{}

/// A flat view of what is shown below an address is the list of spans that is made address by address.
#[tactic(auto, using(crate::proofs::FlatViewLemmas::one_flat_lem))]
pub fn law_one_flat()
    ensures { OneFlatLaw }
{}
