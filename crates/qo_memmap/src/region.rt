//! Regions of addresses.

ghost use Rattle.std.specs.Prelude.{◌≡◌, ◌≤◌, ℕ, true, length, nat_lt, nat_le, slice_index};
ghost use Rattle.std.specs.List.{list_all};
ghost use Rattle.qo_memmap.specs.Regions.{area_of, is_in_range, kind_in_range, names_below, kind_below, area_rank, kind_rank, children_rank};

use crate::map::MAX_RANK;

/// The greatest size of a region, place of a child and offset of an alias: 2^62.
pub const ADDRESS_LIMIT: u64 = 0x4000_0000_0000_0000;

/// What a region shows where none of its children shows anything.
#[derive(Clone, Copy, Debug, PartialEq, Eq)]
pub enum Kind {
    /// Nothing.
    Container,
    /// Itself: a leaf of this number.
    Leaf(u64),
    /// Another region, from this offset on.
    Alias(u32, u64),
}

/// Where a child stands in its parent.
#[derive(Clone, Copy, Debug, PartialEq, Eq)]
pub struct Place {
    /// The child, by its number.
    pub region: u32,
    /// The address of its first byte in the parent.
    pub at: u64,
    /// Of children that overlap, the one of the greatest priority shows, and the last of these.
    pub priority: i32,
}

/// A region of addresses from 0, in bytes.
#[derive(Debug, Drop)]
pub struct Region {
    /// How many bytes it has.
    pub size: u64,
    /// What it shows where no child does.
    pub kind: Kind,
    /// The regions that stand in it.
    pub children: Vec<Place>,
}

impl Kind {
    /// Whether the offset of an alias is in range.
    fn is_in_range(self) -> bool
        ensures { result ≡ kind_in_range self }
    {
        match self {
            Kind::Alias(_, offset) => offset <= ADDRESS_LIMIT,
            Kind::Container | Kind::Leaf(_) => true,
        }
    }

    /// Whether the region of an alias is below a number.
    fn names_below(self, regions: usize) -> bool
        ensures { result ≡ kind_below regions self }
    {
        match self {
            Kind::Alias(region, _) => (region as usize) < regions,
            Kind::Container | Kind::Leaf(_) => true,
        }
    }

    /// One more than the rank of the region of an alias, else 0.
    fn rank(self, ranks: &[u32]) -> u32
        requires named { kind_below (length ranks.now) self ≡ true }
        requires shallow { (r : ℕ) → slice_index ranks.now r ≤ MAX_RANK }
        ensures { result ≡ kind_rank (λ r. slice_index ranks.now r) self }
    {
        match self {
            Kind::Alias(region, _) => ranks[region as usize] + 1,
            Kind::Container | Kind::Leaf(_) => 0,
        }
    }
}

/// Whether the places of children are in range.
fn are_in_range(places: &[Place]) -> bool
    ensures { result ≡ list_all (λ p. nat_le p.at ADDRESS_LIMIT) places.now }
{
    places.iter().all(|place| place.at <= ADDRESS_LIMIT)
}

/// Whether children are below a number.
fn are_below(places: &[Place], regions: usize) -> bool
    ensures { result ≡ list_all (λ p. nat_lt p.region regions) places.now }
{
    places.iter().all(|place| (place.region as usize) < regions)
}

/// One more than the greatest rank of children, and 0 of none.
fn rank_over(places: &[Place], ranks: &[u32]) -> u32
    requires named { list_all (λ p. nat_lt p.region (length ranks.now)) places.now ≡ true }
    requires shallow { (r : ℕ) → slice_index ranks.now r ≤ MAX_RANK }
    ensures { result ≡ children_rank (λ r. slice_index ranks.now r) places.now }
{
    let mut rank = 0;
    for place in places {
        rank = rank.max(ranks[place.region as usize] + 1);
    }
    rank
}

impl Region {
    /// Whether the size, the places of the children and the offset of an alias are in range.
    pub(crate) fn is_in_range(&self) -> bool
        ensures { result ≡ is_in_range (area_of self.now) }
    {
        self.size != 0
            && self.size <= ADDRESS_LIMIT
            && self.kind.is_in_range()
            && are_in_range(&self.children)
    }

    /// Whether each region that it names is below a number.
    pub(crate) fn names_below(&self, regions: usize) -> bool
        ensures { result ≡ names_below regions (area_of self.now) }
    {
        self.kind.names_below(regions) && are_below(&self.children, regions)
    }

    /// One more than the greatest rank of the regions that it names, and 0 where it names none.
    pub(crate) fn rank(&self, ranks: &[u32]) -> u32
        requires named { names_below (length ranks.now) (area_of self.now) ≡ true }
        requires shallow { (r : ℕ) → slice_index ranks.now r ≤ MAX_RANK }
        ensures { result ≡ area_rank (λ r. slice_index ranks.now r) (area_of self.now) }
    {
        self.kind.rank(ranks).max(rank_over(&self.children, ranks))
    }
}
