//! Maps of regions.

ghost use Rattle.std.specs.Prelude.{◌≡◌, ◌<◌, [], IfOk, OnOk, length, vec_len, vec_capacity};
ghost use Rattle.qo_memmap.specs.Answers.{Added};
ghost use Rattle.qo_memmap.specs.Regions.{area_of, shows_at};
ghost use Rattle.qo_memmap.specs.Spans.{IsFlat, OffsetsFit};

use crate::errors::MapError;
use crate::flat::region_in;
use crate::region::Region;
use crate::span::Span;
use crate::window::Window;
use std::alloc::{AllocError, Global};
use std::marker::Model;

/// How deep regions may stand in one another.
pub const MAX_RANK: u32 = 32;

/// How many regions a map may have.
pub const MAX_REGIONS: usize = 1_048_576;

/// Regions, numbered from 0, of which each names lower ones.
#[derive(Drop)]
pub struct Map {
    regions: Vec<Region>,
    ranks: Vec<u32>,
}

impl Model for Map {
    ghost use Rattle.std.specs.Prelude.{List};
    ghost use Rattle.qo_memmap.specs.Regions.{Area};

    ghost Value = { List Area };

    ghost use Rattle.qo_memmap.specs.Windows.{areas_of, IsMap};

    ghost view = { λ m. areas_of m.regions.items };

    ghost invariant = { λ m. IsMap m.regions.items m.ranks.items };
}

/// Makes room for one more region.
fn make_room(regions: &mut Vec<Region>, ranks: &mut Vec<u32>) -> Result<(), AllocError>
    ensures kept { (regions.new.items ≡ regions.old.items) × (ranks.new.items ≡ ranks.old.items) }
    ensures room { OnOk result ((vec_len regions.new < vec_capacity regions.new) × (vec_len ranks.new < vec_capacity ranks.new)) }
{
    regions.reserve(1)?;
    ranks.reserve(1)
}

impl Map {
    /// A map without regions. It takes no memory.
    pub fn new(alloc: Global) -> Map
        ensures { result ≡ [] }
    {
        Map {
            regions: Vec::new(alloc),
            ranks: Vec::new(alloc),
        }
    }

    /// Adds a region, and answers its number: that of the regions before it. An error adds nothing.
    pub fn add(&mut self, region: Region) -> Result<u32, MapError>
        ensures { Added self.old self.new (area_of region) result }
    {
        if !region.is_in_range() {
            return Err(MapError::BadRange);
        }
        let number = self.regions.len();
        if !region.names_below(number) {
            return Err(MapError::BadRef);
        }
        let rank = region.rank(&self.ranks);
        if rank > MAX_RANK {
            return Err(MapError::TooDeep);
        }
        if number >= MAX_REGIONS {
            return Err(MapError::Full);
        }
        make_room(&mut self.regions, &mut self.ranks)?;
        self.regions.push_reserved(region);
        self.ranks.push_reserved(rank);
        Ok(number as u32)
    }

    /// The flat view of a region that is there: spans that rise and lie apart, as few as there can be,
    /// and tell for each address the leaf that stands there, and the offset in it. No offset passes the limit
    /// on addresses, also at the end of a span.
    pub fn flat(&self, alloc: Global, root: u32) -> Result<Vec<Span>, AllocError>
        requires { root < length self.now }
        ensures view { IfOk result (λ spans. IsFlat (shows_at self.now root) spans.items) }
        ensures fit { IfOk result (λ spans. OffsetsFit spans.items) }
    {
        let _ranks = &self.ranks;
        let root = root as usize;
        let region = &self.regions[root];
        let window = Window {
            at: 0,
            from: 0,
            size: region.size,
        };
        region_in(alloc, &self.regions[..root], region, window)
    }
}
