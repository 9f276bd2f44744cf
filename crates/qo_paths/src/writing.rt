//! The canonical path.

ghost use Rattle.std.specs.Prelude.{◌≡◌, IfOk, map, option_map, string_bytes};
ghost use Rattle.qo_model.specs.Board.{Board};
ghost use Rattle.qo_model.specs.Paths.{canonical, path_down_to};
ghost use Rattle.qo_heap.specs.Board.{Shows};
ghost use Rattle.qo_paths.specs.Parts.{path_up};

use crate::places::place_of;
use qo_heap::{Heap, Oid, Steps};
use std::alloc::{AllocError, Global};
use std::sync::ledger::Ledger;

/// Most paths have fewer bytes, so that their room is made at once.
const PATH_BYTES: usize = 48;

/// The names on the way up from an object to `/`, its own first; `None` exactly where parents do not
/// lead there.
fn names_up<'a, L: Ledger>(
    heap: &'a Heap,
    o: Oid,
    alloc: Global,
    steps: &mut Steps<L>,
) -> Result<Option<Vec<&'a str>>, AllocError>
    ensures { (b : Board) → Shows b heap.now → IfOk result (λ names. option_map (λ ns. path_up (map (λ n. n.now) ns.items)) names ≡ path_down_to b o.birth) }
{
    heap.reveal_invariant();
    let mut names = Vec::new(alloc);
    let mut at = o;
    // A way that is longer than there are objects goes round, and ends nowhere.
    for _turn in 0..heap.live() + 1 {
        if at.birth == 1 {
            return Ok(Some(names));
        }
        let Some(place) = place_of(heap, at, steps) else {
            return Ok(None);
        };
        names.push(place.name)?;
        at = place.parent;
    }
    Ok(None)
}

/// The path of names on a way up: a `/` and a name for each, from the last to the first.
fn path_down(names: &[&str], alloc: Global) -> Result<String, AllocError>
    ensures { IfOk result (λ path. string_bytes path ≡ path_up (map (λ n. n.now) names.now)) }
{
    let mut path = String::with_capacity(alloc, PATH_BYTES)?;
    let mut left = names.len();
    while left > 0 {
        left -= 1;
        path.push('/')?;
        path.push_str(names[left])?;
    }
    Ok(path)
}

/// The canonical path of an object (docs/devel/qom.rst, "The QEMU Object Model"): `/` itself, or a
/// `/` and the name of the child slot for each step down to the object; `None` exactly where it is
/// detached. The error is want of memory.
#[inline(always)]
pub fn canonical<L: Ledger>(
    heap: &Heap,
    o: Oid,
    alloc: Global,
    steps: &mut Steps<L>,
) -> Result<Option<String>, AllocError>
    ensures { (b : Board) → Shows b heap.now → IfOk result (λ path. option_map string_bytes path ≡ canonical b o.birth) }
{
    if o.birth == 1 {
        return Ok(Some(String::from_str(alloc, "/")?));
    }
    let Some(names) = names_up(heap, o, alloc, steps)? else {
        return Ok(None);
    };
    Ok(Some(path_down(names.as_slice(), alloc)?))
}
