//! The object that a path leads to.

ghost use Rattle.std.specs.Prelude.{◌≡◌, ◌+◌, ◌≤◌, true, false, IfSome, IfNone, IfOk, None, length, slice_get};
ghost use Rattle.std.specs.Option.{option_and_then, option_copied};
ghost use Rattle.qo_model.specs.Board.{Board};
ghost use Rattle.qo_model.specs.Paths.{components, is_absolute, only_of, resolve, walk};
ghost use Rattle.qo_object.specs.BoardObject.{birth_of};
ghost use Rattle.qo_heap.specs.Rows.{IsLive, object_at};
ghost use Rattle.qo_heap.specs.Board.{Shows};
ghost use Rattle.qo_paths.specs.Answers.{end_along, shown_resolution};
ghost use Rattle.qo_paths.specs.Parts.{named_from};

use crate::errors::PathError;
use crate::parts::{first_part, is_absolute};
use crate::places::is_attached;
use crate::walks::{walk, walk_parts};
use qo_heap::{Heap, Oid, Steps};
use qo_types::TypeTable;
use std::sync::ledger::Ledger;

/// An object, if it is of the wanted type.
fn only_of<L: Ledger>(heap: &Heap, o: Oid, wanted: &str, steps: &mut Steps<L>) -> Option<Oid>
    requires live { IsLive heap.now.rows o }
    ensures only { (b : Board) → Shows b heap.now → birth_of result ≡ only_of b wanted.now o.birth }
    ensures live { IfSome result (IsLive heap.now.rows) }
    ensures cost { steps.new ≡ steps.old + 1 }
{
    if TypeTable::board().is_a(heap.kind(o, steps), wanted) {
        return Some(o);
    }
    None
}

/// The object that a path leads to from another, if it is of the wanted type.
fn end_of<L: Ledger>(
    heap: &Heap,
    from: Oid,
    path: &str,
    wanted: &str,
    steps: &mut Steps<L>,
) -> Option<Oid>
    requires live { IsLive heap.now.rows from }
    ensures end { (b : Board) → Shows b heap.now → birth_of result ≡ option_and_then (only_of b wanted.now) (walk b from.birth (components path.now)) }
    ensures live { IfSome result (IsLive heap.now.rows) }
    ensures cost { steps.new ≤ steps.old + length (components path.now) + 1 }
{
    let end = walk(heap, from, path, steps)?;
    only_of(heap, end, wanted, steps)
}

/// The object at `/`, which is of birth 1.
fn root(heap: &Heap) -> Option<Oid>
    ensures born { IfSome result (λ o. o.birth ≡ 1) }
    ensures live { IfSome result (IsLive heap.now.rows) }
    ensures none { IfNone result (object_at heap.now.rows 1 ≡ None) }
{
    heap.reveal_invariant();
    let first = heap.oid_at(0)?;
    if first.birth == 1 {
        return Some(first);
    }
    None
}

/// The object that an absolute path leads to.
fn absolute<L: Ledger>(
    heap: &Heap,
    path: &str,
    wanted: &str,
    steps: &mut Steps<L>,
) -> Result<Oid, PathError>
    requires { is_absolute path.now ≡ true }
    ensures place { (b : Board) → Shows b heap.now → shown_resolution result ≡ resolve b path.now wanted.now }
    ensures live { IfOk result (IsLive heap.now.rows) }
    ensures cost { steps.new ≤ steps.old + length (components path.now) + 1 }
{
    let Some(root) = root(heap) else {
        return Err(PathError::NotFound);
    };
    end_of(heap, root, path, wanted, steps).ok_or(PathError::NotFound)
}

/// The object that a partial path, given by its first part and what follows it, leads to from the
/// object at a place in the order of births, if that is attached.
fn end_at<L: Ledger>(
    heap: &Heap,
    place: usize,
    first: &str,
    rest: Option<&str>,
    wanted: &str,
    steps: &mut Steps<L>,
) -> Option<Oid>
    ensures end { (b : Board) → Shows b heap.now → birth_of result ≡ option_and_then (λ row. end_along b (named_from first.now (option_copied rest.entry)) wanted.now row.0.birth) (slice_get heap.now.rows place) }
    ensures live { IfSome result (IsLive heap.now.rows) }
{
    heap.reveal_invariant();
    let from = heap.oid_at(place)?;
    let end = walk_parts(heap, from, first, rest, steps)?;
    let end = only_of(heap, end, wanted, steps)?;
    if !is_attached(heap, from, steps) {
        return None;
    }
    Some(end)
}

/// The object that a partial path leads to. Its first part is cut off once, so that the most objects,
/// which have no slot of that name, are passed over by one look.
fn partial<L: Ledger>(
    heap: &Heap,
    path: &str,
    wanted: &str,
    steps: &mut Steps<L>,
) -> Result<Oid, PathError>
    requires { is_absolute path.now ≡ false }
    ensures place { (b : Board) → Shows b heap.now → shown_resolution result ≡ resolve b path.now wanted.now }
    ensures live { IfOk result (IsLive heap.now.rows) }
{
    let (first, rest) = first_part(path);
    let mut found = None;
    for place in 0..heap.live() {
        let Some(end) = end_at(heap, place, first, rest, wanted, steps) else {
            continue;
        };
        if found.is_some() {
            return Err(PathError::Ambiguous);
        }
        found = Some(end);
    }
    found.ok_or(PathError::NotFound)
}

/// The object that a path leads to, if it is of the wanted type (docs/devel/qom.rst, "The QEMU
/// Object Model": canonical and partial paths). An absolute path begins with `/`, and its components
/// lead from there through children and links, empty ones between two `/` counting for nothing. Any
/// other path is partial: it is tried from each attached object, and is `Ambiguous` where it leads to
/// an object of the wanted type from more than one, even if to the same. It takes no memory. An
/// absolute path takes a step for each component at most, and one for the type.
pub fn resolve<L: Ledger>(
    heap: &Heap,
    path: &str,
    wanted: &str,
    steps: &mut Steps<L>,
) -> Result<Oid, PathError>
    ensures place { (b : Board) → Shows b heap.now → shown_resolution result ≡ resolve b path.now wanted.now }
    ensures live { IfOk result (IsLive heap.now.rows) }
    ensures work { is_absolute path.now ≡ true → steps.new ≤ steps.old + length (components path.now) + 1 }
{
    if is_absolute(path) {
        return absolute(heap, path, wanted, steps);
    }
    partial(heap, path, wanted, steps)
}
