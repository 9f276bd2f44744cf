//! The way down: where the components of a path lead.

ghost use Rattle.std.specs.Prelude.{◌≡◌, ◌+◌, ◌≤◌, IfSome, length};
ghost use Rattle.std.specs.Option.{option_copied};
ghost use Rattle.qo_model.specs.Board.{Board};
ghost use Rattle.qo_model.specs.Paths.{components, next_of, walk};
ghost use Rattle.qo_object.specs.BoardObject.{birth_of};
ghost use Rattle.qo_heap.specs.Rows.{IsLive};
ghost use Rattle.qo_heap.specs.Board.{Shows};
ghost use Rattle.qo_paths.specs.Parts.{named_from};

use crate::parts::first_part;
use qo_heap::{Heap, Oid, Steps};
use std::sync::ledger::Ledger;

/// Where a component leads from an object: to the child or the target of the link of that name; an
/// alias leads nowhere.
fn next_of<L: Ledger>(heap: &Heap, o: Oid, name: &str, steps: &mut Steps<L>) -> Option<Oid>
    requires live { IsLive heap.now.rows o }
    ensures next { (b : Board) → Shows b heap.now → birth_of result ≡ next_of b o.birth name.now }
    ensures live { IfSome result (IsLive heap.now.rows) }
    ensures cost { steps.new ≡ steps.old + 1 }
{
    heap.reveal_invariant();
    heap.named(o, name, steps)
}

/// Where the components of a path lead from an object, one after another. It takes a step for each
/// component at most.
pub fn walk<L: Ledger>(heap: &Heap, from: Oid, path: &str, steps: &mut Steps<L>) -> Option<Oid>
    requires live { IsLive heap.now.rows from }
    ensures end { (b : Board) → Shows b heap.now → birth_of result ≡ walk b from.birth (components path.now) }
    ensures live { IfSome result (IsLive heap.now.rows) }
    ensures cost { steps.new ≤ steps.old + length (components path.now) }
{
    let mut at = from;
    let mut left = Some(path);
    while let Some(text) = left {
        let (part, rest) = first_part(text);
        left = rest;
        if part.is_empty() {
            continue;
        }
        match next_of(heap, at, part, steps) {
            Some(next) => at = next,
            None => return None,
        }
    }
    Some(at)
}

/// Where the components of a path lead from an object, given the path's first part, which may be
/// empty, and what follows it.
pub fn walk_parts<L: Ledger>(
    heap: &Heap,
    from: Oid,
    first: &str,
    rest: Option<&str>,
    steps: &mut Steps<L>,
) -> Option<Oid>
    requires live { IsLive heap.now.rows from }
    ensures end { (b : Board) → Shows b heap.now → birth_of result ≡ walk b from.birth (named_from first.now (option_copied rest.entry)) }
    ensures live { IfSome result (IsLive heap.now.rows) }
{
    let mut at = from;
    if !first.is_empty() {
        at = next_of(heap, from, first, steps)?;
    }
    match rest {
        Some(rest) => walk(heap, at, rest, steps),
        None => Some(at),
    }
}
