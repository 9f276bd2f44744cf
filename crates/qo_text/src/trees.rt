//! What `info qom-tree` tells (docs/PROFILE.md, monitor lines).

ghost use Rattle.std.specs.Prelude.{◌≡◌, ◌+◌, ◌-◌, ◌*◌, ◌≤◌, ◌^◌, ◌++◌, [], string_bytes, flat_map, slice_get, option_map, IfOk, IfSome, OnOk};
ghost use Rattle.std.specs.Option.{option_and_then, option_map_or};
ghost use Rattle.qo_heap.specs.Board.{Shows};
ghost use Rattle.qo_heap.specs.Rows.{IsLive};
ghost use Rattle.qo_model.specs.Board.{Board, kind_of, slots_at};
ghost use Rattle.qo_model.specs.Depth.{by_depth};
ghost use Rattle.qo_text.specs.Trees.{below_turn, child_entry, child_rows, kind_text, row_of, row_text, tree_text};

use crate::rows::put_names;
use qo_heap::{Heap, Oid, Slot, Steps};
use qo_values::ROOT_BIRTH;
use std::alloc::{AllocError, Global};
use std::sync::ledger::Ledger;

/// The name of an object's type.
pub(crate) fn kind_name<L: Ledger>(heap: &Heap, o: Oid, steps: &mut Steps<L>) -> &'static str
    requires { IsLive heap.now.rows o }
    ensures { (b : Board) → Shows b heap.now → result.now ≡ kind_text (kind_of b o.birth) }
{
    heap.kind(o, steps).name()
}

/// Puts the line of an object to a text.
fn put_row<L: Ledger>(
    heap: &Heap,
    name: &str,
    o: Oid,
    depth: usize,
    text: &mut String,
    steps: &mut Steps<L>,
) -> Result<(), AllocError>
    requires live { IsLive heap.now.rows o }
    requires few { depth ≤ 2 ^ 32 }
    ensures { OnOk result ((b : Board) → Shows b heap.now → string_bytes text.new ≡ string_bytes text.old ++ row_text (row_of b depth (name.now, o.birth))) }
{
    let kind = kind_name(heap, o, steps);
    put_names(text, 2 * depth, "/", name, " (", kind, ")\n")?;
    Ok(())
}

/// The child in a slot of an object, under its name; `None` where no child stands there, and past the
/// last slot.
fn child_at<'h, L: Ledger>(
    heap: &'h Heap,
    o: Oid,
    at: usize,
    steps: &mut Steps<L>,
) -> Option<(&'h str, Oid)>
    requires { IsLive heap.now.rows o }
    ensures child { (b : Board) → Shows b heap.now → option_map (λ e. (e.0.now, e.1.birth)) result ≡ option_and_then child_entry (slice_get (slots_at b o.birth) at) }
    ensures live { IfSome result (λ e. IsLive heap.now.rows e.1) }
{
    heap.reveal_invariant();
    let slot = heap.slot_at(o, at, steps)?;
    match slot.what {
        Slot::Child(child) => Some((slot.name, *child)),
        _ => None,
    }
}

/// Puts the lines of the child in a slot of an object, and of what is below it, to a text; nothing where
/// no child stands there.
#[cycle(below)]
fn put_child<L: Ledger>(
    heap: &Heap,
    o: Oid,
    at: usize,
    depth: usize,
    levels: usize,
    text: &mut String,
    steps: &mut Steps<L>,
) -> Result<(), AllocError>
    requires live { IsLive heap.now.rows o }
    requires few { depth + levels ≤ 2 ^ 32 - 1 }
    ensures { OnOk result ((b : Board) → Shows b heap.now → string_bytes text.new ≡ string_bytes text.old ++ option_map_or (λ e. flat_map row_text (child_rows b (by_depth (below_turn b) (λ _ _. []) levels) depth e)) (option_and_then child_entry (slice_get (slots_at b o.birth) at)) []) }
{
    let Some((name, child)) = child_at(heap, o, at, steps) else {
        return Ok(());
    };
    put_row(heap, name, child, depth + 1, text, steps)?;
    put_below(heap, child, depth + 1, levels, text, steps)?;
    Ok(())
}

/// Puts the lines of what is below an object to a text, so many levels deep.
#[cycle(below)]
fn put_below<L: Ledger>(
    heap: &Heap,
    o: Oid,
    depth: usize,
    levels: usize,
    text: &mut String,
    steps: &mut Steps<L>,
) -> Result<(), AllocError>
    requires live { IsLive heap.now.rows o }
    requires few { depth + levels ≤ 2 ^ 32 }
    ensures { OnOk result ((b : Board) → Shows b heap.now → string_bytes text.new ≡ string_bytes text.old ++ flat_map row_text (by_depth (below_turn b) (λ _ _. []) levels o.birth depth)) }
{
    if levels == 0 {
        return Ok(());
    }
    let count = heap.slot_count(o, steps);
    for at in 0..count {
        put_child(heap, o, at, depth, levels - 1, text, steps)?;
    }
    Ok(())
}

/// The text of `info qom-tree`: a line for each object, before the lines of what is below it. The error
/// is want of memory.
pub fn qom_tree<L: Ledger>(
    heap: &Heap,
    alloc: Global,
    steps: &mut Steps<L>,
) -> Result<String, AllocError>
    ensures { (b : Board) → Shows b heap.now → IfOk result (λ text. string_bytes text ≡ tree_text b) }
{
    heap.reveal_invariant();
    let mut text = String::new(alloc);
    let Some(root) = heap.by_birth(ROOT_BIRTH) else {
        text.push_str("/ ()\n")?;
        return Ok(text);
    };
    put_row(heap, "", root, 0, &mut text, steps)?;
    put_below(heap, root, 0, heap.live() + 1, &mut text, steps)?;
    Ok(text)
}
