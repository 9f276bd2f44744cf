//! What shows at the addresses of the board: `x-memmap`.

ghost use Rattle.std.specs.Prelude.{◌≡◌, ◌++◌, [], ◌∷◌, map, IfOk, OnOk};
ghost use Rattle.std.specs.String.{string_bytes};
ghost use Rattle.serde_json.specs.Data.{array};
ghost use Rattle.serde_json.specs.View.{items_of, view};
ghost use Rattle.qo_layout.specs.Layout.{flat_view};
ghost use Rattle.qo_model.specs.Board.{Board as Tree};
ghost use Rattle.qo_realize.specs.Representation.{Stands};
ghost use Rattle.qo_commands.specs.Commands.{returned, shown_data, shown_name, span_data};
ghost use Rattle.qo_commands.specs.Views.{done_of};

use crate::commands::{Done, returned_value};
use qo_heap::Steps;
use qo_layout::flat_view;
use qo_memmap::Span;
use qo_paths::canonical;
use qo_realize::Board;
use serde_json::{Value, json};
use std::alloc::{AllocError, Global};
use std::sync::ledger::Ledger;

/// The name of what shows: the path of the device of a birth, and `boot` where there is none.
fn shown_name<L: Ledger>(
    alloc: Global,
    board: &Board,
    leaf: u64,
    steps: &mut Steps<L>,
) -> Result<String, AllocError>
    ensures { (b : Tree) → Stands b board.now → IfOk result (λ name. string_bytes name ≡ shown_name b leaf) }
{
    let Some(device) = board.heap().by_birth(leaf) else {
        return String::from_str(alloc, "boot");
    };
    match canonical(board.heap(), device, alloc, steps)? {
        Some(path) => Ok(path),
        None => Ok(String::new(alloc)),
    }
}

/// What shows from an address on.
fn span_value(alloc: Global, name: &str, span: Span) -> Result<Value, AllocError>
    ensures { IfOk result (λ v. view v ≡ span_data name.now span) }
{
    json!(in alloc; {"at": span.at, "name": name, "offset": span.offset, "size": span.size})
}

/// Adds what shows from an address on to a list.
fn push_span<L: Ledger>(
    alloc: Global,
    board: &Board,
    values: &mut Vec<Value>,
    span: Span,
    steps: &mut Steps<L>,
) -> Result<(), AllocError>
    ensures { (b : Tree) → Stands b board.now → OnOk result (map view values.new.items ≡ map view values.old.items ++ map (shown_data b) (span ∷ [])) }
{
    let name = shown_name(alloc, board, span.leaf, steps)?;
    values.push(span_value(alloc, name.as_str(), span)?)?;
    Ok(())
}

/// Spans as a list.
fn span_list<L: Ledger>(
    alloc: Global,
    board: &Board,
    spans: &[Span],
    steps: &mut Steps<L>,
) -> Result<Value, AllocError>
    ensures { (b : Tree) → Stands b board.now → IfOk result (λ v. view v ≡ array (items_of (map (shown_data b) spans.now))) }
{
    let mut values = Vec::new(alloc);
    for span in spans {
        push_span(alloc, board, &mut values, *span, steps)?;
    }
    Ok(Value::Array(values))
}

/// The flat view of the board. The board is sound, so that the one error is want of memory.
fn board_view<L: Ledger>(
    alloc: Global,
    board: &Board,
    steps: &mut Steps<L>,
) -> Result<Vec<Span>, AllocError>
    ensures { (b : Tree) → Stands b board.now → IfOk result (λ spans. spans.items ≡ flat_view b) }
{
    board.reveal_board();
    match flat_view(alloc, board.heap(), steps) {
        Ok(spans) => Ok(spans),
        Err(_) => Err(AllocError),
    }
}

/// What shows at all addresses of the board.
pub(crate) fn query_memmap<L: Ledger>(
    alloc: Global,
    board: &Board,
    steps: &mut Steps<L>,
) -> Result<Done, AllocError>
    ensures { (b : Tree) → Stands b board.now → IfOk result (λ d. done_of b d ≡ returned b (array (items_of (map (shown_data b) (flat_view b))))) }
{
    board.reveal_board();
    let spans = board_view(alloc, board, steps)?;
    let value = span_list(alloc, board, &spans, steps)?;
    Ok(returned_value(value))
}
