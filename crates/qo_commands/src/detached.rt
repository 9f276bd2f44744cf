//! The objects without a parent: `x-query-detached`.

ghost use Rattle.std.specs.Prelude.{◌≡◌, ◌++◌, [], ◌∷◌, map, IfOk, OnOk};
ghost use Rattle.serde_json.specs.Data.{array};
ghost use Rattle.serde_json.specs.View.{items_of, view};
ghost use Rattle.qo_model.specs.Board.{Board as Tree};
ghost use Rattle.qo_model.specs.Detachment.{detached_listed};
ghost use Rattle.qo_realize.specs.Representation.{Stands};
ghost use Rattle.qo_commands.specs.Commands.{detached_data, returned};
ghost use Rattle.qo_commands.specs.Views.{done_of};

use crate::commands::{Done, returned_value};
use qo_heap::Steps;
use qo_model::Detached;
use qo_realize::Board;
use serde_json::{Value, json};
use std::alloc::{AllocError, Global};
use std::sync::ledger::Ledger;

/// An object without a parent, by its birth, its references and its type.
fn detached_value(alloc: Global, o: Detached) -> Result<Value, AllocError>
    ensures { IfOk result (λ v. view v ≡ detached_data o) }
{
    json!(in alloc; {"birth": o.birth, "refs": o.refs, "type": o.kind.name()})
}

/// Adds an object without a parent to a list.
fn push_detached(alloc: Global, values: &mut Vec<Value>, o: Detached) -> Result<(), AllocError>
    ensures { OnOk result (map view values.new.items ≡ map view values.old.items ++ map detached_data (o ∷ [])) }
{
    let value = detached_value(alloc, o)?;
    values.push(value)?;
    Ok(())
}

/// Objects without a parent as a list.
fn detached_list(alloc: Global, objects: &[Detached]) -> Result<Value, AllocError>
    ensures { IfOk result (λ v. view v ≡ array (items_of (map detached_data objects.now))) }
{
    let mut values = Vec::new(alloc);
    for o in objects {
        push_detached(alloc, &mut values, *o)?;
    }
    Ok(Value::Array(values))
}

/// The objects without a parent.
pub(crate) fn query_detached<L: Ledger>(
    alloc: Global,
    board: &Board,
    steps: &mut Steps<L>,
) -> Result<Done, AllocError>
    ensures { (b : Tree) → Stands b board.now → IfOk result (λ d. done_of b d ≡ returned b (array (items_of (map detached_data (detached_listed b))))) }
{
    let objects = board.detached(alloc, steps)?;
    let value = detached_list(alloc, &objects)?;
    Ok(returned_value(value))
}
