//! Users' objects, as they were added.

ghost use Rattle.std.specs.Prelude.{◌≡◌, ◌++◌, [], ◌∷◌, map, option_map, Some, IfOk, OnOk};
ghost use Rattle.serde_json.specs.Data.{string};
ghost use Rattle.serde_json.specs.View.{view};
ghost use Rattle.qo_heap.specs.Board.{Shows};
ghost use Rattle.qo_heap.specs.Rows.{IsLive};
ghost use Rattle.qo_model.specs.Board.{Board};
ghost use Rattle.qo_save.specs.Described.{object_item};
ghost use Rattle.qo_save.specs.Description.{named, object_data, object_names};
ghost use Rattle.qo_describe.specs.Told.{entry_told};
ghost use Rattle.qo_describe.specs.declared.parts.Part.TheVariants.{Objects};

use crate::given::{Owner, props_value};
use qo_heap::{Heap, Oid, Steps};
use serde_json::{Value, json};
use std::alloc::{AllocError, Global};
use std::sync::ledger::Ledger;

/// A user's object as a JSON object.
fn object_json(alloc: Global, id: &str, props: Value, kind: &str) -> Result<Value, AllocError>
    ensures { IfOk result (λ v. view v ≡ named object_names (string id.now ∷ view props ∷ string kind.now ∷ [])) }
{
    json!(in alloc; {"id": id, "props": props, "type": kind})
}

/// A user's object of an id.
fn object_value<L: Ledger>(
    heap: &Heap,
    id: &str,
    o: Oid,
    alloc: Global,
    steps: &mut Steps<L>,
) -> Result<Value, AllocError>
    requires { IsLive heap.now.rows o }
    ensures { (b : Board) → Shows b heap.now → IfOk result (λ v. option_map object_data (object_item b (id.now, o.birth)) ≡ Some (view v)) }
{
    let props = props_value(heap, o, Owner::Object, alloc, steps)?;
    let kind = heap.kind(o, steps).name();
    object_json(alloc, id, props, kind)
}

/// Adds a user's object of an id to a list.
pub(crate) fn push_object<L: Ledger>(
    heap: &Heap,
    id: &str,
    o: Oid,
    values: &mut Vec<Value>,
    alloc: Global,
    steps: &mut Steps<L>,
) -> Result<(), AllocError>
    requires { IsLive heap.now.rows o }
    ensures { OnOk result ((b : Board) → Shows b heap.now → map view values.new.items ≡ map view values.old.items ++ entry_told Objects b (id.now, o.birth)) }
{
    values.push(object_value(heap, id, o, alloc, steps)?)?;
    Ok(())
}
