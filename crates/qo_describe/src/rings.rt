//! Rings, as they were added.

ghost use Rattle.std.specs.Prelude.{◌≡◌, ◌++◌, [], ◌∷◌, map, IfOk, OnOk};
ghost use Rattle.serde_json.specs.Data.{array};
ghost use Rattle.serde_json.specs.View.{items_of, view};
ghost use Rattle.qo_describe.specs.Beside.{pair_data};

use qo_values::Text;
use serde_json::{Value, json};
use std::alloc::{AllocError, Global};

/// A ring of an id and a size.
fn ring_value(alloc: Global, id: &str, size: u64) -> Result<Value, AllocError>
    ensures { IfOk result (λ v. view v ≡ pair_data (id.now, size)) }
{
    json!(in alloc; {"id": id, "size": size})
}

/// Adds a ring to a list.
fn push_ring(alloc: Global, values: &mut Vec<Value>, ring: &(Text, u64)) -> Result<(), AllocError>
    ensures { OnOk result (map view values.new.items ≡ map view values.old.items ++ pair_data ring.now ∷ []) }
{
    values.push(ring_value(alloc, ring.0.as_str(), ring.1)?)?;
    Ok(())
}

/// Rings as a list.
pub(crate) fn ring_list(alloc: Global, rings: &[(Text, u64)]) -> Result<Value, AllocError>
    ensures { IfOk result (λ v. view v ≡ array (items_of (map pair_data rings.now))) }
{
    let mut values = Vec::new(alloc);
    for ring in rings {
        push_ring(alloc, &mut values, ring)?;
    }
    Ok(Value::Array(values))
}
