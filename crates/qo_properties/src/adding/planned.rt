//! What is planned for the property of a name.

ghost use Rattle.std.specs.Prelude.{IfSome, List, option_map};
ghost use Rattle.std.specs.List.{AllByRecursion};
ghost use Rattle.qo_model.specs.Board.{Board};
ghost use Rattle.qo_model.specs.Objects.{Given};
ghost use Rattle.qo_heap.specs.Rows.{IsLive};
ghost use Rattle.qo_heap.specs.Objects.{Objects};
ghost use Rattle.qo_properties.specs.Filling.{target_in};
ghost use Rattle.qo_properties.specs.Plans.{IsPlan, TellsGiven, own_slot_for};

use crate::adding::filling::{InitialValue, is_stored};
use crate::adding::planning::placed_row;
use qo_values::TypeId;

/// What is planned for the property of a name, of a new object of a type; `None` where such an object
/// has no slot for it.
pub fn planned_for<'a>(
    plan: &'a [InitialValue],
    kind: TypeId,
    name: &str,
) -> Option<&'a InitialValue>
    ensures given { (b : Board) (props : List Given) → IsPlan b kind props plan.now → TellsGiven b props (option_map (λ f. f.now) result) (own_slot_for kind name.now) }
    ensures live { (v : Objects) → AllByRecursion (λ f. IfSome (target_in f) (IsLive v.rows)) plan.now → IfSome result (λ f. IfSome (target_in f.now) (IsLive v.rows)) }
{
    let placed = placed_row(kind, name)?;
    if !is_stored(placed.row.role) {
        return None;
    }
    plan.get(placed.place)
}
