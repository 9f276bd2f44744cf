//! Planning the slots of a new object: what is given for its properties is looked at once, in the
//! order given, before the object is made, so that filling it takes no memory and refuses nothing.

ghost use Rattle.std.specs.Prelude.{◌≡◌, Bool, true, Some, None, [], ◌∷◌, ◌++◌, find, map, is_some, option_map, IfOk, IfSome, OnOk, List};
ghost use Rattle.std.specs.List.{AllByRecursion, AllZip};
ghost use Rattle.std.specs.Str.{bytes_eq};
ghost use Rattle.qo_values.specs.declared.kinds.TypeId.{TypeId};
ghost use Rattle.qo_model.specs.Board.{Board};
ghost use Rattle.qo_model.specs.Objects.{Given, misfit, refusal_by, refusal_of};
ghost use Rattle.qo_model.specs.Properties.{property_named};
ghost use Rattle.qo_object.specs.declared.slots.Slot.TheVariants.{Link};
ghost use Rattle.qo_heap.specs.Rows.{IsLive};
ghost use Rattle.qo_heap.specs.Board.{Shows};
ghost use Rattle.qo_properties.specs.declared.adding.filling.InitialValue.TheVariants.{Default, Value};
ghost use Rattle.qo_properties.specs.NewSlots.{begun, new_slots};
ghost use Rattle.qo_properties.specs.Filling.{Fits, HasValue, IsGiven, fits, target_in};
ghost use Rattle.qo_properties.specs.GivenProperties.{link_misfit, plain_misfit};
ghost use Rattle.qo_properties.specs.Planning.{StandsAt, TellsRefusal};

use crate::adding::filling::{InitialValue, is_stored};
use crate::reading::values::copy_of;
use crate::refusals::Refusal;
use crate::writing::writes::link_target;
use qo_heap::{Heap, Steps};
use qo_model::{Access, Property, PropertyRole};
use qo_types::TypeTable;
use qo_values::{Code, Misfit, PropList, PropType, TypeId, Val};
use std::alloc::{AllocError, Global};
use std::sync::ledger::Ledger;

/// The row of a property of a type, with the place of its slot among those of a new object; the
/// place says nothing where a new object has no slot for it.
#[derive(Clone, Copy, Debug)]
pub struct PlacedRow {
    /// The row.
    pub row: Property,
    /// The place of its slot.
    pub place: usize,
}

/// The row of the property of a name of a type, with its place; `None` where no property has it.
pub fn placed_row(kind: TypeId, name: &str) -> Option<PlacedRow>
    ensures row { option_map (λ p. p.row) result ≡ property_named kind name.now }
    ensures place { IfSome result (StandsAt kind) }
{
    let mut place = 0;
    for row in TypeTable::board().props(kind) {
        if row.name.as_str() == name {
            return Some(PlacedRow { row: *row, place });
        }
        if is_stored(row.role) {
            place += 1;
        }
    }
    None
}

/// What a value fills the slot of a plain property of a type with. `E19` comes where it does not fit.
fn plain_fill(ty: PropType, val: &Val, alloc: Global) -> Result<InitialValue, Refusal>
    ensures refused { TellsRefusal result (plain_misfit ty val.now) }
    ensures value { IfOk result (λ f. f ≡ Value val.now) }
{
    if let Err(Misfit) = ty.admit(val) {
        return Err(Refusal::Refused(Code::E19));
    }
    Ok(InitialValue::Value(copy_of(val, alloc)?))
}

/// What a value fills a link to objects of a type with. `E19` comes where it is no text, and where
/// it names no target of the type, the code of `link_target`.
fn link_fill<L: Ledger>(
    heap: &Heap,
    ty: TypeId,
    val: &Val,
    steps: &mut Steps<L>,
) -> Result<InitialValue, Refusal>
    ensures refused { (b : Board) → Shows b heap.now → TellsRefusal result (link_misfit b ty val.now) }
    ensures told { (b : Board) → Shows b heap.now → (strong : Bool) → IfOk result (λ f. HasValue b val.now f (Link ty strong None)) }
    ensures fits { (strong : Bool) → IfOk result (λ f. fits f (Link ty strong None) ≡ true) }
    ensures live { IfOk result (λ f. IfSome (target_in f) (IsLive heap.now.rows)) }
{
    let Val::Text(path) = val else {
        return Err(Refusal::Refused(Code::E19));
    };
    match link_target(heap, ty, path.as_str(), steps) {
        Ok(Some(target)) => Ok(InitialValue::Target(target)),
        Ok(None) => Ok(InitialValue::Default),
        Err(code) => Err(Refusal::Refused(code)),
    }
}

/// What a value fills the slot of a property with this row with.
fn role_fill<L: Ledger>(
    heap: &Heap,
    role: PropertyRole,
    val: &Val,
    alloc: Global,
    steps: &mut Steps<L>,
) -> Result<InitialValue, Refusal>
    ensures refused { (b : Board) → Shows b heap.now → TellsRefusal result (misfit b role val.now) }
    ensures own { OnOk result ((t : TypeId) → is_some (begun t role) ≡ true) }
    ensures told { (b : Board) → Shows b heap.now → (t : TypeId) → IfOk result (λ f. IfSome (begun t role) (HasValue b val.now f)) }
    ensures fits { (t : TypeId) → IfOk result (λ f. IfSome (begun t role) (λ s. fits f s ≡ true)) }
    ensures live { IfOk result (λ f. IfSome (target_in f) (IsLive heap.now.rows)) }
{
    match role {
        PropertyRole::Plain(ty, _) => plain_fill(ty, val, alloc),
        PropertyRole::Link { ty, .. } => link_fill(heap, ty, val, steps),
        PropertyRole::Child(_) => Err(Refusal::Refused(Code::E19)),
        PropertyRole::Alias { .. } => Err(Refusal::Refused(Code::E19)),
    }
}

/// What a value fills the slot of the property that has this row with. `E18` comes where the adding
/// command does not write it.
fn row_fill<L: Ledger>(
    heap: &Heap,
    row: Property,
    val: &Val,
    alloc: Global,
    steps: &mut Steps<L>,
) -> Result<InitialValue, Refusal>
    ensures refused { (b : Board) → Shows b heap.now → TellsRefusal result (refusal_by b (Some row) val.now) }
    ensures own { OnOk result ((t : TypeId) → is_some (begun t row.role) ≡ true) }
    ensures told { (b : Board) → Shows b heap.now → (t : TypeId) → IfOk result (λ f. IfSome (begun t row.role) (HasValue b val.now f)) }
    ensures fits { (t : TypeId) → IfOk result (λ f. IfSome (begun t row.role) (λ s. fits f s ≡ true)) }
    ensures live { IfOk result (λ f. IfSome (target_in f) (IsLive heap.now.rows)) }
{
    match row.access {
        Access::Add => role_fill(heap, row.role, val, alloc, steps),
        Access::Both => role_fill(heap, row.role, val, alloc, steps),
        Access::Never => Err(Refusal::Refused(Code::E18)),
        Access::Set => Err(Refusal::Refused(Code::E18)),
    }
}

/// Puts what a value given to the property of a name fills its slot with into the plan of a new
/// object of a type, for which none was given before.
fn plan_one<L: Ledger>(
    fills: &mut Vec<InitialValue>,
    heap: &Heap,
    kind: TypeId,
    name: &str,
    val: &Val,
    alloc: Global,
    steps: &mut Steps<L>,
) -> Result<(), Refusal>
    requires { AllZip Fits fills.old.items (new_slots kind) }
    ensures refused { (b : Board) → Shows b heap.now → TellsRefusal result (refusal_by b (property_named kind name.now) val.now) }
    ensures told { (b : Board) (given : List Given) → Shows b heap.now → find (λ p. bytes_eq p.0 name.now) given ≡ None → AllZip (IsGiven b given) fills.old.items (new_slots kind) → OnOk result (AllZip (IsGiven b (given ++ (name.now, val.now) ∷ [])) fills.new.items (new_slots kind)) }
    ensures fits { OnOk result (AllZip Fits fills.new.items (new_slots kind)) }
    ensures live { OnOk result (AllByRecursion (λ f. IfSome (target_in f) (IsLive heap.now.rows)) fills.old.items → AllByRecursion (λ f. IfSome (target_in f) (IsLive heap.now.rows)) fills.new.items) }
{
    let Some(placed) = placed_row(kind, name) else {
        return Err(Refusal::Refused(Code::E17));
    };
    let fill = row_fill(heap, placed.row, val, alloc, steps)?;
    fills[placed.place] = fill;
    Ok(())
}

/// The plan of a new object of a type for which nothing is given.
fn blank(kind: TypeId, alloc: Global) -> Result<Vec<InitialValue>, AllocError>
    ensures { IfOk result (λ fills. fills.items ≡ map (λ _. Default) (new_slots kind)) }
{
    let rows = TypeTable::board().props(kind);
    let mut fills = Vec::with_capacity(alloc, rows.len())?;
    for row in rows {
        if is_stored(row.role) {
            fills.push(InitialValue::Default)?;
        }
    }
    Ok(fills)
}

/// What each slot of a new object of a type is filled with, by the properties given, which are looked
/// at in the order given; the first that is refused refuses them. `E17` comes where the type has no
/// such property, `E18` where the adding command does not write it, `E19` where the value does not
/// fit; of a link, `E15` where nothing is at the path, `E16` where several are, and `E31` where the
/// target is not of the link's type.
pub fn plan<L: Ledger>(
    heap: &Heap,
    kind: TypeId,
    props: &PropList,
    alloc: Global,
    steps: &mut Steps<L>,
) -> Result<Vec<InitialValue>, Refusal>
    ensures refused { (b : Board) → Shows b heap.now → TellsRefusal result (refusal_of b kind props.now) }
    ensures told { (b : Board) → Shows b heap.now → IfOk result (λ plan. AllZip (IsGiven b props.now) plan.items (new_slots kind)) }
    ensures fits { IfOk result (λ plan. AllZip Fits plan.items (new_slots kind)) }
    ensures live { IfOk result (λ plan. AllByRecursion (λ f. IfSome (target_in f) (IsLive heap.now.rows)) plan.items) }
{
    let mut fills = blank(kind, alloc)?;
    for pair in props.as_slice() {
        plan_one(
            &mut fills,
            heap,
            kind,
            pair.0.as_str(),
            &pair.1,
            alloc,
            steps,
        )?;
    }
    Ok(fills)
}
