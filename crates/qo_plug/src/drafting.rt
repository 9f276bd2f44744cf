//! Making a device with its further objects, property by property, while it stands nowhere yet; and
//! giving it up (docs/devel/qom.rst, "The QEMU Object Model": `instance_init`, children, aliases).

ghost use Rattle.std.specs.Prelude.{◌≡◌, ◌+◌, ◌++◌, ◌⊎◌, ◌<◌, IfOk, IfSome, OnOk, OnErr, false, option_to_list};
ghost use Rattle.std.specs.Prelude.{◌==◌, ◌∷◌, ℕ, true, List, [], is_some, map};
ghost use Rattle.std.specs.List.{AllZip};
ghost use Rattle.qo_values.specs.declared.kinds.TypeId.{TypeId};
ghost use Rattle.qo_model.specs.Board.{Board};
ghost use Rattle.qo_model.specs.Objects.{Given};
ghost use Rattle.qo_model.specs.Plug.{aliased, owned, plug_attempt, property_made, properties_made, with_kid};
ghost use Rattle.qo_model.specs.RowNames.{property_name};
ghost use Rattle.qo_model.specs.Types.{slots_of};
ghost use Rattle.qo_model.specs.declared.properties.PropertyRole.TheVariants.{Child};
ghost use Rattle.qo_sound.specs.TreeKept.{SoundTree};
ghost use Rattle.qo_object.specs.BoardObject.{birth_of};
ghost use Rattle.qo_heap.specs.Rows.{IsLive};
ghost use Rattle.qo_heap.specs.Board.{Shows};
ghost use Rattle.qo_heap.specs.Objects.{pins_of};
ghost use Rattle.qo_properties.specs.Additions.{IsTried, given_up};
ghost use Rattle.qo_properties.specs.Claims.{KeepsBook};
ghost use Rattle.qo_properties.specs.KeptClaims.{KeptBefore, KeptOrNew};
ghost use Rattle.qo_properties.specs.NewSlots.{begun, new_slots, slot_begun};
ghost use Rattle.qo_properties.specs.Filling.{Fits, filled, spent, spent_at, value_alone, value_at};
ghost use Rattle.qo_properties.specs.Plans.{IsPlan};
ghost use Rattle.qo_properties.specs.declared.adding.filling.InitialValue.TheVariants.{Default};
ghost use Rattle.qo_plug.specs.Drafts.{CutShort, Fell, Grows, HasPlanned, IsDraft, Makes, MakesGiven, given_draft, own_slots_of, valued_slots};

use qo_heap::{Heap, Oid, Slot, SlotName, Steps};
use qo_life::{create, drop_pin};
use qo_model::{Property, PropertyName, PropertyRole};
use qo_properties::{InitialValue, add_value, is_stored, make_child, take_value};
use qo_types::TypeTable;
use qo_values::TypeId;
use std::alloc::{AllocError, Global};
use std::sync::ledger::Ledger;

/// Makes a further object of a device as its child, which alone holds it then. Where memory wants,
/// the heap is as it was, or the object was made and ended.
#[inline(always)]
pub(crate) fn make_kid<L: Ledger>(
    heap: &mut Heap,
    device: Oid,
    name: PropertyName,
    kind: TypeId,
    alloc: Global,
    steps: &mut Steps<L>,
) -> Result<(), AllocError>
    requires live { IsLive heap.old.rows device }
    ensures ok { OnOk result (Makes (with_kid device.birth (property_name name) kind) heap.old heap.new) }
    ensures own { OnOk result (own_slots_of heap.new device.birth ≡ own_slots_of heap.old device.birth) }
    ensures err { OnErr result (IsTried kind heap.old heap.new) }
    ensures grows { Grows heap.old heap.new }
{
    heap.reveal_invariant();
    let kid = make_child(heap, device, SlotName::row(name), kind, alloc, steps)?;
    heap.unpin(kid, steps);
    Ok(())
}

/// The child of an object under a name; `None` where it has none.
fn child_named<L: Ledger>(
    heap: &Heap,
    o: Oid,
    name: PropertyName,
    steps: &mut Steps<L>,
) -> Option<Oid>
    requires { IsLive heap.now.rows o }
    ensures { (b : Board) → Shows b heap.now → birth_of result ≡ owned b o.birth (property_name name) }
{
    let slot = heap.property(o, name, steps)?;
    match slot.what {
        Slot::Child(child) => Some(*child),
        _ => None,
    }
}

/// Gives a device an alias of a property of its own child, where it has this one. An error leaves
/// the heap as it was.
fn make_alias<L: Ledger>(
    heap: &mut Heap,
    device: Oid,
    name: PropertyName,
    owner: PropertyName,
    of: PropertyName,
    steps: &mut Steps<L>,
) -> Result<(), AllocError>
    requires live { IsLive heap.old.rows device }
    ensures ok { OnOk result (Makes (λ c. aliased device.birth (property_name name) (property_name of) (owned c device.birth (property_name owner)) c) heap.old heap.new) }
    ensures own { OnOk result (own_slots_of heap.new device.birth ≡ own_slots_of heap.old device.birth) }
    ensures err { OnErr result (heap.new ≡ heap.old) }
    ensures grows { Grows heap.old heap.new }
{
    let Some(child) = child_named(heap, device, owner, steps) else {
        return Ok(());
    };
    heap.add_alias(device, SlotName::row(name), child, SlotName::row(of), steps)?;
    Ok(())
}

/// Gives a device of a type the slot of a property: a plain one with the value planned, or with its
/// first where none is, an empty link, a further object as its child, or an alias of what its child
/// has. Where memory wants, the heap is as it was, or a further object was made and ended.
fn make_property<L: Ledger>(
    heap: &mut Heap,
    device: Oid,
    kind: TypeId,
    row: Property,
    fill: InitialValue,
    alloc: Global,
    steps: &mut Steps<L>,
) -> Result<(), AllocError>
    requires live { IsLive heap.old.rows device }
    ensures ok { OnOk result ((b : Board) (props : List Given) → IfSome (slot_begun kind row) (HasPlanned b props fill) → MakesGiven b props device.birth (property_made device.birth kind (property_name row.name) row.role) heap.old heap.new) }
    ensures own { OnOk result (own_slots_of heap.new device.birth ≡ own_slots_of heap.old device.birth ++ filled (value_alone fill ∷ []) (option_to_list (slot_begun kind row))) }
    ensures err { OnErr result ((heap.new ≡ heap.old) ⊎ ((further : TypeId) × (row.role ≡ Child further) × (heap.new ≡ given_up further heap.old))) }
    ensures grows { Grows heap.old heap.new }
{
    heap.reveal_invariant();
    match row.role {
        PropertyRole::Plain(_, first) => {
            add_value(heap, device, kind, row.name, first, fill, alloc, steps)
        }
        PropertyRole::Link { ty, strong } => {
            heap.add_link(device, SlotName::row(row.name), ty, strong, None, steps)?;
            Ok(())
        }
        PropertyRole::Child(further) => make_kid(heap, device, row.name, further, alloc, steps),
        PropertyRole::Alias { child, of } => {
            make_alias(heap, device, row.name, child, of, steps)
        }
    }
}

/// Takes the value that is planned for a property with this row out of a plan, of which so many slots
/// were passed; nothing is planned for a property without a slot of its own.
fn next_value(plan: &mut [InitialValue], at: &mut usize, role: PropertyRole) -> InitialValue
    requires { at.old < 18446744073709551615 }
    ensures own { (t : TypeId) → is_some (begun t role) ≡ true → (result ≡ value_at at.old plan.old) × (at.new ≡ at.old + 1) × (plan.new ≡ spent_at at.old plan.old) }
    ensures other { (t : TypeId) → is_some (begun t role) ≡ false → (result ≡ Default) × (at.new ≡ at.old) × (plan.new ≡ plan.old) }
{
    if !is_stored(role) {
        return InitialValue::Default;
    }
    let fill = take_value(plan, *at);
    *at += 1;
    fill
}

/// Gives a device of a type its slots, property by property, with its further objects: its plain
/// properties have the values of its plan, which are taken out of it. Where memory wants, the device
/// has the slots of its first properties, and a further object of the next one may have been made and
/// ended.
fn make_properties<L: Ledger>(
    heap: &mut Heap,
    device: Oid,
    kind: TypeId,
    plan: &mut [InitialValue],
    alloc: Global,
    steps: &mut Steps<L>,
) -> Result<(), AllocError>
    requires live { IsLive heap.old.rows device }
    requires fits { AllZip Fits plan.old (new_slots kind) }
    ensures ok { OnOk result ((b : Board) (props : List Given) → AllZip (HasPlanned b props) plan.old (new_slots kind) → MakesGiven b props device.birth (properties_made device.birth kind (slots_of kind)) heap.old heap.new) }
    ensures own { OnOk result (own_slots_of heap.new device.birth ≡ own_slots_of heap.old device.birth ++ valued_slots kind plan.old) }
    ensures left { OnOk result (plan.new ≡ map spent plan.old) }
    ensures err { OnErr result ((b : Board) (props : List Given) → AllZip (HasPlanned b props) plan.old (new_slots kind) → Fell b props device.birth kind heap.old heap.new) }
    ensures grows { Grows heap.old heap.new }
{
    let mut place = 0;
    let mut at = 0;
    while let Some(row) = TypeTable::board().prop(kind, place) {
        let fill = next_value(plan, &mut at, row.role);
        make_property(heap, device, kind, row, fill, alloc, steps)?;
        place += 1;
    }
    Ok(())
}

/// Makes a device of a type with its further objects, each with its initializers base first; its plain
/// properties have the values of its plan, which are taken out of it, and its links are empty: what
/// is left of its plan is what these are to name. It stands nowhere, and is held from outside the
/// tree once. Where memory wants, an attempt was cut: what was made has ended.
pub fn make_device<L: Ledger>(
    heap: &mut Heap,
    kind: TypeId,
    plan: &mut [InitialValue],
    alloc: Global,
    steps: &mut Steps<L>,
) -> Result<Oid, AllocError>
    requires { AllZip Fits plan.old (new_slots kind) }
    ensures made { IfOk result (IsDraft kind plan.old heap.old heap.new) }
    ensures left { OnOk result (plan.new ≡ map spent plan.old) }
    ensures pinned { IfOk result (λ o. 0 < pins_of heap.new o.birth) }
    ensures shown { OnOk result ((b : Board) (props : List Given) → IsPlan b kind props plan.old → Shows b heap.old → Shows (given_draft b kind props) heap.new) }
    ensures grows { OnOk result (Grows heap.old heap.new) }
    ensures err { OnErr result ((b : Board) → Shows b heap.old → SoundTree b → CutShort b kind heap.new) }
    ensures book { KeepsBook heap.old heap.new }
    ensures kept { KeptOrNew heap.old heap.new }
{
    heap.reveal_invariant();
    let device = create(heap, alloc, kind, steps)?;
    match make_properties(heap, device, kind, plan, alloc, steps) {
        Ok(()) => Ok(device),
        Err(error) => {
            drop_pin(heap, device, steps);
            Err(error)
        }
    }
}

/// Gives a device up that was made and stands nowhere: it ends, with its further objects, which are
/// finalized first. It takes no memory.
pub fn give_up<L: Ledger>(heap: &mut Heap, device: Oid, steps: &mut Steps<L>)
    requires live { IsLive heap.old.rows device }
    requires pinned { 0 < pins_of heap.old device.birth }
    ensures shown { (b : Board) (t : TypeId) (props : List Given) (bus stage : ℕ) → SoundTree b → device.birth ≡ b.born + 1 → (stage == 8) ≡ false → Shows (given_draft b t props) heap.old → Shows (plug_attempt b t bus stage) heap.new }
    ensures book { KeepsBook heap.old heap.new }
    ensures kept { KeptBefore heap.old heap.new }
{
    drop_pin(heap, device, steps);
}
