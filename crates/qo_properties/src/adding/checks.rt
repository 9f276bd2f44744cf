//! Why a user's object is refused before an attempt to make it.

ghost use Rattle.std.specs.Prelude.{◌≡◌, Some, None, Err, IfOk, OnOk, option_map};
ghost use Rattle.qo_values.specs.declared.births.TheConstants.{OBJECTS_BIRTH};
ghost use Rattle.qo_values.specs.declared.codes.Code.{Code};
ghost use Rattle.qo_values.specs.declared.codes.Code.TheVariants.{E23};
ghost use Rattle.qo_properties.specs.declared.refusals.Refusal.TheVariants.{Refused};
ghost use Rattle.qo_model.specs.Board.{Board};
ghost use Rattle.qo_model.specs.Objects.{barred_by};
ghost use Rattle.qo_model.specs.Types.{type_named};
ghost use Rattle.qo_heap.specs.Rows.{IsLive};
ghost use Rattle.qo_heap.specs.Board.{Shows};
ghost use Rattle.qo_properties.specs.Changes.{place_refusal, refusal_in, type_refusal};

use crate::reading::lookup::object_of;
use crate::refusals::Refusal;
use qo_heap::{Heap, Oid, Steps};
use qo_types::TypeTable;
use qo_values::{Code, Id, IdError, LIVE_OBJECTS_MAX, Name, OBJECTS_BIRTH, TypeId};
use std::alloc::Global;
use std::sync::ledger::Ledger;

/// The type of a name, where users may make objects of it.
fn creatable(driver: &str) -> Result<TypeId, Code>
    ensures kind { IfOk result (λ kind. option_map (λ r. r.id) (type_named driver.now) ≡ Some kind) }
    ensures refused { refusal_in result ≡ type_refusal driver.now }
{
    let Some(kind) = TypeTable::board().find(driver) else {
        return Err(Code::E20);
    };
    if TypeTable::board().is_abstract(kind) {
        return Err(Code::E21);
    }
    if !TypeTable::board().is_a(kind, "user-creatable") {
        return Err(Code::E22);
    }
    Ok(kind)
}

/// `/objects`, where a user's object may stand there under an id.
fn vacant<L: Ledger>(heap: &Heap, id: &str, steps: &mut Steps<L>) -> Result<Oid, Code>
    ensures objects { IfOk result (λ o. (o.birth ≡ OBJECTS_BIRTH) × IsLive heap.now.rows o) }
    ensures refused { (b : Board) → Shows b heap.now → refusal_in result ≡ place_refusal b id.now }
{
    let Some(objects) = object_of(heap, OBJECTS_BIRTH) else {
        return Err(Code::E15);
    };
    if heap.slot(objects, id, steps).is_some() {
        return Err(Code::E24);
    }
    if heap.live() as u64 >= LIVE_OBJECTS_MAX {
        return Err(Code::E43);
    }
    Ok(objects)
}

/// What an admitted object begins with.
#[derive(Drop)]
pub struct Admitted {
    /// `/objects`, under which it is to stand.
    pub objects: Oid,
    /// Its name there.
    pub name: Name,
    /// Its type.
    pub kind: TypeId,
}

/// The place, the name and the type of a user's object, where an attempt may be made. A refusal
/// comes before any attempt, by the first code in order: `E20`, `E21`, `E22`, `E23`, `E15`, `E24`,
/// `E43`.
pub fn check_object<L: Ledger>(
    heap: &Heap,
    driver: &str,
    id: &str,
    alloc: Global,
    steps: &mut Steps<L>,
) -> Result<Admitted, Refusal>
    ensures kind { IfOk result (λ a. option_map (λ r. r.id) (type_named driver.now) ≡ Some a.kind) }
    ensures place { IfOk result (λ a. (a.objects.birth ≡ OBJECTS_BIRTH) × IsLive heap.now.rows a.objects × (a.name ≡ id.now)) }
    ensures open { OnOk result ((b : Board) → Shows b heap.now → barred_by b driver.now id.now ≡ None) }
    ensures refused { (b : Board) (code : Code) → Shows b heap.now → result ≡ Err (Refused code) → barred_by b driver.now id.now ≡ Some code }
{
    let kind = match creatable(driver) {
        Ok(kind) => kind,
        Err(code) => return Err(Refusal::Refused(code)),
    };
    let name = match Id::parse(alloc, id) {
        Ok(id) => id.into_name(),
        Err(IdError::Malformed) => return Err(Refusal::Refused(Code::E23)),
        Err(IdError::Memory) => return Err(Refusal::Memory),
    };
    match vacant(heap, id, steps) {
        Ok(objects) => Ok(Admitted {
            objects,
            name,
            kind,
        }),
        Err(code) => Err(Refusal::Refused(code)),
    }
}
