//! Making objects.

ghost use Rattle.std.specs.Prelude.{◌≡◌, ◌+◌, ◌<◌, [], ◌∷◌, ◌++◌, length, IfOk, OnErr, Err, if◌then◌else◌};
ghost use Rattle.qo_values.specs.declared.kinds.TypeId.{TypeId};
ghost use Rattle.qo_values.specs.declared.limits.TheConstants.{LIVE_OBJECTS_MAX};
ghost use Rattle.qo_model.specs.Types.{has_finalizer};
ghost use Rattle.qo_heap.specs.Log.{noted_all};
ghost use Rattle.qo_object.specs.Content.{fresh};
ghost use Rattle.qo_heap.specs.Rows.{IsLive};
ghost use Rattle.qo_heap.specs.declared.errors.MakeError.TheVariants.{Limit, Memory as NoMemory};
ghost use Rattle.qo_life.specs.Life.{init_note, init_notes, with_notes};

use qo_heap::{Heap, MakeError, Oid, Steps};
use qo_types::TypeTable;
use qo_values::{Act, TypeId};
use std::alloc::Global;
use std::sync::ledger::Ledger;

/// Runs the initializer of a type on an object, where the type has one, and notes it.
fn initialize<L: Ledger>(heap: &mut Heap, o: Oid, of: TypeId, steps: &mut Steps<L>)
    requires { IsLive heap.old.rows o }
    ensures { heap.new ≡ with_notes (if has_finalizer of then init_note o.birth of ∷ [] else []) heap.old }
{
    if TypeTable::board().has_finalizer(of) {
        heap.act(o, Act::Init(of), 0, steps);
    }
}

/// Runs the initializers of a type on an object, base first, and notes them.
fn initialize_whole<L: Ledger>(heap: &mut Heap, o: Oid, kind: TypeId, steps: &mut Steps<L>)
    requires { IsLive heap.old.rows o }
    ensures { heap.new ≡ with_notes (init_notes o.birth kind) heap.old }
{
    let ancestry = TypeTable::board().ancestry(kind);
    let mut left = ancestry.len();
    while left > 0 {
        left -= 1;
        initialize(heap, o, ancestry[left], steps);
    }
}

/// Makes an object of a type, without slots and pinned once, of the next birth, and runs its
/// initializers, base first, each of which is noted (docs/devel/qom.rst, "The QEMU Object Model": `instance_init`). `Limit`
/// comes exactly at `LIVE_OBJECTS_MAX` live objects. An error leaves the heap as it was.
#[inline(always)]
pub fn create<L: Ledger>(
    heap: &mut Heap,
    alloc: Global,
    kind: TypeId,
    steps: &mut Steps<L>,
) -> Result<Oid, MakeError>
    ensures made { IfOk result (λ o. (o.birth ≡ heap.old.born + 1) × (heap.new ≡ record heap.old { rows = heap.old.rows ++ (o, fresh kind) ∷ []; born = heap.old.born + 1; log = noted_all (init_notes o.birth kind) heap.old.log })) }
    ensures below { IfOk result (λ o. length heap.old.rows < LIVE_OBJECTS_MAX) }
    ensures limit { result ≡ Err Limit → length heap.old.rows ≡ LIVE_OBJECTS_MAX }
    ensures memory { result ≡ Err NoMemory → length heap.old.rows < LIVE_OBJECTS_MAX }
    ensures err { OnErr result (heap.new ≡ heap.old) }
{
    let o = heap.make(alloc, kind, steps)?;
    heap.reveal_invariant();
    initialize_whole(heap, o, kind, steps);
    Ok(o)
}
