//! The claims of a device, which are free once it is unrealized.

ghost use Rattle.std.specs.Prelude.{◌≡◌, ℕ, ◌==◌, false, Some, option_map};
ghost use Rattle.qo_kinds.specs.Bodies.{kept_of, none_kept, with_kept};
ghost use Rattle.qo_object.specs.Content.{Content};
ghost use Rattle.qo_heap.specs.Acts.{KeepsCounts, KeepsPeriods};
ghost use Rattle.qo_heap.specs.Rows.{IsLive};
ghost use Rattle.qo_heap.specs.Objects.{content_of, with_edit};
ghost use Rattle.qo_kinds.specs.declared.kept_set.KeptSet.{KeptSet};
ghost use Rattle.qo_properties.specs.KeptClaims.{kept_by};
ghost use Rattle.qo_unplug.specs.Unrealizing.{HeapUndoes, nothing_needed};

use qo_heap::{Heap, Oid, Steps, free_kept};
use qo_kinds::KeptSet;
use std::sync::ledger::Ledger;

/// Takes the claims out of the body of an object.
fn take_claims<L: Ledger>(heap: &mut Heap, o: Oid, steps: &mut Steps<L>) -> KeptSet
    requires { IsLive heap.old.rows o }
    ensures taken { option_map (λ c. kept_of c.body) (content_of heap.old o.birth) ≡ Some result }
    ensures left { heap.new ≡ with_edit o.birth (λ (c : Content). record c { body = with_kept none_kept c.body }) heap.old }
{
    heap.reveal_invariant();
    heap.body_mut(o, steps).take_claims()
}

/// Ends the claims that the body of an object keeps; no board sees it.
pub fn free_claims<L: Ledger>(heap: &mut Heap, o: Oid, steps: &mut Steps<L>)
    requires { IsLive heap.old.rows o }
    ensures bare { kept_by heap.new o.birth ≡ Some none_kept }
    ensures others { (n : ℕ) (k : KeptSet) → (n == o.birth) ≡ false → kept_by heap.new n ≡ Some k → kept_by heap.old n ≡ Some k }
    ensures counts { KeepsCounts heap.old heap.new }
    ensures periods { KeepsPeriods heap.old heap.new }
    ensures undoes { HeapUndoes nothing_needed (λ _ c. c) heap.old heap.new }
{
    heap.reveal_invariant();
    let kept = take_claims(heap, o, steps);
    free_kept(heap.claims(), kept);
}
