//! The heap, and the calls that make and end objects.

use crate::ends::{free_all, tell_deleted};
use crate::entries::{Entry, add_object, take_object};
use crate::errors::MakeError;
use crate::table::into_rest;
use circular_buffer::HeapCircularBuffer;
use qo_claims::Claims;
use qo_events::Events;
use qo_model::Note;
use qo_object::{FinalizedParts, Object, Oid};
use qo_slots::{Arena, Steps};
use qo_values::{LIVE_OBJECTS_MAX, NOTES_KEPT, TypeId};
use std::alloc::{AllocError, Global};
use std::marker::Model;
use std::sync::ledger::Ledger;

/// The objects in the order of their births, the notes on them, all that is held, the events on
/// devices that wait, and the virtual time, in ns.
pub struct Heap {
    /// Where its memory comes from.
    pub(crate) alloc: Global,
    /// Each object with what is kept of it, under its name.
    pub(crate) table: Arena<Entry>,
    /// The names of the objects, in the order of their births.
    pub(crate) order: Vec<Oid>,
    pub(crate) claims: Claims,
    /// The last `NOTES_KEPT` notes; their memory was taken at the start.
    pub(crate) notes: HeapCircularBuffer<Note>,
    /// How many notes there were; it stays at 2^64 - 1 once there.
    pub(crate) total: u64,
    /// The virtual time, in ns.
    pub(crate) time: u64,
    pub(crate) events: Events,
}

impl Model for Heap {
    ghost use Rattle.std.specs.Prelude.{◌≡◌, min, length};
    ghost use Rattle.qo_values.specs.declared.limits.TheConstants.{NOTES_KEPT};
    ghost use Rattle.qo_heap.specs.Objects.{Objects, IsHeap, HasPlaces, objects_in};
    ghost use Rattle.qo_heap.specs.Keeping.{IsKept};
    ghost use Rattle.qo_heap.specs.Order.{IsOrdered, rows_in};
    ghost use Rattle.qo_heap.specs.WeakLists.{HasWeakLists};

    ghost Value = { Objects };

    ghost view = { λ h. objects_in h.table h.order.items h.claims h.notes.items h.total h.time h.events };

    ghost invariant = { λ h. (IsHeap (objects_in h.table h.order.items h.claims h.notes.items h.total h.time h.events) × HasPlaces (objects_in h.table h.order.items h.claims h.notes.items h.total h.time h.events)) × (IsOrdered h.table h.order.items × (IsKept (rows_in h.table h.order.items) × (HasWeakLists (rows_in h.table h.order.items) × ((h.notes.capacity ≡ NOTES_KEPT) × (length h.notes.items ≡ min h.total NOTES_KEPT))))) };
}

impl Drop for Heap {
    fn drop(self) {
        let Heap {
            alloc: _,
            table,
            order,
            mut claims,
            notes: _,
            total: _,
            time: _,
            events: _,
        } = self;
        let mut rest = into_rest(table, order);
        while let Some(entry) = rest.next() {
            let FinalizedParts {
                kind: _,
                kept,
                id,
                path: _,
            } = entry.into_object().into_finalized_parts();
            free_all(&mut claims, kept, id);
        }
        rest.end();
    }
}

impl Heap {
    ghost use Rattle.std.specs.Prelude.{◌≡◌, ℕ, ◌+◌, ◌*◌, ◌<◌, ◌≤◌, ◌^◌, [], ◌∷◌, ◌++◌, length, IfOk, OnOk, OnErr, Err, Some, option_map};
    ghost use Rattle.qo_heap.specs.Board.{Shows};
    ghost use Rattle.qo_model.specs.Board.{Board};
    ghost use Rattle.qo_object.specs.Content.{fresh, reference_count};
    ghost use Rattle.qo_heap.specs.Keeping.{holders, owners};
    ghost use Rattle.qo_heap.specs.Rows.{IsLive};
    ghost use Rattle.qo_heap.specs.Objects.{IsHeap, content_of, ended, no_objects_made, parent_of, refs_of};
    ghost use Rattle.qo_heap.specs.WeakEnds.{weak_ends};
    ghost use Rattle.qo_heap.specs.declared.errors.MakeError.TheVariants.{Limit, Memory as NoMemory};

    /// A heap without objects. It takes the memory for all the notes that it will keep at once:
    /// 1,048,576 bytes, 16 for each. The error is want of memory.
    pub fn new(alloc: Global) -> Result<Heap, AllocError>
        ensures { IfOk result (λ h. h ≡ no_objects_made) }
    {
        let notes = HeapCircularBuffer::with_capacity(alloc, NOTES_KEPT as usize)?;
        Ok(Heap {
            alloc,
            table: Arena::new(alloc),
            order: Vec::new(alloc),
            claims: Claims::new(alloc),
            notes,
            total: 0,
            time: 0,
            events: Events::new(alloc),
        })
    }

    /// What is so of every heap: births rise up to those so far, there are at most
    /// `LIVE_OBJECTS_MAX` objects, and what a child slot or a link names is there.
    pub fn reveal_invariant(&self)
        ensures { IsHeap self.now }
    {
        let _table = &self.table;
    }

    /// No object is the child of two slots.
    pub(crate) fn reveal_once(&self)
        ensures { (n : ℕ) → owners n self.now.rows ≤ 1 }
    {
        let _table = &self.table;
    }

    /// An object, with what is kept of it. It takes no memory.
    pub(crate) fn entry<L: Ledger>(&self, o: Oid, steps: &mut Steps<L>) -> &Entry
        requires { IsLive self.now.rows o }
        ensures object { content_of self.now o.birth ≡ Some result.now.object }
        ensures held { result.now.held ≡ holders o.birth self.now.rows }
        ensures few { result.now.held ≤ 2 ^ 48 }
        ensures parent { result.now.parent ≡ parent_of self.now o.birth }
        ensures cost { steps.new ≡ steps.old + 1 }
    {
        self.table.look(o, steps)
    }

    /// An object. It takes no memory.
    pub(crate) fn look<L: Ledger>(&self, o: Oid, steps: &mut Steps<L>) -> &Object
        requires { IsLive self.now.rows o }
        ensures object { content_of self.now o.birth ≡ Some result.now }
        ensures cost { steps.new ≡ steps.old + 1 }
    {
        &self.entry(o, steps).object
    }

    /// What it stands for: there is a board that it shows.
    pub fn reveal_board(&self)
        ensures { (b : Board) × Shows b self.now }
    {
        let _total = self.total;
    }

    /// Makes an object of a type, without slots and pinned once, of the next birth. `Limit` comes
    /// exactly at `LIVE_OBJECTS_MAX` live objects. An error leaves the heap as it was.
    #[inline(always)]
    pub fn make<L: Ledger>(
        &mut self,
        alloc: Global,
        kind: TypeId,
        steps: &mut Steps<L>,
    ) -> Result<Oid, MakeError>
        ensures made { IfOk result (λ o. (o.birth ≡ self.old.born + 1) × (self.new ≡ record self.old { rows = self.old.rows ++ (o, fresh kind) ∷ []; born = self.old.born + 1 })) }
        ensures below { IfOk result (λ o. length self.old.rows < LIVE_OBJECTS_MAX) }
        ensures limit { result ≡ Err Limit → length self.old.rows ≡ LIVE_OBJECTS_MAX }
        ensures memory { result ≡ Err NoMemory → length self.old.rows < LIVE_OBJECTS_MAX }
        ensures err { OnErr result (self.new ≡ self.old) }
        ensures cost { OnOk result (steps.new ≡ steps.old + 1) }
    {
        if self.live() as u64 >= LIVE_OBJECTS_MAX {
            return Err(MakeError::Limit);
        }
        match add_object(
            &mut self.table,
            &mut self.order,
            alloc,
            Object::new(alloc, kind),
            steps,
        ) {
            Ok(oid) => Ok(oid),
            Err(_) => Err(MakeError::Memory),
        }
    }

    /// Ends an object to which nothing refers and that holds nothing: empties the weak links that name
    /// it, adds its final notes, derived first, frees its claims, adds the event of a device whose path
    /// is kept, and removes it. It takes no memory.
    #[inline(always)]
    pub fn finish<L: Ledger>(&mut self, o: Oid, steps: &mut Steps<L>)
        requires live { IsLive self.old.rows o }
        requires free { refs_of self.old o.birth ≡ 0 }
        requires bare { option_map reference_count (content_of self.old o.birth) ≡ Some 0 }
        ensures now { option_map (λ c. ended o.birth c self.old) (content_of self.old o.birth) ≡ Some self.new }
        ensures cost { steps.new ≤ steps.old + 2 + 4 * weak_ends o.birth self.old.rows }
    {
        while self.drop_weak_end(o, steps) {}
        self.remove(o, steps);
    }

    /// Removes an object to which nothing refers, that holds nothing, that no weak link names and whose
    /// own weak links are empty, with its final notes, its claims and its event.
    fn remove<L: Ledger>(&mut self, o: Oid, steps: &mut Steps<L>)
        requires live { IsLive self.old.rows o }
        requires free { refs_of self.old o.birth ≡ 0 }
        requires bare { option_map reference_count (content_of self.old o.birth) ≡ Some 0 }
        requires alone { weak_ends o.birth self.old.rows ≡ 0 }
        ensures now { option_map (λ c. ended o.birth c self.old) (content_of self.old o.birth) ≡ Some self.new }
        ensures cost { steps.new ≡ steps.old + 1 }
    {
        let FinalizedParts {
            kind,
            kept,
            id,
            path,
        } = take_object(&mut self.table, &mut self.order, o, steps).into_finalized_parts();
        let id = free_all(&mut self.claims, kept, id);
        tell_deleted(&mut self.events, id, path);
        self.note_end(o.birth, kind);
    }
}
