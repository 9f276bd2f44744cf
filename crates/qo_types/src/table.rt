//! The table of types, as the layers above ask it.

ghost use Rattle.std.specs.Prelude.{◌≡◌, IfOk, option_map};
ghost use Rattle.std.specs.List.{slice_get};
ghost use Rattle.qo_values.specs.Kinds.{type_name};
ghost use Rattle.qo_model.specs.Properties.{property_named};
ghost use Rattle.qo_model.specs.Types.{chain, has_finalizer, interfaces_of, is_a, parent_of, type_named, slots_of};
ghost use Rattle.qo_types.specs.Rows.{is_abstract, listed};

use crate::slots;
use crate::types::{all_types, answers_to, first_named, info};
use qo_model::{Interface, Property};
use qo_values::TypeId;
use std::alloc::{AllocError, Global};

/// The types of a board, with their properties.
#[derive(Clone, Copy, Debug)]
pub struct TypeTable;

impl TypeTable {
    /// The table of the sixteen types.
    pub fn board() -> TypeTable {
        TypeTable
    }

    /// The type of a name; `None` where no type has it. Interfaces are no types.
    pub fn find(&self, name: &str) -> Option<TypeId>
        ensures { result ≡ option_map (λ r. r.id) (type_named name.now) }
    {
        first_named(all_types(), name)
    }

    /// Whether a type is of a name: its own, an ancestor's, or an interface of itself or of an
    /// ancestor. The names that are asked most are known without a look at the ancestors.
    #[tactic(auto, using(crate::proofs::TableLemmas::each_object))]
    pub fn is_a(&self, t: TypeId, name: &str) -> bool
        ensures { result ≡ is_a t name.now }
    {
        match name {
            "object" => true,
            "bus" => info(t).is_bus,
            "device" => info(t).is_device,
            "slot-device" => info(t).is_slot_device,
            _ => info(t).ancestry.iter().any(|a| answers_to(*a, name)),
        }
    }

    /// Whether a type is another one, or derives from it.
    pub fn derives_from(&self, t: TypeId, ancestor: TypeId) -> bool
        ensures { result ≡ is_a t (type_name ancestor) }
    {
        match ancestor {
            TypeId::Object => self.is_a(t, "object"),
            TypeId::Bus => info(t).is_bus,
            TypeId::Device => info(t).is_device,
            TypeId::SlotDevice => info(t).is_slot_device,
            _ => info(t).ancestry.contains(&ancestor),
        }
    }

    /// A type, its parent and so on to `object`.
    pub fn ancestry(&self, t: TypeId) -> &'static [TypeId]
        ensures { result.now ≡ chain t }
    {
        info(t).ancestry
    }

    /// The type itself at 0, its parent at 1, and so on to `object`; `None` after that.
    pub fn chain(&self, t: TypeId, i: usize) -> Option<TypeId>
        ensures { result ≡ slice_get (chain t) i }
    {
        info(t).ancestry.get(i).copied()
    }

    /// The type that a type derives from; only `object` has none.
    #[tactic(auto, using(crate::proofs::TableLemmas::parent_in))]
    pub fn parent(&self, t: TypeId) -> Option<TypeId>
        ensures { result ≡ parent_of t }
    {
        self.chain(t, 1)
    }

    /// Whether a type has no objects of its own.
    pub fn is_abstract(&self, t: TypeId) -> bool
        ensures { result ≡ is_abstract t }
    {
        info(t).is_abstract
    }

    /// The interfaces that a type adds to those of its parent (docs/devel/qom.rst, "Interfaces").
    pub fn interfaces(&self, t: TypeId) -> &'static [Interface]
        ensures { result.now ≡ interfaces_of t }
    {
        info(t).interfaces
    }

    /// The property at a place, from 0, among those that each object of a type has, base first;
    /// `None` after the last.
    pub fn prop(&self, t: TypeId, i: usize) -> Option<Property>
        ensures { result ≡ slice_get (slots_of t) i }
    {
        info(t).properties.get(i).copied()
    }

    /// The properties that each object of a type has, base first.
    pub fn props(&self, t: TypeId) -> &'static [Property]
        ensures { result.now ≡ slots_of t }
    {
        info(t).properties
    }

    /// The property of a name among those that each object of a type has.
    pub fn property(&self, t: TypeId, name: &str) -> Option<Property>
        ensures { result ≡ property_named t name.now }
    {
        slots::first_named(self.props(t), name)
    }

    /// Whether a type has an initializer and a finalizer.
    pub fn has_finalizer(&self, t: TypeId) -> bool
        ensures { result ≡ has_finalizer t }
    {
        !matches!(t, TypeId::Object | TypeId::Container)
    }

    /// The types of a name, in row order; abstract ones only where `with_abstract` says so. The
    /// error is want of memory.
    pub fn list(
        &self,
        alloc: Global,
        implements: &str,
        with_abstract: bool,
    ) -> Result<Vec<TypeId>, AllocError>
        ensures { IfOk result (λ ids. ids.items ≡ listed implements.now with_abstract) }
    {
        let mut ids = Vec::new(alloc);
        for t in all_types() {
            if self.is_a(*t, implements) && (with_abstract || !self.is_abstract(*t)) {
                ids.push(*t)?;
            }
        }
        Ok(ids)
    }
}
