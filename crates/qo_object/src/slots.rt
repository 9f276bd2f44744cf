//! What stands in a slot of an object.

use crate::names::SlotName;
use qo_slots::Key;
use qo_values::{TypeId, Val};

/// What stands in a slot (docs/devel/qom.rst, "The QEMU Object Model": properties, children, links
/// and aliases).
#[derive(Debug, Drop)]
pub enum Slot {
    /// A plain property: its value.
    Plain(Val),
    /// A child.
    Child(Key),
    /// A link to objects of a type, which may have no target, and which keeps its target alive where
    /// it is strong.
    Link {
        /// The type that its targets are of.
        ty: TypeId,
        /// Whether it keeps its target alive.
        strong: bool,
        /// The object that it names.
        target: Option<Key>,
    },
    /// Another name for a property of an object: reads and writes go there.
    Alias(Key, SlotName),
}

/// A slot of an object, as it is read.
#[derive(Clone, Copy, Debug)]
pub struct SlotView<'a> {
    /// Its place among the object's slots, from 0.
    pub at: usize,
    /// Its name.
    pub name: &'a str,
    /// What stands in it.
    pub what: &'a Slot,
}

impl Slot {
    ghost use Rattle.std.specs.Prelude.{◌≡◌};
    ghost use Rattle.qo_object.specs.Slots.{target_of, is_strong, child_of, holds, names_child, names_weakly, referent, unlinked, pointed, with_val, forgotten_in};

    /// The child that stands in it.
    pub(crate) fn child(&self) -> Option<Key>
        ensures { result ≡ child_of self.now }
    {
        match self {
            Slot::Child(child) => Some(*child),
            _ => None,
        }
    }

    /// The object that it names: a child, or the target of a link. It takes no memory.
    pub fn target(&self) -> Option<Key>
        ensures { result ≡ target_of self.now }
    {
        match self {
            Slot::Child(child) => Some(*child),
            Slot::Link { target, .. } => *target,
            _ => None,
        }
    }

    /// Whether it is a strong link. It takes no memory.
    pub fn is_strong(&self) -> bool
        ensures { result ≡ is_strong self.now }
    {
        matches!(self, Slot::Link { strong: true, .. })
    }

    /// The object that it holds, as a child or by a strong link. It takes no memory.
    pub fn referent(&self) -> Option<Key>
        ensures { result ≡ referent self.now }
    {
        match self {
            Slot::Child(child) => Some(*child),
            Slot::Link {
                strong: true,
                target,
                ..
            } => *target,
            _ => None,
        }
    }

    /// Whether it holds the object of a birth.
    pub(crate) fn holds(&self, birth: u64) -> bool
        ensures { result ≡ holds birth self.now }
    {
        match self.referent() {
            Some(key) => key.birth == birth,
            None => false,
        }
    }

    /// Whether it has the object of a birth as a child.
    pub(crate) fn names_child(&self, birth: u64) -> bool
        ensures { result ≡ names_child birth self.now }
    {
        match self {
            Slot::Child(child) => child.birth == birth,
            _ => false,
        }
    }

    /// Whether it is a weak link to the object of a birth.
    pub(crate) fn names_weakly(&self, birth: u64) -> bool
        ensures { result ≡ names_weakly birth self.now }
    {
        match self {
            Slot::Link {
                strong: false,
                target: Some(key),
                ..
            } => key.birth == birth,
            _ => false,
        }
    }

    /// Takes the target out of a link. Anything else stays, and the answer is None.
    pub(crate) fn unlink(&mut self) -> Option<Key>
        requires { child_of self.old ≡ None }
        ensures now { self.new ≡ unlinked self.old }
        ensures answer { result ≡ target_of self.old }
    {
        match self {
            Slot::Link { target, .. } => target.take(),
            _ => None,
        }
    }

    /// Points a link at an object. Anything else stays.
    pub(crate) fn point(&mut self, key: Key)
        ensures { self.new ≡ pointed key self.old }
    {
        if let Slot::Link { target, .. } = self {
            *target = Some(key);
        }
    }

    /// Gives a plain slot a value. Anything else stays.
    pub(crate) fn set(&mut self, val: Val)
        ensures { self.new ≡ with_val val self.old }
    {
        if let Slot::Plain(old) = self {
            *old = val;
        }
    }

    /// Empties a weak link to the object of a birth. Anything else stays.
    pub(crate) fn forget(&mut self, birth: u64)
        ensures { self.new ≡ forgotten_in birth self.old }
    {
        if !self.names_weakly(birth) {
            return;
        }
        if let Slot::Link { target, .. } = self {
            *target = None;
        }
    }
}
