//! What a table holds when it ends.

use crate::stored::Stored;
use slab::{IntoIter, Slab};
use std::marker::Model;

/// The values that a table held when it was given up, by rising index. It is linear: it ends by
/// `end`, when none is left.
pub struct Rest<T> {
    table: IntoIter<Stored<T>>,
}

impl<T> Model for Rest<T> {
    ghost use Rattle.std.specs.Prelude.{List, map};

    ghost Value = { List T };

    ghost view = { λ r. map (λ e. e.1.1) r.table };
}

impl<T> Rest<T> {
    ghost use Rattle.std.specs.Prelude.{◌≡◌, [], ◌∷◌, IfSome, IfNone};
    ghost use Rattle.qo_slots.specs.Table.{values_in};

    pub(crate) fn new(table: Slab<Stored<T>>) -> Rest<T>
        ensures { result ≡ values_in table.slots }
    {
        Rest {
            table: table.into_iter(),
        }
    }

    /// Takes the first of the values. It takes no memory.
    pub fn next(&mut self) -> Option<T>
        ensures some { IfSome result (λ value. self.old ≡ value ∷ self.new) }
        ensures none { IfNone result ((self.old ≡ []) × (self.new ≡ [])) }
    {
        match self.table.next() {
            Some((_, stored)) => Some(stored.into_value()),
            None => None,
        }
    }

    /// Ends it, when no value is left. It takes no memory.
    pub fn end(self)
        requires { self ≡ [] }
    {
        let Rest { table: _ } = self;
    }
}
