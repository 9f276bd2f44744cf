//! A value in its slot.

use std::marker::Model;
use std::mem::ManuallyDrop;

/// A value with its birth. It can be let go whatever the value is, so a slab may hold it; that no
/// value is lost by this is the duty of `Arena` and `Rest`, which cannot be let go themselves and
/// end only when they hold nothing.
pub struct Stored<T> {
    birth: u64,
    value: ManuallyDrop<T>,
}

impl<T> Model for Stored<T> {
    ghost use Rattle.std.specs.Prelude.{ℕ};
    ghost use Rattle.std.specs.Mem.{manually_drop_value};

    ghost Value = { ℕ × T };

    ghost view = { λ s. (s.birth, manually_drop_value s.value) };
}

impl<T> Drop for Stored<T> {
    fn drop(self) {
        let Stored { birth: _, value: _ } = self;
    }
}

impl<T> Stored<T> {
    ghost use Rattle.std.specs.Prelude.{◌≡◌};
    ghost use Rattle.std.specs.Borrow.{Lends, sem};
    ghost use Rattle.qo_slots.specs.contracts.stored.Stored.{the_row};

    pub fn new(birth: u64, value: T) -> Stored<T>
        ensures { result ≡ (birth, value) }
    {
        // SAFETY: the value is consumed later. `Arena` and `Rest` alone keep what is stored; they
        // are linear, hand out each value by `into_value`, and end only when they hold none.
        let value = unsafe { ManuallyDrop::new_unchecked(value) };
        Stored { birth, value }
    }

    pub fn value(&self) -> &T
        ensures { result.now ≡ self.now.1 }
    {
        &self.value
    }

    pub fn value_mut(&mut self) -> &mut T
        ensures* lends { sem 𝓛 (Lends (the_row T.row) T.row self.entry result (λ w. (self.entry.now.0, w))) }
        ensures value { result.now ≡ self.old.1 }
    {
        &mut self.value
    }

    pub fn into_value(self) -> T
        ensures { result ≡ self.1 }
    {
        let Stored { birth: _, value } = self;
        ManuallyDrop::into_inner(value)
    }
}
