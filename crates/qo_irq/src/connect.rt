//! How a line is made known to the lines that its gate names.

ghost use Rattle.std.specs.Prelude.{◌≡◌, ◌≢◌, ℕ, ◌==◌, nat_lt, true, false, length, OnOk};
ghost use Rattle.std.specs.List.{list_any, list_all};
ghost use Rattle.qo_irq.specs.Kept.{depends, dependants_at, names};
ghost use Rattle.qo_irq.specs.Wires.{wire_of, names_below};

use crate::dependants::Dependants;
use crate::gate::Gate;
use std::alloc::AllocError;

/// Adds a line to the dependants of each of these lines. An error may have added it to some of them.
fn connect_each(dependants: &mut [Dependants], named: &[u32], line: u32) -> Result<(), AllocError>
    requires { list_all (λ x. nat_lt x (length dependants.old)) named.now ≡ true }
    ensures kept { (i x : ℕ) → i ≢ line → depends i (dependants_at dependants.new x) ≡ depends i (dependants_at dependants.old x) }
    ensures added { OnOk result ((x : ℕ) → list_any (λ y. x == y) named.now ≡ true → depends line (dependants_at dependants.new x) ≡ true) }
{
    for x in named {
        dependants[*x as usize].add(line)?;
    }
    Ok(())
}

/// Adds a line to the dependants of each line that its gate names. An error may have added it to some
/// of them.
pub(crate) fn connect(
    dependants: &mut [Dependants],
    gate: &Gate,
    line: u32,
) -> Result<(), AllocError>
    requires { names_below (length dependants.old) (wire_of gate.now false) ≡ true }
    ensures kept { (i x : ℕ) → i ≢ line → depends i (dependants_at dependants.new x) ≡ depends i (dependants_at dependants.old x) }
    ensures added { OnOk result ((x : ℕ) → names x gate.now ≡ true → depends line (dependants_at dependants.new x) ≡ true) }
{
    match gate {
        Gate::Input => Ok(()),
        Gate::Or(named) => connect_each(dependants, named, line),
        Gate::Copy(x) => connect_each(dependants, &[*x], line),
        Gate::Off(x, y) => connect_each(dependants, &[*x, *y], line),
    }
}
