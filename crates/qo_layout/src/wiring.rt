//! How the line of an object is driven in a net.

ghost use Rattle.std.specs.Prelude.{◌≡◌, ℕ, List, true, IfErr, IfOk, length};
ghost use Rattle.qo_irq.specs.Wires.{names_below, or};
ghost use Rattle.qo_irq.specs.declared.errors.NetError.TheVariants.{Memory};
ghost use Rattle.qo_layout.specs.Growth.{HasRoom, IsAdded};
ghost use Rattle.qo_layout.specs.declared.wiring.Wiring.TheVariants as wiring;

use qo_irq::{Gate, Net, NetError};

/// How the line of an object is driven.
#[derive(Clone, Copy, Debug, PartialEq, Eq)]
pub enum Wiring {
    /// By an input.
    Own,
    /// By the lines of all that is below it, unless an input is high: a bridge.
    Masked,
    /// By the lines of all that is below it: a bus.
    Joined,
}

/// The line of an object in a net.
#[derive(Clone, Copy, Debug, PartialEq, Eq)]
pub struct Row {
    /// The birth of the object.
    pub object: u64,
    /// The line that is set for it, if there is one.
    pub input: Option<u32>,
    /// Its line.
    pub line: u32,
}

/// Adds a line that is an input.
#[tactic(auto, using(crate::proofs::WiringLemmas::added_memory))]
fn add_own(net: &mut Net, object: u64) -> Result<Row, NetError>
    ensures added { (lines : List ℕ) → IfOk result (λ row. IsAdded wiring.Own object lines net.old net.new row) }
    ensures err { HasRoom net.old → IfErr result (λ e. e ≡ Memory) }
{
    let line = net.add(Gate::Input)?;
    Ok(Row {
        object,
        input: Some(line),
        line,
    })
}

/// Adds a line that is high where one of others is.
#[tactic(auto, using(crate::proofs::WiringLemmas::added_memory))]
fn add_joined(net: &mut Net, object: u64, below: Vec<u32>) -> Result<Row, NetError>
    ensures added { IfOk result (λ row. IsAdded wiring.Joined object below.items net.old net.new row) }
    ensures err { HasRoom net.old → names_below (length net.old) (or below.items) ≡ true → IfErr result (λ e. e ≡ Memory) }
{
    let line = net.add(Gate::Or(below))?;
    Ok(Row {
        object,
        input: None,
        line,
    })
}

/// Adds a line that is high where one of others is, unless an input is.
#[tactic(auto, using(crate::proofs::WiringLemmas::added_memory))]
fn add_masked(net: &mut Net, object: u64, below: Vec<u32>) -> Result<Row, NetError>
    ensures added { IfOk result (λ row. IsAdded wiring.Masked object below.items net.old net.new row) }
    ensures err { HasRoom net.old → names_below (length net.old) (or below.items) ≡ true → IfErr result (λ e. e ≡ Memory) }
{
    let join = net.add(Gate::Or(below))?;
    let mask = net.add(Gate::Input)?;
    let line = net.add(Gate::Off(join, mask))?;
    Ok(Row {
        object,
        input: Some(mask),
        line,
    })
}

/// Adds the line of an object, where the lines of all that is below it are there. The one error is want
/// of memory, where there is room.
pub(crate) fn add_line(
    net: &mut Net,
    wiring: Wiring,
    object: u64,
    below: Vec<u32>,
) -> Result<Row, NetError>
    ensures added { IfOk result (λ row. IsAdded wiring object below.items net.old net.new row) }
    ensures err { HasRoom net.old → names_below (length net.old) (or below.items) ≡ true → IfErr result (λ e. e ≡ Memory) }
{
    match wiring {
        Wiring::Own => add_own(net, object),
        Wiring::Masked => add_masked(net, object, below),
        Wiring::Joined => add_joined(net, object, below),
    }
}
