//! Laws over the definitions of lines. Each is a function with no effect, whose contract is the law.

ghost use Rattle.qo_irq.specs.Laws.{LawGates};

/// Where each gate names lower lines, the level of each line is what its gate makes of the levels of
/// the lines that it names.
pub fn law_gates()
    ensures { LawGates }
{}
