//! The registers of a bridge, as a guest reads and writes them, and its reset phases.

ghost use Rattle.std.specs.Prelude.{◌≡◌, ◌%◌, ◌==◌, ◌&&◌, ℕ, IfNone, false, if◌then◌else◌, not, option_map};
ghost use Rattle.qo_values.specs.Registers.{body_act, bridge_read, bridge_write, nothing, pulse, bridge};
ghost use Rattle.qo_kinds.specs.Effects.{shown_effect};

use crate::effects::Effect;
use qo_values::Act;
use std::marker::Model;

/// Register 0: bit 0 pulses the bridge's bus where it rises.
const CTRL: u8 = 0;
/// Register 1, read only: the count of hold phases since the birth.
const HOLDS: u8 = 1;

/// The registers of a bridge.
#[derive(Debug, Drop)]
pub struct Bridge {
    /// Whether bit 0 of CTRL is raised.
    raised: bool,
    /// How many hold phases there were.
    holds: u32,
}

impl Model for Bridge {
    ghost use Rattle.qo_values.specs.Registers.{BridgeRegisters};

    ghost Value = { BridgeRegisters };

    ghost view = { λ b. record { raised = b.raised; holds = b.holds } };
}

impl Bridge {
    /// A bridge at birth: its bit is not raised.
    pub fn fresh() -> Bridge
        ensures { result ≡ record { raised = false; holds = 0 } }
    {
        Bridge {
            raised: false,
            holds: 0,
        }
    }

    /// An act.
    pub fn act(&mut self, act: Act)
        ensures { (time period : ℕ) → bridge self.new ≡ body_act act time period (bridge self.old) }
    {
        match act {
            Act::Enter | Act::Wake => self.raised = false,
            Act::Hold => self.holds = self.holds.saturating_add(1),
            _ => {}
        }
    }

    /// What register `reg` reads. `None` is a register that is absent.
    pub fn read(&self, reg: u8) -> Option<u32>
        ensures { result ≡ bridge_read self.now reg }
    {
        match reg {
            CTRL => Some(u32::from(self.raised)),
            HOLDS => Some(self.holds),
            _ => None,
        }
    }

    /// A write to CTRL, and what it does beside.
    fn control(&mut self, value: u32) -> Effect
        ensures written { self.new ≡ record self.old { raised = value % 2 == 1 } }
        ensures effect { shown_effect result ≡ (if (value % 2 == 1) && not self.old.raised then pulse else nothing) }
    {
        let rises = value % 2 == 1 && !self.raised;
        self.raised = value % 2 == 1;
        if rises {
            Effect::Pulse
        } else {
            Effect::Nothing
        }
    }

    /// Writes `value` to register `reg`. `None` is a register that is absent; the bridge is then as
    /// before.
    pub fn write(&mut self, reg: u8, value: u32) -> Option<Effect>
        ensures written { option_map (λ effect. (bridge self.new, shown_effect effect)) result ≡ bridge_write self.old reg value }
        ensures absent { IfNone result (self.new ≡ self.old) }
    {
        match reg {
            CTRL => Some(self.control(value)),
            HOLDS => Some(Effect::Nothing),
            _ => None,
        }
    }
}
