//! Lines whose levels are kept.

ghost use Rattle.std.specs.Prelude.{◌≡◌, ◌<◌, true, false, [], length, slice_set, count_by, OnOk, vec_len, vec_capacity};
ghost use Rattle.qo_irq.specs.Answers.{Added};
ghost use Rattle.qo_irq.specs.Wires.{input, wire_of, wire_at, is_input, line_level};

use crate::connect::connect;
use crate::dependants::Dependants;
use crate::errors::NetError;
use crate::gate::Gate;
use crate::spread::spread;
use std::alloc::{AllocError, Global};
use std::marker::Model;

/// How many lines a net may have.
pub const MAX_LINES: usize = 262_144;

/// Lines, numbered from 0, each driven by a gate over lower lines. The level of each is kept, so that
/// it is read at once, and a change of an input looks only at the lines that depend on it.
#[derive(Drop)]
pub struct Net {
    gates: Vec<Gate>,
    dependants: Vec<Dependants>,
    levels: Vec<bool>,
    /// Which lines wait to be looked at; none does between two calls.
    pending: Vec<bool>,
    inputs: u32,
    alloc: Global,
}

impl Model for Net {
    ghost use Rattle.std.specs.Prelude.{List};
    ghost use Rattle.qo_irq.specs.Wires.{Wire};

    ghost Value = { List Wire };

    ghost use Rattle.qo_irq.specs.Kept.{wires_of, IsKept};

    ghost view = { λ n. wires_of n.gates.items n.levels.items };

    ghost invariant = { λ n. IsKept n.gates.items n.dependants.items n.levels.items n.pending.items n.inputs };
}

/// Makes room for one more line.
fn make_room(
    gates: &mut Vec<Gate>,
    dependants: &mut Vec<Dependants>,
    levels: &mut Vec<bool>,
    pending: &mut Vec<bool>,
) -> Result<(), AllocError>
    ensures kept { (gates.new.items ≡ gates.old.items) × (dependants.new.items ≡ dependants.old.items) × (levels.new.items ≡ levels.old.items) × (pending.new.items ≡ pending.old.items) }
    ensures room { OnOk result ((vec_len gates.new < vec_capacity gates.new) × (vec_len dependants.new < vec_capacity dependants.new) × (vec_len levels.new < vec_capacity levels.new) × (vec_len pending.new < vec_capacity pending.new)) }
{
    gates.reserve(1)?;
    dependants.reserve(1)?;
    levels.reserve(1)?;
    pending.reserve(1)
}

impl Net {
    /// A net without lines. It takes no memory.
    pub fn new(alloc: Global) -> Net
        ensures { result ≡ [] }
    {
        Net {
            gates: Vec::new(alloc),
            dependants: Vec::new(alloc),
            levels: Vec::new(alloc),
            pending: Vec::new(alloc),
            inputs: 0,
            alloc,
        }
    }

    /// Lets all lines go, and keeps its memory for those that are added next. It takes no memory.
    pub fn clear(&mut self)
        ensures { self.new ≡ [] }
    {
        self.gates.clear();
        self.dependants.clear();
        self.levels.clear();
        self.pending.clear();
        self.inputs = 0;
    }

    /// Adds a line, and answers its number: that of the lines before it. An input begins low. An error
    /// adds nothing: `BadRef` where the gate names a line that is not there, else `Full` at `MAX_LINES`
    /// lines, or `Memory`.
    #[inline(always)]
    pub fn add(&mut self, gate: Gate) -> Result<u32, NetError>
        ensures { Added self.old self.new (wire_of gate false) result }
    {
        let line = self.gates.len();
        if !gate.names_below(line) {
            return Err(NetError::BadRef);
        }
        if line >= MAX_LINES {
            return Err(NetError::Full);
        }
        let line = line as u32;
        make_room(
            &mut self.gates,
            &mut self.dependants,
            &mut self.levels,
            &mut self.pending,
        )?;
        connect(&mut self.dependants, &gate, line)?;
        let level = gate.level(&self.levels, line);
        self.inputs += gate.input_count();
        self.gates.push_reserved(gate);
        self.levels.push_reserved(level);
        self.pending.push_reserved(false);
        self.dependants.push_reserved(Dependants::new(self.alloc));
        Ok(line)
    }

    /// The level of a line that is there. It takes no memory.
    pub fn level(&self, line: u32) -> bool
        requires { line < length self.now }
        ensures { result ≡ line_level self.now line }
    {
        let _gates = &self.gates;
        self.levels[line as usize]
    }

    /// How many inputs there are. It takes no memory.
    pub fn inputs(&self) -> u32
        ensures { result ≡ count_by is_input self.now }
    {
        self.inputs
    }

    /// Sets an input. It takes no memory.
    pub fn set(&mut self, line: u32, high: bool)
        requires within { line < length self.old }
        requires settable { is_input (wire_at self.old line) ≡ true }
        ensures { self.new ≡ slice_set self.old line (input high) }
    {
        let line = line as usize;
        if self.levels[line] == high {
            return;
        }
        self.levels[line] = high;
        spread(
            &self.gates,
            &self.dependants,
            &mut self.levels,
            &mut self.pending,
            line,
        );
    }
}
