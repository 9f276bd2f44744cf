//! The interrupt lines of a board.

ghost use Rattle.std.specs.Prelude.{◌≡◌, [], IfErr, IfOk};
ghost use Rattle.qo_heap.specs.Board.{Shows};
ghost use Rattle.qo_irq.specs.declared.errors.NetError.TheVariants.{Memory};
ghost use Rattle.qo_layout.specs.Lines.{irq_of};
ghost use Rattle.qo_layout.specs.Registers.{AreTimely};
ghost use Rattle.qo_layout.specs.Rows.{AreShaped, LinesAre};
ghost use Rattle.qo_model.specs.Board.{Board};
ghost use Rattle.qo_clocks.specs.Kept.{Clocked};
ghost use Rattle.qo_sound_devices.specs.SoundDevices.{SoundDevices};
ghost use Rattle.qo_sound_shapes.specs.SoundShape.{SoundShape};

use crate::inputs::set_inputs;
use crate::numbering::list_mapped;
use crate::rows::add_objects;
use crate::slots::{list_slots, slot_bits};
use crate::wiring::Row;
use qo_heap::{Heap, Oid, Steps};
use qo_irq::{Net, NetError};
use std::alloc::Global;
use std::marker::Model;
use std::sync::ledger::Ledger;

/// The interrupt lines of a board: a net with a line for each object below the buses of the machine, each
/// after those of all that is below it.
#[derive(Drop)]
pub struct Lines {
    net: Net,
    rows: Vec<Row>,
    /// The line of the device in each slot of the root bus.
    slots: Vec<Option<u32>>,
    /// The objects of the rows, which are looked at only while the lines are made.
    objects: Vec<Oid>,
}

impl Model for Lines {
    ghost use Rattle.qo_layout.specs.Rows.{AreRows, AreThere, Wired};

    ghost Value = { Wired };

    ghost view = { λ l. record { wires = l.net; rows = l.rows.items; slots = l.slots.items } };

    ghost invariant = { λ l. AreRows l.rows.items l.net × AreThere l.slots.items l.net };
}

impl Lines {
    /// No lines. It takes no memory.
    pub fn none(alloc: Global) -> Lines
        ensures { result ≡ record { wires = []; rows = []; slots = [] } }
    {
        Lines {
            net: Net::new(alloc),
            rows: Vec::new(alloc),
            slots: Vec::new(alloc),
            objects: Vec::new(alloc),
        }
    }

    /// The lines of the board of a heap. On a sound board the one error is want of memory, `Memory`; on
    /// another one `BadRef` comes where what is below an object has no line, and `Full` at `MAX_LINES` lines.
    pub fn make<L: Ledger>(
        alloc: Global,
        heap: &Heap,
        steps: &mut Steps<L>,
    ) -> Result<Lines, NetError>
        requires { AreTimely heap.now }
        ensures lines { (b : Board) → Shows b heap.now → SoundShape b → Clocked b heap.now → IfOk result (λ lines. LinesAre b lines) }
        ensures err { (b : Board) → Shows b heap.now → SoundDevices b → SoundShape b → IfErr result (λ e. e ≡ Memory) }
    {
        Lines::none(alloc).remade(alloc, heap, steps)
    }

    /// The same, in the memory of these lines, which are let go.
    pub fn remade<L: Ledger>(
        self,
        alloc: Global,
        heap: &Heap,
        steps: &mut Steps<L>,
    ) -> Result<Lines, NetError>
        requires { AreTimely heap.now }
        ensures lines { (b : Board) → Shows b heap.now → SoundShape b → Clocked b heap.now → IfOk result (λ lines. LinesAre b lines) }
        ensures err { (b : Board) → Shows b heap.now → SoundDevices b → SoundShape b → IfErr result (λ e. e ≡ Memory) }
    {
        heap.reveal_invariant();
        let Lines {
            mut net,
            mut rows,
            mut slots,
            mut objects,
        } = self;
        list_mapped(heap, &mut objects, steps)?;
        add_objects(alloc, heap, &objects, &mut net, &mut rows, steps)?;
        list_slots(heap, &rows, &mut slots, steps)?;
        set_inputs(&mut net, &rows, heap, steps);
        Ok(Lines {
            net,
            rows,
            slots,
            objects,
        })
    }

    /// Reads all registers that lines hang on again, where no object has come below a bus of the machine,
    /// or has gone, since the lines were made. It takes no memory.
    pub fn refresh<L: Ledger>(&mut self, heap: &Heap, steps: &mut Steps<L>)
        requires { AreTimely heap.now }
        ensures { (b : Board) → Shows b heap.now → Clocked b heap.now → AreShaped b self.old → LinesAre b self.new }
    {
        set_inputs(&mut self.net, &self.rows, heap, steps);
    }

    /// A number whose bit N is the line of the device in slot N of the root bus. It takes no memory.
    pub fn irq(&self) -> u32
        ensures { (b : Board) → SoundDevices b → LinesAre b self.now → result ≡ irq_of b }
    {
        let _rows = &self.rows;
        slot_bits(&self.net, &self.slots)
    }
}
