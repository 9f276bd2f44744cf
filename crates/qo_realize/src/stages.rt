//! Adding a device in stages (docs/PROFILE.md): it is begun, placed and finished, or abandoned. What
//! holds the board meanwhile is a type of its own, so that no other call comes between.

ghost use Rattle.std.specs.Prelude.{◌≡◌};
ghost use Rattle.qo_model.specs.Board as model;
ghost use Rattle.qo_model.specs.Plug.{Wanted};
ghost use Rattle.qo_plug.specs.Admission.{as_wanted};
ghost use Rattle.qo_clocks.specs.Kept.{PeriodsKept};
ghost use Rattle.qo_reset.specs.Counts.{CountsKept};
ghost use Rattle.qo_realize.specs.BoardClaims.{KeepsClaims};
ghost use Rattle.qo_realize.specs.Parts.{parts_of};
ghost use Rattle.qo_realize.specs.Stages.{Begins, Finishes, IsDrafted, IsPlugged, Places, given_up};
ghost use Rattle.qo_realize.specs.Representation.{Stands, StandsForGood};

use crate::board::{Board, next_anonymous};
use qo_chardev::Rings;
use qo_heap::{Heap, Steps};
use qo_hotplug::Hotplug;
use qo_plug::{
    AddRefusal, Added, AttachedDevice, Barred, DeviceOptions, NewDevice, abandon, begin, finish,
    place,
};
use qo_reset::Resets;
use std::alloc::Global;
use std::marker::Model;
use std::sync::ledger::Ledger;

/// Why a device is not added, with the board after that.
#[derive(Drop)]
pub struct NotAdded {
    /// The board.
    pub board: Board,
    /// Why it is not added.
    pub refusal: AddRefusal,
}

/// What stands beside the objects of a board.
struct Beside {
    anonymous: u64,
    running: bool,
    resets: Resets,
    hotplug: Hotplug,
    rings: Rings,
}

/// A board on which a device was begun: it is made, and stands nowhere. It can't be let go: it is
/// spent by `place` or `abandon`.
pub struct Draft {
    heap: Heap,
    beside: Beside,
    next: u64,
    begun: NewDevice,
}

impl Model for Draft {
    ghost use Rattle.qo_model.specs.Board.{Board};
    ghost use Rattle.qo_model.specs.Plug.{Wanted};
    ghost use Rattle.qo_plug.specs.Stages.{IsHeld};
    ghost use Rattle.qo_realize.specs.Parts.{parts_of};
    ghost use Rattle.qo_realize.specs.Stages.{DraftParts, DraftOfGood};

    ghost Value = { DraftParts };

    ghost view = { λ d. record { parts = parts_of d.beside.rings d.beside.anonymous d.beside.running d.beside.resets d.beside.hotplug d.heap; next = d.next; begun = d.begun } };

    ghost invariant = { λ d. IsHeld d.begun d.heap × DraftOfGood (record { parts = parts_of d.beside.rings d.beside.anonymous d.beside.running d.beside.resets d.beside.hotplug d.heap; next = d.next; begun = d.begun }) };
}

/// A board on which a device was placed, and is not finished yet. It can't be let go: it is spent by
/// `finish`.
pub struct Plugged {
    heap: Heap,
    beside: Beside,
    next: u64,
    placed: AttachedDevice,
}

impl Model for Plugged {
    ghost use Rattle.qo_plug.specs.Stages.{IsReady};
    ghost use Rattle.qo_realize.specs.Parts.{parts_of};
    ghost use Rattle.qo_realize.specs.Stages.{PluggedParts, PluggedOnGood};

    ghost Value = { PluggedParts };

    ghost view = { λ p. record { parts = parts_of p.beside.rings p.beside.anonymous p.beside.running p.beside.resets p.beside.hotplug p.heap; next = p.next; placed = p.placed } };

    ghost invariant = { λ p. IsReady p.placed p.beside.hotplug p.heap × PluggedOnGood (record { parts = parts_of p.beside.rings p.beside.anonymous p.beside.running p.beside.resets p.beside.hotplug p.heap; next = p.next; placed = p.placed }) };
}

/// The objects of a board, and what stands beside them.
fn parts(board: Board) -> (Heap, Beside)
    ensures whole { parts_of result.1.rings result.1.anonymous result.1.running result.1.resets result.1.hotplug result.0 ≡ board }
    ensures good { StandsForGood board }
    ensures claims { KeepsClaims result.0 }
    ensures counts { CountsKept result.1.resets.births result.0 }
    ensures periods { PeriodsKept result.0 }
{
    let Board {
        heap,
        anonymous,
        running,
        resets,
        hotplug,
        rings,
    } = board;
    let beside = Beside {
        anonymous,
        running,
        resets,
        hotplug,
        rings,
    };
    (heap, beside)
}

/// The board of its objects, and of what stands beside them.
fn board_of(heap: Heap, beside: Beside) -> Board
    requires { StandsForGood (parts_of beside.rings beside.anonymous beside.running beside.resets beside.hotplug heap) × KeepsClaims heap × CountsKept beside.resets.births heap × PeriodsKept heap }
    ensures { result ≡ parts_of beside.rings beside.anonymous beside.running beside.resets beside.hotplug heap }
{
    let Beside {
        anonymous,
        running,
        resets,
        hotplug,
        rings,
    } = beside;
    Board {
        heap,
        anonymous,
        running,
        resets,
        hotplug,
        rings,
    }
}

impl Board {
    /// Begins a device, as `add` does, by the stages 1 to 4: nothing of its type, its id, its bus, the
    /// room for its objects and what is given for its properties refuses it, and it is made. Refused,
    /// as by `add`, by the first condition of these stages that stands: with `E20`, `E21` or `E22` (stage
    /// 1), `E23`, `E24` or `E15` (2), `E25`, `E26` or `E27` (3), `E43`, or a code of a property (4). Where
    /// memory wants, the board is as it was, or an attempt was cut.
    pub fn begin<L: Ledger>(
        self,
        options: &DeviceOptions<'_>,
        alloc: Global,
        steps: &mut Steps<L>,
    ) -> Result<Draft, NotAdded>
        ensures { (b : model.Board) → Stands b self → Begins b (as_wanted options.now) result }
    {
        let (mut heap, beside) = parts(self);
        let Some(next) = next_anonymous(beside.anonymous, options.id) else {
            return Err(NotAdded {
                board: board_of(heap, beside),
                refusal: AddRefusal::Memory,
            });
        };
        match begin(
            &mut heap,
            &beside.resets,
            &beside.hotplug,
            &beside.rings,
            beside.anonymous,
            options,
            alloc,
            steps,
        ) {
            Ok(begun) => Ok(Draft {
                heap,
                beside,
                next,
                begun,
            }),
            Err(refusal) => Err(NotAdded {
                board: board_of(heap, beside),
                refusal,
            }),
        }
    }
}

impl Draft {
    /// Places the device, by the stages 5 to 7: it stands in a slot of its bus. Refused, as by `add`, by
    /// the first condition of these stages that stands: with `E28`, `E29`, `E30`, `E42`, or `E38` to `E41`
    /// (stage 5), `E36` or `E37` (6), after an attempt that is given up. Where memory wants, an attempt was cut.
    pub fn place<L: Ledger>(self, alloc: Global, steps: &mut Steps<L>) -> Result<Plugged, NotAdded>
        ensures { (b : model.Board) (a : Wanted) → IsDrafted b a self → Places b a result }
    {
        let Draft {
            mut heap,
            beside,
            next,
            begun,
        } = self;
        match place(&mut heap, &beside.hotplug, begun, alloc, steps) {
            Ok(placed) => Ok(Plugged {
                heap,
                beside,
                next,
                placed,
            }),
            Err(refusal) => Err(NotAdded {
                board: board_of(heap, beside),
                refusal,
            }),
        }
    }

    /// Gives the device up: its births and notes are left. It takes no memory, and always succeeds.
    pub fn abandon<L: Ledger>(self, steps: &mut Steps<L>) -> Board
        ensures { (b : model.Board) (a : Wanted) → IsDrafted b a self → Stands (given_up b self) result }
    {
        let Draft {
            mut heap,
            beside,
            next: _,
            begun,
        } = self;
        abandon(&mut heap, begun, steps);
        board_of(heap, beside)
    }
}

impl Plugged {
    /// Finishes the device, by the last stage: it is realized, goes through the phases, and the guest is
    /// told. Refused with `E44` (stage 8) exactly where as many notices wait as may, after an attempt
    /// that is given up. It takes no memory, and there is no other error.
    pub fn finish<L: Ledger>(self, steps: &mut Steps<L>) -> Result<(Board, Added), NotAdded>
        ensures { (b : model.Board) (a : Wanted) → IsPlugged b a self → Finishes b a result }
    {
        let Plugged {
            mut heap,
            mut beside,
            next,
            placed,
        } = self;
        match finish(
            &mut heap,
            &beside.resets,
            &mut beside.hotplug,
            placed,
            steps,
        ) {
            Ok(added) => {
                beside.anonymous = next;
                Ok((board_of(heap, beside), added))
            }
            Err(Barred { stage, code }) => Err(NotAdded {
                board: board_of(heap, beside),
                refusal: AddRefusal::Refused { stage, code },
            }),
        }
    }
}
