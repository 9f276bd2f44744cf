//! Registers by their hardware address (docs/devel/memory.rst; the addresses are the profile's).

ghost use Rattle.std.specs.Prelude.{◌≡◌, true, IfNone, IfOk, IfSome, OnErr};
ghost use Rattle.qo_heap.specs.Rows.{IsLive};
ghost use Rattle.qo_model.specs.Board.{Board as Tree};
ghost use Rattle.qo_guest.specs.declared.answers.GuestAnswer.TheVariants.{NoRegister};
ghost use Rattle.qo_realize.specs.Representation.{Stands};
ghost use Rattle.qo_layout.specs.Layout.{register_at};
ghost use Rattle.qo_commands.specs.KeptViews.{HasView};
ghost use Rattle.qo_commands.specs.Hearing.{Came, answered, has_registers, outcome_of, peeked, poked};
ghost use Rattle.qo_commands.specs.Memory.{HasNoRegister};
ghost use Rattle.qo_commands.specs.Touched.{Touches};
ghost use Rattle.qo_commands.specs.declared.touched.Touched.TheVariants.{Nothing};

use crate::hearing::{Heard, answered, read_register, write_register};
use qo_buses::is_of;
use qo_guest::GuestAnswer;
use qo_heap::{Oid, Steps};
use qo_layout::{BOOT_LEAF, KeptView, RegisterPlace};
use qo_realize::Board;
use qo_values::TypeId;
use std::alloc::{AllocError, Global};
use std::sync::ledger::Ledger;

/// The register that shows at a hardware address of the board, of which a view is kept. The board is sound, so
/// that the one error is want of memory.
fn shown_at<L: Ledger>(
    board: &Board,
    view: &mut KeptView,
    at: u64,
    alloc: Global,
    steps: &mut Steps<L>,
) -> Result<Option<RegisterPlace>, AllocError>
    requires { HasView board.now view.old }
    ensures place { (b : Tree) → Stands b board.now → IfOk result (λ place. place ≡ register_at b at) }
    ensures view { HasView board.now view.new }
{
    board.reveal_board();
    match view.register_at(alloc, board.heap(), at, steps) {
        Ok(place) => Ok(place),
        Err(_) => Err(AllocError),
    }
}

/// The device of a place, if it has registers that show: the boot region is no device, and memory has none.
fn device_of<L: Ledger>(board: &Board, place: RegisterPlace, steps: &mut Steps<L>) -> Option<Oid>
    ensures live { IfSome result (IsLive board.now.objects.rows) }
    ensures same { (b : Tree) → Stands b board.now → IfSome result (λ dev. (dev.birth ≡ place.device) × (has_registers b place.device ≡ true)) }
    ensures none { (b : Tree) → Stands b board.now → IfNone result (HasNoRegister b place) }
{
    if place.device == BOOT_LEAF {
        return None;
    }
    let dev = board.heap().by_birth(place.device)?;
    if is_of(board.heap(), dev, TypeId::MemDimm, steps) {
        return None;
    }
    Some(dev)
}

/// The device and the number of the register of a place; `None` where the device has none of its number.
fn register_of<L: Ledger>(
    board: &Board,
    place: RegisterPlace,
    steps: &mut Steps<L>,
) -> Option<(Oid, u8)>
    ensures live { IfSome result (λ r. IsLive board.now.objects.rows r.0) }
    ensures same { (b : Tree) → Stands b board.now → IfSome result (λ r. (r.0.birth ≡ place.device) × (r.1 ≡ place.register) × (has_registers b place.device ≡ true)) }
    ensures none { (b : Tree) → Stands b board.now → IfNone result (HasNoRegister b place) }
{
    let number = u8::try_from(place.register).ok()?;
    Some((device_of(board, place, steps)?, number))
}

/// The guest reads the register that shows at a hardware address. The error is want of memory.
pub(crate) fn peek<L: Ledger>(
    board: &Board,
    view: &mut KeptView,
    at: u64,
    alloc: Global,
    steps: &mut Steps<L>,
) -> Result<Heard, AllocError>
    requires { HasView board.now view.old }
    ensures came { (b : Tree) → Stands b board.now → IfOk result (λ h. outcome_of b h ≡ peeked b (register_at b at)) }
    ensures touched { IfOk result (λ h. h.touched ≡ Nothing) }
    ensures view { HasView board.now view.new }
{
    let Some(place) = shown_at(board, view, at, alloc, steps)? else {
        return Ok(answered(GuestAnswer::NoAddress));
    };
    match register_of(board, place, steps) {
        Some((dev, reg)) => Ok(read_register(board, dev, reg, steps)),
        None => Ok(answered(GuestAnswer::NoRegister)),
    }
}

/// The guest writes to the register that shows at a hardware address. The view that is kept stays that of the
/// board before. The error is want of memory, and leaves the board as it was.
pub(crate) fn poke<L: Ledger>(
    board: &mut Board,
    view: &mut KeptView,
    at: u64,
    value: u32,
    alloc: Global,
    steps: &mut Steps<L>,
) -> Result<Heard, AllocError>
    requires { HasView board.old view.old }
    ensures came { (b : Tree) → Stands b board.old → IfOk result (λ h. Came (poked b value (register_at b at)) h board.new) }
    ensures touched { (b : Tree) → Stands b board.old → IfOk result (λ h. Touches h.touched b (poked b value (register_at b at)).board) }
    ensures view { HasView board.old view.new }
    ensures err { OnErr result (board.new ≡ board.old) }
{
    let Some(place) = shown_at(board, view, at, alloc, steps)? else {
        return Ok(answered(GuestAnswer::NoAddress));
    };
    match register_of(board, place, steps) {
        Some((dev, reg)) => Ok(write_register(board, dev, reg, value, steps)),
        None => Ok(answered(GuestAnswer::NoRegister)),
    }
}
