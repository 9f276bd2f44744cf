//! Objects by path and by birth, and the texts that name them.

ghost use Rattle.std.specs.Prelude.{◌≡◌, ◌++◌, codes, decimal, string_bytes, IfOk};
ghost use Rattle.qo_model.specs.Board.{Board};
ghost use Rattle.qo_model.specs.Properties.{object_at, path_text, target_text};
ghost use Rattle.qo_object.specs.BoardObject.{birth_of};
ghost use Rattle.qo_heap.specs.Rows.{IsLive};
ghost use Rattle.qo_heap.specs.Board.{Shows};
ghost use Rattle.qo_properties.specs.Reads.{birth_told};

use itoa::Buffer;
use qo_heap::{Heap, Oid, Steps};
use qo_paths::{PathError, canonical, resolve};
use qo_values::Code;
use std::alloc::{AllocError, Global};
use std::sync::ledger::Ledger;

/// The object at a path; refused where there is none, or several.
pub fn object_at<L: Ledger>(heap: &Heap, path: &str, steps: &mut Steps<L>) -> Result<Oid, Code>
    ensures object { (b : Board) → Shows b heap.now → birth_told result ≡ object_at b path.now }
    ensures live { IfOk result (IsLive heap.now.rows) }
{
    match resolve(heap, path, "object", steps) {
        Ok(o) => Ok(o),
        Err(PathError::NotFound) => Err(Code::E15),
        Err(PathError::Ambiguous) => Err(Code::E16),
    }
}

/// The text of a detached object: `detached:` and its birth.
fn detached_text(birth: u64, alloc: Global) -> Result<String, AllocError>
    ensures { IfOk result (λ text. string_bytes text ≡ codes "detached:" ++ decimal birth) }
{
    let mut text = String::from_str(alloc, "detached:")?;
    let mut digits = Buffer::new();
    text.push_str(digits.format(birth))?;
    Ok(text)
}

/// The text that names an object: its canonical path, or `detached:` and its birth.
pub fn path_text<L: Ledger>(
    heap: &Heap,
    o: Oid,
    alloc: Global,
    steps: &mut Steps<L>,
) -> Result<String, AllocError>
    ensures { (b : Board) → Shows b heap.now → IfOk result (λ text. string_bytes text ≡ path_text b o.birth) }
{
    if let Some(path) = canonical(heap, o, alloc, steps)? {
        return Ok(path);
    }
    detached_text(o.birth, alloc)
}

/// The text that is read of a link: that of its target, or the empty text.
pub fn target_text<L: Ledger>(
    heap: &Heap,
    target: Option<Oid>,
    alloc: Global,
    steps: &mut Steps<L>,
) -> Result<String, AllocError>
    ensures { (b : Board) → Shows b heap.now → IfOk result (λ text. string_bytes text ≡ target_text b (birth_of target)) }
{
    match target {
        Some(o) => path_text(heap, o, alloc, steps),
        None => Ok(String::new(alloc)),
    }
}
