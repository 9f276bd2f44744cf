//! The ranges of addresses that are held.

ghost use Rattle.std.specs.Prelude.{◌≡◌, ◌+◌, ◌≤◌, nat_lt, length, position};
ghost use Rattle.std.specs.List.{position_or_len};
ghost use Rattle.qo_values.specs.Placing.{overlap};
ghost use Rattle.qo_claims.specs.Lists.{range_eq};

use crate::errors::ClaimError;
use crate::placing::{WINDOW_END, WINDOW_START, place};
use qo_values::{DIMM_ALIGN, Range};
use std::alloc::{AllocError, Global};
use std::marker::Model;

/// Ranges that lie apart in the window, by rising addresses.
#[derive(Drop)]
pub struct Ranges {
    list: Vec<Range>,
}

impl Model for Ranges {
    ghost use Rattle.std.specs.Prelude.{List};
    ghost use Rattle.qo_values.specs.declared.ranges.Range.{Range};
    ghost use Rattle.qo_values.specs.Placing.{LieApart};

    ghost Value = { List Range };

    ghost view = { λ r. r.list.items };

    ghost invariant = { λ r. LieApart r.list.items };
}

/// The first number after a range, which may be past the last address.
pub fn end(range: Range) -> u128
    ensures { result ≡ range.at + range.size }
{
    u128::from(range.at) + u128::from(range.size)
}

/// Whether two ranges overlap.
pub fn overlap(first: Range, second: Range) -> bool
    ensures { result ≡ overlap first second }
{
    u128::from(first.at) < end(second) && u128::from(second.at) < end(first)
}

/// The index of the first range after an address, where there is one.
fn first_after(ranges: &[Range], at: u64) -> Option<usize>
    ensures { result ≡ position (λ held. nat_lt at held.at) ranges.now }
{
    ranges.iter().position(|held| at < held.at)
}

/// The index at which a range of an address goes.
fn index_after(ranges: &[Range], at: u64) -> usize
    ensures index { result ≡ position_or_len (λ held. nat_lt at held.at) ranges.now }
    ensures within { result ≤ length ranges.now }
{
    first_after(ranges, at).unwrap_or(ranges.len())
}

/// The index of a range, where it is there.
fn index_of(ranges: &[Range], range: Range) -> Option<usize>
    ensures { result ≡ position (range_eq range) ranges.now }
{
    ranges
        .iter()
        .position(|held| range.at == held.at && range.size == held.size)
}

impl Ranges {
    ghost use Rattle.std.specs.Prelude.{[], true, false, IfOk, OnOk, OnErr};
    ghost use Rattle.qo_values.specs.Placing.{LieApart, is_in_window, overlaps_any};
    ghost use Rattle.qo_claims.specs.Answers.{Took};
    ghost use Rattle.qo_claims.specs.Lists.{with_range, without_range, range_answer};

    pub fn new(alloc: Global) -> Ranges
        ensures { result ≡ [] }
    {
        Ranges {
            list: Vec::new(alloc),
        }
    }

    /// The ranges.
    pub fn list(&self) -> &[Range]
        ensures { result.now ≡ self.now }
    {
        &self.list
    }

    /// Whether a range overlaps one of the ranges.
    fn overlaps_any(&self, range: Range) -> bool
        ensures { result ≡ overlaps_any range self.now }
    {
        self.list.iter().any(|held| overlap(range, *held))
    }

    /// The range to claim: the one that is named, or one at its place.
    fn choose(&self, at: Option<u64>, size: u64) -> Result<Range, ClaimError>
        requires { 1 ≤ size }
        ensures answer { result ≡ range_answer at size self.now }
        ensures free { IfOk result (λ range. (range.size ≡ size) × (is_in_window range ≡ true) × (overlaps_any range self.now ≡ false)) }
    {
        let Some(at) = at else {
            return match place(&self.list, size, DIMM_ALIGN) {
                Some(at) => Ok(Range { at, size }),
                None => Err(ClaimError::Full),
            };
        };
        let named = Range { at, size };
        if at < WINDOW_START || at > WINDOW_END || size > WINDOW_END - at {
            return Err(ClaimError::Range);
        }
        if self.overlaps_any(named) {
            return Err(ClaimError::Taken);
        }
        Ok(named)
    }

    /// Adds a range that lies in the window and overlaps none. An error adds nothing.
    fn add(&mut self, range: Range) -> Result<(), AllocError>
        requires some { 1 ≤ range.size }
        requires inside { is_in_window range ≡ true }
        requires free { overlaps_any range self.old ≡ false }
        ensures added { OnOk result (self.new ≡ with_range range self.old) }
        ensures err { OnErr result (self.new ≡ self.old) }
    {
        let index = index_after(&self.list, range.at);
        self.list.insert(index, range)?;
        Ok(())
    }

    /// Claims a range, at the named address or at its place. An error claims nothing.
    pub fn take(&mut self, at: Option<u64>, size: u64) -> Result<Range, ClaimError>
        requires { 1 ≤ size }
        ensures { Took (range_answer at size self.old) (λ range. with_range range self.old) self.old self.new result }
    {
        let chosen = self.choose(at, size)?;
        self.add(chosen)?;
        Ok(chosen)
    }

    /// Ends the claim on a range, where it is taken. It takes no memory.
    pub fn give_back(&mut self, range: Range)
        ensures { self.new ≡ without_range range self.old }
    {
        if let Some(index) = index_of(&self.list, range) {
            self.list.remove(index);
        }
    }
}
