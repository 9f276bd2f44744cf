//! What no clause says: that the calls succeed with ample memory, at values that may be let go and
//! at values that may not.
ghost use Rattle.std.specs.Prelude.{◌≡◌, ◌+◌, ◌<◌, OnOk};

use qo_slots::{Arena, Key, Steps};
use std::alloc::{AllocError, Global};
use std::marker::Brand;
use std::sync::ledger::{Blank, Ledger};
use std::test::Fail;

/// What a walk through a table of numbers saw.
#[derive(Drop)]
struct Seen {
    first: Key,
    second: Key,
    looked: u64,
    taken: u64,
    third: Key,
    left: u64,
}

/// Puts two numbers, changes the second, takes the first and puts a third in its place.
fn walk_numbers<L: Ledger>(slots: &mut Arena<u64>, steps: &mut Steps<L>) -> Result<Seen, AllocError>
    ensures { OnOk result (steps.new ≡ steps.old + 6) }
{
    slots.reserve(2)?;
    let first = slots.put(10, steps);
    let second = slots.put(20, steps);
    *slots.change(second, steps) = 21;
    let looked = *slots.look(second, steps);
    let taken = slots.take(first, steps);
    slots.reserve(1)?;
    let third = slots.put(30, steps);
    Ok(Seen {
        first,
        second,
        looked,
        taken,
        third,
        left: 0,
    })
}

/// The values that a table still holds, the first ones in the higher digits.
fn digits_left(slots: Arena<u64>) -> u64 {
    let mut left = 0u64;
    let mut rest = slots.into_rest();
    while let Some(value) = rest.next() {
        left = left.wrapping_mul(100).wrapping_add(value);
    }
    rest.end();
    left
}

fn seen_numbers<L: Ledger>(alloc: Global, blank: Blank) -> Result<Seen, AllocError>
    requires name { blank.name ≡ L.name }
    requires parts { blank.parts ≡ L.parts }
    requires some { 0 < blank.parts }
{
    let mut steps = Steps::<L>::from_blank(blank);
    let mut slots = Arena::new(alloc);
    let walked = walk_numbers(&mut slots, &mut steps);
    let left = digits_left(slots);
    Ok(Seen { left, ..walked? })
}

#[test]
fn table_of_numbers(rt: HostRuntime) -> Result<(), Fail> {
    let seen = seen_numbers::<Brand>(rt.alloc(), Blank::new(1))?;
    assert_eq!(rt; seen.first, Key { index: 0, birth: 1 });
    assert_eq!(rt; seen.second, Key { index: 1, birth: 2 });
    assert_eq!(rt; seen.looked, 21);
    assert_eq!(rt; seen.taken, 10);
    assert_eq!(rt; seen.third, Key { index: 0, birth: 3 });
    assert_eq!(rt; seen.left, 3021);
    Ok(())
}

/// A value that may not be let go.
struct Token {
    number: u64,
}

/// Takes a token apart.
fn spend(token: Token) -> u64 {
    let Token { number } = token;
    number
}

/// Puts a token, changes it and takes it back.
fn walk_tokens<L: Ledger>(alloc: Global, blank: Blank) -> Result<u64, AllocError>
    requires name { blank.name ≡ L.name }
    requires parts { blank.parts ≡ L.parts }
    requires some { 0 < blank.parts }
{
    let mut steps = Steps::<L>::from_blank(blank);
    let mut slots = Arena::new(alloc);
    if slots.reserve(1).is_err() {
        slots.destroy_empty();
        return Err(AllocError);
    }
    let key = slots.put(Token { number: 7 }, &mut steps);
    slots.change(key, &mut steps).number = 8;
    let looked = slots.look(key, &mut steps).number;
    let number = spend(slots.take(key, &mut steps));
    slots.destroy_empty();
    Ok(looked.wrapping_mul(10).wrapping_add(number))
}

#[test]
fn table_of_tokens(rt: HostRuntime) -> Result<(), Fail> {
    assert_eq!(rt; size_of::<Steps<Brand>>(), 0);
    assert_eq!(rt; walk_tokens::<Brand>(rt.alloc(), Blank::new(1))?, 88);
    Ok(())
}
