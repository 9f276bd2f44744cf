//! What no clause says: which fields a heap and an entry of its table have, so that no object, slot or
//! pin is kept outside the table, and that the table's objects may be ones that may not be let go.
ghost use Rattle.std.specs.Prelude.{◌≡◌, ◌<◌};
ghost use Rattle.qo_heap.specs.Order.{IsOrdered};

use crate::entries::Entry;
use crate::heap::Heap;
use crate::table::{add, into_rest};
use qo_object::Object;
use qo_slots::{Arena, Key, Steps};
use qo_values::TypeId;
use std::alloc::Global;
use std::marker::Brand;
use std::sync::ledger::{Blank, Ledger};
use std::test::Fail;

#[test]
fn a_heap_has_these_fields(rt: HostRuntime) -> Result<(), Fail> {
    let heap = Heap::new(rt.alloc())?;
    let Heap {
        alloc: _,
        table: _,
        order,
        claims: _,
        notes,
        total,
        time,
        events: _,
    } = &heap;
    assert_eq!(rt; order.len(), 0);
    assert_eq!(rt; notes.len(), 0);
    assert_eq!(rt; *total, 0);
    assert_eq!(rt; *time, 0);
    Ok(())
}

#[test]
fn an_entry_has_these_fields(rt: HostRuntime) {
    let entry = Entry::new(rt.alloc(), Object::new(rt.alloc(), TypeId::Tag));
    let Entry {
        object,
        held,
        parent,
        links,
    } = entry;
    assert_eq!(rt; object.pins(), 1);
    assert_eq!(rt; held, 0);
    assert!(rt; parent.is_none());
    assert!(rt; links.first().is_none());
}

/// An object that may not be let go.
struct Token {
    number: u64,
}

/// Takes a token apart.
fn spend(token: Token) -> u64 {
    let Token { number } = token;
    number
}

/// The numbers of the tokens that a table still holds, added up.
fn spend_rest(table: Arena<Token>, order: Vec<Key>) -> u64
    requires { IsOrdered table order.items }
{
    let mut sum = 0u64;
    let mut rest = into_rest(table, order);
    while let Some(token) = rest.next() {
        sum = sum.wrapping_add(spend(token));
    }
    rest.end();
    sum
}

/// The birth of an added token; 0 where it came back.
fn added<L: Ledger>(
    table: &mut Arena<Token>,
    order: &mut Vec<Key>,
    number: u64,
    steps: &mut Steps<L>,
) -> u64
    requires { IsOrdered table.old order.old.items }
    ensures { IsOrdered table.new order.new.items }
{
    match add(table, order, Token { number }, steps) {
        Ok(key) => key.birth,
        Err(token) => {
            spend(token);
            0
        }
    }
}

fn tokens_in<L: Ledger>(alloc: Global, blank: Blank) -> (u64, u64, u64)
    requires name { blank.name ≡ L.name }
    requires parts { blank.parts ≡ L.parts }
    requires some { 0 < blank.parts }
{
    let mut steps = Steps::<L>::from_blank(blank);
    let mut table = Arena::new(alloc);
    let mut order = Vec::new(alloc);
    let first = added(&mut table, &mut order, 7, &mut steps);
    let second = added(&mut table, &mut order, 8, &mut steps);
    (first, second, spend_rest(table, order))
}

/// The births of two tokens, and the sum of what a table of them is given up for.
fn tokens(alloc: Global) -> (u64, u64, u64) {
    tokens_in::<Brand>(alloc, Blank::new(1))
}

#[test]
fn objects_that_may_not_be_let_go(rt: HostRuntime) {
    let (first, second, sum) = tokens(rt.alloc());
    assert_eq!(rt; first, 1);
    assert_eq!(rt; second, 2);
    assert_eq!(rt; sum, 15);
}
