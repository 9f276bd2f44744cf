//! The lists of the weak links that name an object. None of these calls takes memory.

ghost use Rattle.std.specs.Prelude.{◌≡◌, ◌+◌, ◌*◌, ◌≤◌, None, IfSome, length, option_to_list};
ghost use Rattle.qo_heap.specs.Keeping.{plain};
ghost use Rattle.qo_heap.specs.Order.{rows_in, IsOrdered};
ghost use Rattle.qo_heap.specs.Rows.{IsLive, edit};
ghost use Rattle.qo_heap.specs.WeakLinks.{with_both};
ghost use Rattle.qo_heap.specs.WeakLists.{CanJoin, CanLeave, head_in, joined_in, led_in, loosed_in, turned_in, with_first, with_node};

use crate::entries::{Entry, Loose, entry_mut};
use crate::weak_links::End;
use qo_object::Oid;
use qo_slots::{Arena, Steps};
use std::sync::ledger::Ledger;

/// Has another be the first weak link that names an object, and answers which was.
fn set_first<L: Ledger>(
    table: &mut Arena<Entry>,
    order: &Vec<Oid>,
    target: Oid,
    first: Option<End>,
    steps: &mut Steps<L>,
) -> Option<End>
    requires ordered { IsOrdered table.old order.now.items }
    requires live { IsLive (plain (rows_in table.old order.now.items)) target }
    ensures ordered { IsOrdered table.new order.now.items }
    ensures rows { rows_in table.new order.now.items ≡ edit target.birth (with_first first) (rows_in table.old order.now.items) }
    ensures answer { result ≡ head_in (rows_in table.old order.now.items) target.birth }
    ensures born { table.new.born ≡ table.old.born }
    ensures cost { steps.new ≡ steps.old + 1 }
{
    entry_mut(table, order, target, steps)
        .links
        .set_first(first)
}

/// Has a link be the first of a list, with another behind it.
fn set_front<L: Ledger>(
    table: &mut Arena<Entry>,
    order: &Vec<Oid>,
    link: End,
    next: Option<End>,
    steps: &mut Steps<L>,
)
    requires ordered { IsOrdered table.old order.now.items }
    requires live { IsLive (plain (rows_in table.old order.now.items)) link.owner }
    ensures ordered { IsOrdered table.new order.now.items }
    ensures rows { rows_in table.new order.now.items ≡ edit link.owner.birth (with_node link.id (with_both None next)) (rows_in table.old order.now.items) }
    ensures born { table.new.born ≡ table.old.born }
    ensures cost { steps.new ≡ steps.old + 1 }
{
    entry_mut(table, order, link.owner, steps)
        .links
        .set_front(link.id, next);
}

/// Has another stand before a link, if it is one.
fn set_prev<L: Ledger>(
    table: &mut Arena<Entry>,
    order: &Vec<Oid>,
    link: Option<End>,
    prev: Option<End>,
    steps: &mut Steps<L>,
)
    requires ordered { IsOrdered table.old order.now.items }
    requires live { IfSome link (λ e. IsLive (plain (rows_in table.old order.now.items)) e.owner) }
    ensures ordered { IsOrdered table.new order.now.items }
    ensures rows { rows_in table.new order.now.items ≡ turned_in link prev (rows_in table.old order.now.items) }
    ensures born { table.new.born ≡ table.old.born }
    ensures cost { steps.new ≤ steps.old + 1 }
{
    if let Some(link) = link {
        entry_mut(table, order, link.owner, steps)
            .links
            .set_prev(link.id, prev);
    }
}

/// Has another stand behind a link, or be the first that names an object where there is none.
fn set_next<L: Ledger>(
    table: &mut Arena<Entry>,
    order: &Vec<Oid>,
    target: Oid,
    link: Option<End>,
    next: Option<End>,
    steps: &mut Steps<L>,
)
    requires ordered { IsOrdered table.old order.now.items }
    requires live { IsLive (plain (rows_in table.old order.now.items)) target }
    requires owner { IfSome link (λ e. IsLive (plain (rows_in table.old order.now.items)) e.owner) }
    ensures ordered { IsOrdered table.new order.now.items }
    ensures rows { rows_in table.new order.now.items ≡ led_in target.birth link next (rows_in table.old order.now.items) }
    ensures born { table.new.born ≡ table.old.born }
    ensures cost { steps.new ≡ steps.old + 1 }
{
    match link {
        Some(link) => entry_mut(table, order, link.owner, steps)
            .links
            .set_next(link.id, next),
        None => {
            set_first(table, order, target, next, steps);
        }
    }
}

/// Takes a weak link that was let go out of its list, if it was one.
pub fn leave<L: Ledger>(
    table: &mut Arena<Entry>,
    order: &Vec<Oid>,
    loose: Option<Loose>,
    steps: &mut Steps<L>,
)
    requires ordered { IsOrdered table.old order.now.items }
    requires live { IfSome loose (λ l. CanLeave (plain (rows_in table.old order.now.items)) l) }
    ensures ordered { IsOrdered table.new order.now.items }
    ensures rows { rows_in table.new order.now.items ≡ loosed_in loose (rows_in table.old order.now.items) }
    ensures born { table.new.born ≡ table.old.born }
    ensures cost { steps.new ≤ steps.old + 2 }
{
    if let Some(loose) = loose {
        let node = loose.node;
        set_prev(table, order, node.next, node.prev, steps);
        set_next(table, order, loose.target, node.prev, node.next, steps);
    }
}

/// Puts a weak link of an owner at the front of the list of those that name an object, if there is a
/// link and an object.
pub fn join<L: Ledger>(
    table: &mut Arena<Entry>,
    order: &Vec<Oid>,
    owner: Oid,
    id: Option<u64>,
    target: Option<Oid>,
    steps: &mut Steps<L>,
)
    requires ordered { IsOrdered table.old order.now.items }
    requires live { IsLive (plain (rows_in table.old order.now.items)) owner }
    requires target { IfSome target (λ t. CanJoin (rows_in table.old order.now.items) t) }
    ensures ordered { IsOrdered table.new order.now.items }
    ensures rows { rows_in table.new order.now.items ≡ joined_in owner id target (rows_in table.old order.now.items) }
    ensures born { table.new.born ≡ table.old.born }
    ensures cost { steps.new ≤ steps.old + 3 * length (option_to_list id) }
    ensures cost_none { target ≡ None → steps.new ≡ steps.old }
{
    if let (Some(id), Some(target)) = (id, target) {
        let link = End { owner, id };
        let next = set_first(table, order, target, Some(link), steps);
        set_front(table, order, link, next, steps);
        set_prev(table, order, next, Some(link), steps);
    }
}
