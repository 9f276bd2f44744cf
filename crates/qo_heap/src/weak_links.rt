//! What an object keeps of weak links: the first of those that name it, and a node for each of its
//! own. The links that name an object are a list through the nodes of their owners.

use crate::weak_slots::is_weak;
use qo_object::{Oid, Slot};
use std::alloc::{AllocError, Global};
use std::marker::Model;

/// A weak link: the object that has it, and its number there.
#[derive(Clone, Copy)]
pub struct End {
    /// The object that has it.
    pub owner: Oid,
    /// Its number among the weak links of that object, which it keeps.
    pub id: u64,
}

/// Where a weak link stands in the list of those that name its target. That of a link without a
/// target says nothing.
#[derive(Clone, Copy)]
pub struct Node {
    /// The number of the link.
    pub id: u64,
    /// The link behind it.
    pub next: Option<End>,
    /// The link before it.
    pub prev: Option<End>,
}

/// What an object keeps of weak links.
#[derive(Drop)]
pub struct WeakLinks {
    /// The first weak link that names it.
    first: Option<End>,
    /// One for each of its own weak links, in the order of their slots; the numbers rise.
    nodes: Vec<Node>,
}

impl Model for WeakLinks {
    ghost use Rattle.qo_heap.specs.WeakLinks.{Links};

    ghost Value = { Links };

    ghost view = { λ w. record { first = w.first; nodes = w.nodes.items } };
}

impl Node {
    ghost use Rattle.std.specs.Prelude.{◌≡◌};
    ghost use Rattle.qo_heap.specs.WeakLinks.{new_node};

    /// A node of a number, in no list.
    fn new(id: u64) -> Node
        ensures { result ≡ new_node id }
    {
        Node {
            id,
            next: None,
            prev: None,
        }
    }
}

impl WeakLinks {
    ghost use Rattle.std.specs.Prelude.{◌≡◌, ◌<◌, ◌==◌, [], ◌∷◌, ◌++◌, ◌+◌, IfSome, IfNone, OnOk, OnErr, length, option_to_list, position, remove, slice_get};
    ghost use Rattle.std.specs.List.{AllByRecursion};
    ghost use Rattle.std.specs.Option.{option_and_then};
    ghost use Rattle.qo_heap.specs.WeakLinks.{NumbersRise, changed_node, new_node, no_links, node_of, weak_name, with_both, with_next, with_prev, without_last};

    /// Nothing names the object, and it has no weak links. It takes no memory.
    pub fn new(alloc: Global) -> WeakLinks
        ensures { result ≡ no_links }
    {
        WeakLinks {
            first: None,
            nodes: Vec::new(alloc),
        }
    }

    /// The first weak link that names the object.
    pub fn first(&self) -> Option<End>
        ensures { result ≡ self.now.first }
    {
        self.first
    }

    /// Has another be the first that names the object, and answers which was.
    pub fn set_first(&mut self, first: Option<End>) -> Option<End>
        ensures now { self.new ≡ record self.old { first = first } }
        ensures answer { result ≡ self.old.first }
    {
        let before = self.first;
        self.first = first;
        before
    }

    /// The place of the node of a number.
    pub fn place_of(&self, id: u64) -> Option<usize>
        ensures { result ≡ position (λ x. x.id == id) self.now.nodes }
    {
        self.nodes.iter().position(|node| node.id == id)
    }

    /// The node at a place.
    pub fn node_at(&self, place: usize) -> Option<Node>
        ensures { result ≡ slice_get self.now.nodes place }
    {
        self.nodes.get(place).copied()
    }

    /// The link behind that of a number.
    pub fn next_of(&self, id: u64) -> Option<End>
        ensures { result ≡ option_and_then (λ x. x.next) (node_of self.now.nodes id) }
    {
        let place = self.place_of(id)?;
        let node = self.node_at(place)?;
        node.next
    }

    /// Has another stand before the link of a number.
    pub fn set_prev(&mut self, id: u64, prev: Option<End>)
        ensures { self.new ≡ record self.old { nodes = changed_node id (with_prev prev) self.old.nodes } }
    {
        if let Some(place) = self.place_of(id) {
            self.nodes[place].prev = prev;
        }
    }

    /// Has another stand behind the link of a number.
    pub fn set_next(&mut self, id: u64, next: Option<End>)
        ensures { self.new ≡ record self.old { nodes = changed_node id (with_next next) self.old.nodes } }
    {
        if let Some(place) = self.place_of(id) {
            self.nodes[place].next = next;
        }
    }

    /// Has the link of a number be the first of a list, with another behind it.
    pub fn set_front(&mut self, id: u64, next: Option<End>)
        ensures { self.new ≡ record self.old { nodes = changed_node id (with_both None next) self.old.nodes } }
    {
        if let Some(place) = self.place_of(id) {
            self.nodes[place] = Node {
                prev: None,
                next,
                ..self.nodes[place]
            };
        }
    }

    /// The number that a further link of its own gets: above those that it has. `None` where none is left.
    fn next_number(&self) -> Option<u64>
        requires { NumbersRise self.now.nodes }
        ensures { IfSome result (λ id. AllByRecursion (λ x. x.id < id) self.now.nodes) }
    {
        match self.nodes.last() {
            Some(node) => node.id.checked_add(1),
            None => Some(0),
        }
    }

    /// Adds a node after the others, in no list, and answers its number. `None` where memory runs out,
    /// or no number is left; the nodes are then as before.
    pub fn add(&mut self) -> Option<u64>
        requires { NumbersRise self.old.nodes }
        ensures added { IfSome result (λ id. self.new ≡ record self.old { nodes = self.old.nodes ++ new_node id ∷ [] }) }
        ensures above { IfSome result (λ id. AllByRecursion (λ x. x.id < id) self.old.nodes) }
        ensures none { IfNone result (self.new ≡ self.old) }
    {
        let id = self.next_number()?;
        self.nodes.push(Node::new(id)).ok()?;
        Some(id)
    }

    /// Adds a node for a slot that is a weak link; any other needs none. The error is want of memory or
    /// of numbers.
    pub fn add_for(&mut self, slot: &Slot) -> Result<(), AllocError>
        requires { NumbersRise self.old.nodes }
        ensures more { OnOk result (length self.new.nodes ≡ length self.old.nodes + length (option_to_list (weak_name slot.now))) }
        ensures rise { NumbersRise self.new.nodes }
        ensures err { OnErr result (self.new ≡ self.old) }
    {
        if !is_weak(slot) {
            return Ok(());
        }
        match self.add() {
            Some(_id) => Ok(()),
            None => Err(AllocError),
        }
    }

    /// Has the nodes of another in the place of its own.
    pub fn set_nodes(&mut self, from: WeakLinks)
        ensures { self.new ≡ record self.old { nodes = from.nodes } }
    {
        let WeakLinks { first: _, nodes } = from;
        self.nodes = nodes;
    }

    /// Takes the last node away again.
    pub fn remove_last(&mut self)
        ensures { self.new ≡ record self.old { nodes = without_last self.old.nodes } }
    {
        self.nodes.pop();
    }

    /// Removes the node at a place.
    pub fn remove(&mut self, place: usize)
        ensures { self.new ≡ record self.old { nodes = remove self.old.nodes place } }
    {
        if place < self.nodes.len() {
            self.nodes.remove(place);
        }
    }
}
