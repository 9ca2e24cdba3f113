ghost use Rattle.std.specs.Prelude.{◌≡◌, ℕ, ◌<◌, ◌^◌, ◌-◌, ◌++◌, ◌↔◌, [], Some, None, IsTrue};
ghost use Rattle.std.specs.Prelude.{IsSome, is_ok, if◌then◌else◌, length, replicate};
ghost use Rattle.rb_pairing.specs.Nodes.{vacant, expiry_of, child_of, next_of, previous_of, moment_of, with_expiry};
ghost use Rattle.rb_pairing.specs.Changes.{SetsPrevious, SetsLink, SetsPlace, SetsChild, ClearsLinks};

use crate::node::Node;
use std::alloc::{AllocError, Global};
use std::marker::Model;

/// The slots of the room, each with its node. Contracts see the list of the nodes.
///
/// Each call other than `reserve` and `clear` reads or writes one node.
#[derive(Debug, Drop)]
pub(crate) struct Nodes {
    slots: Vec<Node>,
}

impl Model for Nodes {
    ghost use Rattle.std.specs.Prelude.{List};
    ghost use Rattle.rb_pairing.specs.declared.node.Node.{Node};

    ghost Value = { List Node };

    ghost view = { λ nodes. nodes.slots.items };
}

impl Nodes {
    /// No slots. It takes no memory until `reserve`.
    pub(crate) fn new(alloc: Global) -> Self
        ensures { result ≡ [] }
    {
        Nodes {
            slots: Vec::new(alloc),
        }
    }

    /// How many slots there are.
    pub(crate) fn room(&self) -> usize
        ensures { result ≡ length self.now }
    {
        self.slots.len()
    }

    /// Makes room for at least `wanted` slots. On `Err` there was not enough memory, and the slots are
    /// unchanged.
    pub(crate) fn reserve(&mut self, wanted: usize) -> Result<(), AllocError>
        ensures { self.new ≡ self.old ++ replicate (if is_ok result then wanted - length self.old else 0) vacant }
    {
        if wanted > self.slots.len() {
            self.slots.resize(wanted, Node::vacant())?;
        }
        Ok(())
    }

    /// Removes every entry, and keeps the room.
    pub(crate) fn clear(&mut self)
        ensures { self.new ≡ replicate (length self.old) vacant }
    {
        self.slots.fill(Node::vacant());
    }

    /// The expiry of the slot's entry, in nanoseconds, if it has one.
    pub(crate) fn expiry(&self, slot: usize) -> Option<u64>
        ensures { result ≡ expiry_of self.now slot }
    {
        self.slots.get(slot)?.expiry()
    }

    /// The expiry of the slot's entry, in nanoseconds.
    pub(crate) fn moment(&self, slot: usize) -> u64
        requires { IsSome (expiry_of self.now slot) }
        ensures { result ≡ moment_of self.now slot }
    {
        self.slots[slot].moment()
    }

    /// The first entry of the row under that one.
    pub(crate) fn child(&self, slot: usize) -> Option<usize>
        requires { slot < length self.now }
        ensures { result ≡ child_of self.now slot }
    {
        self.slots[slot].child()
    }

    /// Whether the entry at `slot` is the first of the row under `parent`.
    pub(crate) fn is_first(&self, parent: usize, slot: usize) -> bool
        requires parent { parent < length self.now }
        requires slot { slot < length self.now }
        ensures { IsTrue result ↔ (child_of self.now parent ≡ Some slot) }
    {
        self.slots[parent].is_above(slot)
    }

    /// The entry after that one in its row.
    pub(crate) fn next(&self, slot: usize) -> Option<usize>
        requires { slot < length self.now }
        ensures { result ≡ next_of self.now slot }
    {
        self.slots[slot].next()
    }

    /// The entry before that one in its row, or for the first of a row the parent.
    pub(crate) fn previous(&self, slot: usize) -> Option<usize>
        requires { slot < length self.now }
        ensures { result ≡ previous_of self.now slot }
    {
        self.slots[slot].previous()
    }

    /// Notes what comes before that entry, if there is one.
    pub(crate) fn set_previous(&mut self, slot: Option<usize>, previous: Option<usize>)
        requires slot { (other : ℕ) → slot ≡ Some other → other < length self.old }
        requires previous { (other : ℕ) → previous ≡ Some other → other < length self.old }
        ensures { SetsPrevious self.old self.new slot previous }
    {
        if let Some(slot) = slot {
            self.slots[slot].set_previous(previous);
        }
    }

    /// Makes the entry, if there is one, link to `to` instead of `from`, to which it links.
    pub(crate) fn set_link(&mut self, slot: Option<usize>, from: usize, to: Option<usize>)
        requires slot { (other : ℕ) → slot ≡ Some other → other < length self.old }
        requires present { (other : ℕ) → slot ≡ Some other → IsSome (expiry_of self.old other) }
        requires from { from < length self.old }
        requires to { (other : ℕ) → to ≡ Some other → other < length self.old }
        ensures { SetsLink self.old self.new slot from to }
    {
        if let Some(slot) = slot {
            if self.is_first(slot, from) {
                self.slots[slot].set_child(to);
            } else {
                self.slots[slot].set_next(to);
            }
        }
    }

    /// Notes the entry before that one, or the parent, and the entry after it.
    pub(crate) fn set_place(&mut self, slot: usize, previous: Option<usize>, next: Option<usize>)
        requires slot { slot < length self.old }
        requires previous { (other : ℕ) → previous ≡ Some other → other < length self.old }
        requires next { (other : ℕ) → next ≡ Some other → other < length self.old }
        ensures { SetsPlace self.old self.new slot previous next }
    {
        self.slots[slot].set_place(previous, next);
    }

    /// Notes the first entry of the row under that one.
    pub(crate) fn set_child(&mut self, slot: usize, child: usize)
        requires slot { slot < length self.old }
        requires present { IsSome (expiry_of self.old slot) }
        requires child { child < length self.old }
        ensures { SetsChild self.old self.new slot child }
    {
        self.slots[slot].set_child(Some(child));
    }

    /// Removes every link of the entry. The links to it stay.
    pub(crate) fn clear_links(&mut self, slot: usize)
        requires slot { slot < length self.old }
        requires present { IsSome (expiry_of self.old slot) }
        ensures { ClearsLinks self.old self.new slot }
    {
        self.slots[slot].clear_links();
    }

    /// Puts an entry at a slot that has no child.
    pub(crate) fn occupy(&mut self, slot: usize, expiry: u64)
        requires slot { slot < length self.old }
        requires child { child_of self.old slot ≡ None }
        ensures put { self.new ≡ with_expiry self.old slot (Some expiry) }
        ensures countable { length self.old < 2 ^ 64 }
    {
        self.slots[slot].occupy(expiry);
    }

    /// Removes the entry of a slot that has no child.
    pub(crate) fn vacate(&mut self, slot: usize)
        requires slot { slot < length self.old }
        requires child { child_of self.old slot ≡ None }
        ensures { self.new ≡ with_expiry self.old slot None }
    {
        self.slots[slot].vacate();
    }
}
