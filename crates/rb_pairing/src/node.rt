ghost use Rattle.std.specs.Prelude.{◌≡◌, ℕ, ◌<◌, ◌↔◌, Some, None, IsTrue, IsSome};

use rb_timer::optional_index::{NONE, OptionalIndex};
use std::marker::Model;

// In place of a child: the slot has no entry. Every slot of the room is below this number.
const VACANT: usize = NONE - 1;

/// What a slot of the room holds: its entry's expiry, if it has one, and the entry's links.
///
/// The entries under one parent are a row, linked both ways. A slot with no entry has no links.
/// Contracts see options. Here each takes one word, so that two nodes share a cache line.
#[derive(Clone, Copy, Debug)]
pub(crate) struct Node {
    // In nanoseconds.
    expiry: u64,
    // The first entry of the row under this one.
    child: OptionalIndex,
    // The entry after this one in its row.
    next: OptionalIndex,
    // The entry before this one in its row, or for the first of a row the parent.
    previous: OptionalIndex,
}

const _: () = prove!(size_of::<Node>() == 32);

impl Model for Node {
    ghost use Rattle.rb_pairing.specs.Fields.{Fields};

    ghost Value = { Fields };

    ghost use Rattle.rb_pairing.specs.NodeWords.{fields_of, node_of, IsNode, node_of-fields};

    ghost view = { fields_of };

    ghost invariant = { IsNode };

    ghost inverse = { node_of };

    ghost inverse_ok = { node_of-fields };
}

// The link to a slot, if there is one.
fn link_to(slot: Option<usize>) -> OptionalIndex
    requires { (other : ℕ) → slot ≡ Some other → other < VACANT }
    ensures { result ≡ slot }
{
    match slot {
        Some(slot) => OptionalIndex::some(slot),
        None => OptionalIndex::none(),
    }
}

impl Node {
    /// A slot with no entry.
    pub(crate) fn vacant() -> Self
        ensures { result ≡ record { expiry = None; child = None; next = None; previous = None } }
    {
        Node {
            expiry: 0,
            child: OptionalIndex::some(VACANT),
            next: OptionalIndex::none(),
            previous: OptionalIndex::none(),
        }
    }

    /// The expiry of the slot's entry, in nanoseconds, if it has one.
    pub(crate) fn expiry(&self) -> Option<u64>
        ensures { result ≡ self.now.expiry }
    {
        match self.child.as_option() {
            Some(VACANT) => None,
            _ => Some(self.expiry),
        }
    }

    /// The expiry of the slot's entry, in nanoseconds.
    pub(crate) fn moment(&self) -> u64
        requires { IsSome self.now.expiry }
        ensures { self.now.expiry ≡ Some result }
    {
        self.expiry
    }

    /// The first entry of the row under this one.
    pub(crate) fn child(&self) -> Option<usize>
        ensures { result ≡ self.now.child }
    {
        match self.child.as_option() {
            Some(VACANT) => None,
            child => child,
        }
    }

    /// Whether that slot has the first entry of the row under this one.
    pub(crate) fn is_above(&self, slot: usize) -> bool
        requires { slot < VACANT }
        ensures { IsTrue result ↔ (self.now.child ≡ Some slot) }
    {
        self.child.as_option() == Some(slot)
    }

    /// The entry after this one in its row.
    pub(crate) fn next(&self) -> Option<usize>
        ensures { result ≡ self.now.next }
    {
        self.next.as_option()
    }

    /// The entry before this one in its row, or for the first of a row the parent.
    pub(crate) fn previous(&self) -> Option<usize>
        ensures { result ≡ self.now.previous }
    {
        self.previous.as_option()
    }

    /// Puts an entry at a slot that has no child.
    pub(crate) fn occupy(&mut self, expiry: u64)
        requires { self.old.child ≡ None }
        ensures { self.new ≡ record self.old { expiry = Some expiry } }
    {
        self.expiry = expiry;
        self.child = OptionalIndex::none();
    }

    /// Removes the entry of a slot that has no child.
    pub(crate) fn vacate(&mut self)
        requires { self.old.child ≡ None }
        ensures { self.new ≡ record self.old { expiry = None } }
    {
        self.expiry = 0;
        self.child = OptionalIndex::some(VACANT);
    }

    /// Notes the first entry of the row under this one.
    pub(crate) fn set_child(&mut self, child: Option<usize>)
        requires present { IsSome self.old.expiry }
        requires fits { (slot : ℕ) → child ≡ Some slot → slot < VACANT }
        ensures { self.new ≡ record self.old { child = child } }
    {
        self.child = link_to(child);
    }

    /// Notes the entry after this one.
    pub(crate) fn set_next(&mut self, next: Option<usize>)
        requires { (slot : ℕ) → next ≡ Some slot → slot < VACANT }
        ensures { self.new ≡ record self.old { next = next } }
    {
        self.next = link_to(next);
    }

    /// Notes the entry before this one, or the parent.
    pub(crate) fn set_previous(&mut self, previous: Option<usize>)
        requires { (slot : ℕ) → previous ≡ Some slot → slot < VACANT }
        ensures { self.new ≡ record self.old { previous = previous } }
    {
        self.previous = link_to(previous);
    }

    /// Notes the entry before this one, or the parent, and the entry after it.
    pub(crate) fn set_place(&mut self, previous: Option<usize>, next: Option<usize>)
        requires previous { (slot : ℕ) → previous ≡ Some slot → slot < VACANT }
        requires next { (slot : ℕ) → next ≡ Some slot → slot < VACANT }
        ensures { self.new ≡ record self.old { next = next; previous = previous } }
    {
        self.set_previous(previous);
        self.set_next(next);
    }

    /// Removes every link of the entry.
    pub(crate) fn clear_links(&mut self)
        requires { IsSome self.old.expiry }
        ensures { self.new ≡ record self.old { child = None; next = None; previous = None } }
    {
        self.set_child(None);
        self.set_place(None, None);
    }
}
