ghost use Rattle.std.specs.Prelude.{◌≡◌, ◌≢◌, ◌⊎◌, ◌<◌, ◌≤◌, ◌-◌, ◌^◌, ◌++◌, ℕ, List, [], Option, Some, None, IsSome};
ghost use Rattle.std.specs.Prelude.{OnOk, OnErr, IfSome, MatchOption, length, replicate, slice_set, slice_index_or};
ghost use Rattle.rb_wheel.specs.Nodes.{with_first};
ghost use Rattle.std.specs.FinMap as map;
ghost use Rattle.rb_wheel.specs.Lists.{cell_at, slot_expiry, IsHeld, IsVacant, IsLeastIn, HasExpiries};
ghost use Rattle.rb_wheel.specs.Wheel.{LieRight, MaySpread, StillWait, IsSameElsewhere, IsThere, AreStillThere, AreCopies};

use crate::cells::CELLS;
use crate::marks::Marks;
use crate::node::{Node, set_next, set_previous};
use crate::spread::{put_first, spread};
use rb_timer::Timer;
use rb_timer::optional_index::OptionalIndex;
use std::alloc::{AllocError, Global};
use std::marker::Model;

/// The slots. Each may have an entry, whose expiry is kept here, and is in at most one cell. Each cell
/// has a list of its slots, linked both ways.
#[derive(Debug, Drop)]
pub(crate) struct Lists {
    // The first slot of each cell's list. There are none until the first `reserve`.
    heads: Vec<OptionalIndex>,
    nodes: Vec<Node>,
}

impl Model for Lists {
    ghost use Rattle.rb_wheel.specs.Lists.{Slots};

    ghost Value = { Slots };

    ghost use Rattle.rb_wheel.specs.WheelLinks.{slots_of, AreSoundLists};

    ghost view = { λ lists. slots_of lists.nodes.items };

    ghost invariant = { λ lists. AreSoundLists lists.heads.items lists.nodes.items };
}

impl Lists {
    /// No slots. It takes no memory until `reserve`.
    pub(crate) fn new(alloc: Global) -> Self
        ensures { result ≡ record { expiries = []; cells = [] } }
    {
        Lists {
            heads: Vec::new(alloc),
            nodes: Vec::new(alloc),
        }
    }

    /// How many slots there are.
    pub(crate) fn room(&self) -> usize
        ensures { result ≡ length self.now.expiries }
    {
        self.nodes.len()
    }

    /// The expiry of the slot's entry, in nanoseconds, if it has one.
    pub(crate) fn expiry(&self, slot: usize) -> Option<u64>
        ensures { result ≡ slot_expiry self.now.expiries slot }
    {
        self.nodes.get(slot)?.expiry()
    }

    /// Makes room for at least `wanted` slots. On `Err` there was not enough memory, and the slots are
    /// unchanged.
    pub(crate) fn reserve(&mut self, wanted: usize) -> Result<(), AllocError>
        ensures expiries { OnOk result (self.new.expiries
            ≡ self.old.expiries ++ replicate (wanted - length self.old.expiries) None) }
        ensures cells { OnOk result (self.new.cells
            ≡ self.old.cells ++ replicate (wanted - length self.old.cells) None) }
        ensures err { OnErr result (self.new ≡ self.old) }
    {
        if wanted > self.nodes.len() {
            self.heads.resize(CELLS, OptionalIndex::none())?;
            self.nodes.resize(wanted, Node::vacant())?;
        }
        Ok(())
    }

    /// Notes an entry at a slot, which stays in its cell, or in none.
    pub(crate) fn occupy(&mut self, slot: usize, expiry: u64)
        requires { slot < length self.old.expiries }
        ensures noted { self.new ≡ record self.old { expiries = slice_set self.old.expiries slot (Some expiry) } }
        ensures countable { length self.new.expiries < 2 ^ 64 }
    {
        let node = &mut self.nodes[slot];
        node.expiry = expiry;
        node.is_taken = true;
    }

    /// Removes the entry of a slot that has one, and returns its expiry. The slot stays in its cell, or in
    /// none.
    pub(crate) fn vacate(&mut self, slot: usize) -> u64
        requires { IsSome (slot_expiry self.old.expiries slot) }
        ensures value { slot_expiry self.old.expiries slot ≡ Some result }
        ensures left { self.new ≡ record self.old { expiries = slice_set self.old.expiries slot None } }
    {
        let node = &mut self.nodes[slot];
        node.is_taken = false;
        node.expiry
    }

    /// Puts a slot that lies in no cell into one.
    pub(crate) fn insert(&mut self, slot: usize, cell: usize)
        requires in_room { slot < length self.old.cells }
        requires in_wheel { cell < CELLS }
        requires free { cell_at self.old.cells slot ≡ None }
        ensures { self.new ≡ record self.old { cells = slice_set self.old.cells slot (Some cell) } }
    {
        put_first(&mut self.heads, &mut self.nodes, slot, cell);
    }

    /// Takes a slot out of its cell.
    pub(crate) fn remove(&mut self, slot: usize)
        requires { IsSome (cell_at self.old.cells slot) }
        ensures { self.new ≡ record self.old { cells = slice_set self.old.cells slot None } }
    {
        let node = self.nodes[slot];
        let cell = node.cell.unwrap() as usize;
        set_previous(&mut self.nodes, node.next, node.previous);
        set_next(&mut self.nodes, node.previous, node.next);
        set_first(&mut self.heads, cell, node.previous, node.next);
        self.nodes[slot].take_out();
    }

    /// Moves the slots of a cell to the lower cells where they belong, now that the base has entered it,
    /// and marks these as waiting.
    pub(crate) fn spread(&mut self, waiting: &mut Marks, base: u64, cell: usize)
        requires held { IsHeld self.old.cells cell }
        requires may { MaySpread base cell self.old.expiries self.old.cells }
        ensures expiries { self.new.expiries ≡ self.old.expiries }
        ensures right { LieRight base self.old.expiries self.new.cells }
        ensures room { length self.new.cells ≡ length self.old.cells }
        ensures waits { StillWait waiting.old self.old.cells waiting.new self.new.cells }
    {
        spread(&mut self.heads, &mut self.nodes, waiting, base, cell);
    }

    /// A slot of the cell, if it holds one.
    pub(crate) fn first_in(&self, cell: usize) -> Option<usize>
        ensures { MatchOption result (IsVacant self.now.cells cell) (λ slot. cell_at self.now.cells slot ≡ Some cell) }
    {
        head_of(&self.heads, cell)
    }

    /// A slot of the cell, if it holds one, whose expiry is least among them, and that expiry.
    pub(crate) fn least_in(&self, cell: usize) -> Option<(usize, u64)>
        requires { HasExpiries self.now.cells self.now.expiries cell }
        ensures { MatchOption result (IsVacant self.now.cells cell)
            (λ entry. IsLeastIn self.now.cells self.now.expiries cell entry.0 entry.1) }
    {
        let mut least: Option<(usize, u64)> = None;
        let mut cursor = head_of(&self.heads, cell);
        while let Some(slot) = cursor {
            let node = &self.nodes[slot];
            let expiry = node.expiry().unwrap();
            least = Some(earlier_of(least, (slot, expiry)));
            cursor = node.next.as_option();
        }
        least
    }

    /// Puts the entries of a cell into a timer that may have some of them.
    pub(crate) fn copy_into<E: Timer>(&self, early: &mut E, cell: usize)
        requires expiries { HasExpiries self.now.cells self.now.expiries cell }
        requires in_room { length self.now.expiries ≤ E.room early.old }
        requires copies { AreCopies self.now.expiries (E.content early.old) }
        ensures copies { AreCopies self.now.expiries (E.content early.new) }
        ensures kept { AreStillThere self.now.expiries (E.content early.old) (E.content early.new) }
        ensures all { (slot : ℕ) → cell_at self.now.cells slot ≡ Some cell
            → IsThere self.now.expiries (E.content early.new) slot }
        ensures room { E.room early.new ≡ E.room early.old }
    {
        let mut cursor = head_of(&self.heads, cell);
        while let Some(slot) = cursor {
            let node = &self.nodes[slot];
            add_unless_there(early, slot, node.expiry().unwrap());
            cursor = node.next.as_option();
        }
    }

    /// Takes every slot out of its cell, and removes its entry.
    pub(crate) fn clear(&mut self)
        ensures expiries { self.new.expiries ≡ replicate (length self.old.expiries) None }
        ensures cells { self.new.cells ≡ replicate (length self.old.cells) None }
    {
        self.heads.fill(OptionalIndex::none());
        self.nodes.fill(Node::vacant());
    }
}

// Adds an entry to a timer, unless it has that entry.
fn add_unless_there<E: Timer>(early: &mut E, slot: usize, expiry: u64)
    requires in_room { slot < E.room early.old }
    requires copy { IfSome (map.get (E.content early.old) slot) (λ there. there ≡ expiry) }
    ensures here { map.get (E.content early.new) slot ≡ Some expiry }
    ensures others { IsSameElsewhere slot (E.content early.old) (E.content early.new) }
    ensures room { E.room early.new ≡ E.room early.old }
{
    if early.get(slot).is_none() {
        early.insert(slot, expiry);
    }
}

// The first slot of the cell's list, if there is one.
fn head_of(heads: &[OptionalIndex], cell: usize) -> Option<usize>
    ensures { result ≡ slice_index_or heads.now cell None }
{
    heads.get(cell)?.as_option()
}

/// The earlier one of the best entry so far and another. If both expire together, the other one.
pub(crate) fn earlier_of(best: Option<(usize, u64)>, entry: (usize, u64)) -> (usize, u64)
    ensures no_later { result.1 ≤ entry.1 }
    ensures no_worse { IfSome best (λ best. result.1 ≤ best.1) }
    ensures either { (result ≡ entry) ⊎ (best ≡ Some result) }
{
    match best {
        Some(best) if best.1 < entry.1 => best,
        _ => entry,
    }
}

// If `previous` is none, begins the cell's list with `next`.
fn set_first(heads: &mut [OptionalIndex], cell: usize, previous: OptionalIndex, next: OptionalIndex)
    requires { cell < length heads.old }
    ensures { heads.new ≡ with_first heads.old cell previous next }
{
    if previous.as_option().is_none() {
        heads[cell] = next;
    }
}
