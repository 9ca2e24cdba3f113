use crate::advance::advance;
use crate::cells::cell_of;
use crate::leave::{leave_cell, take_out};
use crate::lists::{Lists, earlier_of};
use crate::marks::Marks;
use crate::next_first::first_without;
use rb_pairing::PairingTimer;
use rb_timer::{Timer, clears_one_by_one};
use std::alloc::{AllocError, Global};
use std::marker::Model;

/// A hierarchical wheel whose early entries are kept in a pairing heap.
pub type WheelTimer = Wheel<PairingTimer>;

/// A hierarchical timing wheel. A moment has 11 digits in base 64, and each level of the wheel has a
/// cell for each value of its digit. An entry lies in the cell of its digit on the highest level on
/// which its expiry's digit differs from the base's, or on the lowest level if none does. An entry that
/// expires before the base is kept in a timer of its own, `E`.
///
/// Only `due` moves the base: up to its `now`, but not past the least expiry. Then it spreads the cell
/// that the base has entered over lower levels.
///
/// The wheel keeps the first of the entries that are not in `E`, so `least` searches for nothing. When
/// that entry leaves, the next is in the first cell that holds such entries. One walk over the cell finds
/// it. When the same cell is searched again, its entries are put into `E` too, where each stays until it
/// leaves the wheel, and so are those that come into this cell later. On the lowest level all entries of a
/// cell expire together, and any of them is the next.
///
/// What calls cost, besides those of `E`: `insert` and `least` cost a constant. A `due` whose base enters
/// a cell above the lowest level moves each entry of that cell, and a `remove` of the entry that is kept
/// may walk over a cell, which may hold all entries. But an entry is moved at most ten times, met by two
/// walks on each level, and put into `E` once. So in the long run both cost a constant too. A `clear` of
/// few entries removes each, and one of many passes over the room. A `reserve` that makes room costs all
/// the room that there is then.
#[derive(Debug, Drop)]
pub struct Wheel<E: Timer> {
    // The slots of the room, each with its entry's expiry, in a cell or not.
    lists: Lists,
    // The entries before the base, and copies of some that lie in cells.
    early: E,
    base: u64,
    len: usize,
    // An entry before which none expires that is not in `early`, or none if all are there.
    first: Option<(usize, u64)>,
    // The cells that may hold an entry that is not in `early`.
    waiting: Marks,
    // Those that were walked over for their least entry, which decides only what the next search costs.
    walked: Marks,
}

impl<E: Timer> Model for Wheel<E> {
    ghost use Rattle.std.specs.Prelude.{List, Option, ℕ};

    ghost Value = { List (Option ℕ) };

    ghost use Rattle.rb_wheel.specs.Wheel.{IsWheel};

    ghost view = { λ wheel. wheel.lists.expiries };

    ghost invariant = { λ wheel. IsWheel wheel.lists.expiries wheel.lists.cells
        (E.content wheel.early) (E.room wheel.early) wheel.waiting wheel.base wheel.len wheel.first };
}

impl<E: Timer> Timer for Wheel<E> {
    ghost use Rattle.std.specs.Prelude.{length};
    ghost use Rattle.rb_timer.specs.Slots.{content_of, in_range_of_content};

    ghost content = { λ expiries. content_of expiries };

    ghost room = { λ expiries. length expiries };

    ghost slots_below_room = { λ expiries. in_range_of_content expiries };

    fn new(alloc: Global) -> Self {
        Wheel {
            lists: Lists::new(alloc),
            early: E::new(alloc),
            base: 0,
            len: 0,
            first: None,
            waiting: Marks::new(),
            walked: Marks::new(),
        }
    }

    fn room(&self) -> usize {
        self.lists.room()
    }

    fn len(&self) -> usize {
        self.len
    }

    fn get(&self, slot: usize) -> Option<u64> {
        self.lists.expiry(slot)
    }

    fn reserve(&mut self, wanted: usize) -> Result<(), AllocError> {
        if wanted > self.lists.room() {
            self.early.reserve(wanted)?;
            self.lists.reserve(wanted)?;
        }
        Ok(())
    }

    fn insert(&mut self, slot: usize, expiry: u64) {
        self.lists.occupy(slot, expiry);
        self.len += 1;
        if expiry < self.base {
            self.early.insert(slot, expiry);
            return;
        }
        let cell = cell_of(self.base, expiry);
        let waits = self.waiting.contains(cell) || self.lists.first_in(cell).is_none();
        self.lists.insert(slot, cell);
        if waits {
            self.waiting.insert(cell);
            self.first = Some(earlier_of(self.first, (slot, expiry)));
        } else {
            self.early.insert(slot, expiry);
        }
    }

    fn remove(&mut self, slot: usize) -> u64 {
        let expiry = self.lists.vacate(slot);
        self.len -= 1;
        take_out(&mut self.early, slot);
        leave_cell(
            &mut self.lists,
            &mut self.waiting,
            &mut self.walked,
            self.base,
            slot,
            expiry,
        );
        self.first = first_without(
            &self.lists,
            &mut self.early,
            &mut self.waiting,
            &mut self.walked,
            self.base,
            self.first,
            slot,
        );
        expiry
    }

    fn least(&self) -> Option<(usize, u64)> {
        match self.early.least() {
            Some(entry) => Some(earlier_of(self.first, entry)),
            None => self.first,
        }
    }

    fn due(&mut self, now: u64) -> Option<(usize, u64)> {
        let least = self.least()?;
        advance(
            &mut self.lists,
            &mut self.waiting,
            &mut self.walked,
            &mut self.base,
            now,
            least.1,
        );
        Some(least).filter(|&(_, expiry)| expiry <= now)
    }

    fn clear(&mut self) {
        if clears_one_by_one(self.len, self.lists.room()) {
            self.take_each();
        } else {
            self.take_all();
        }
    }
}

impl<E: Timer> Wheel<E> {
    ghost use Rattle.std.specs.Prelude.{◌≡◌, None, length, replicate};
    ghost use Rattle.std.specs.FinMap as map;
    ghost use Rattle.rb_timer.specs.Slots.{content_of};

    // Takes the entries out one by one.
    fn take_each(&mut self)
        ensures content { content_of self.new ≡ map.empty }
        ensures room { length self.new ≡ length self.old }
    {
        while let Some((slot, _)) = self.least() {
            self.remove(slot);
        }
    }

    // Takes all entries out in one pass over the room.
    fn take_all(&mut self)
        ensures { self.new ≡ replicate (length self.old) None }
    {
        self.lists.clear();
        self.early.clear();
        self.len = 0;
        self.first = None;
        self.waiting = Marks::new();
        self.walked = Marks::new();
    }
}
