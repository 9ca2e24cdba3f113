ghost use Rattle.std.specs.Prelude.{◌≤◌, vec_len, vec_capacity};
ghost use Rattle.std.proofs.Props.{props};
ghost use Rattle.rb_binary.specs.Layout.{Agrees, IsOrdered};

use crate::heap::{Entry, forget_all, sift, sift_up};
use rb_timer::Timer;
use rb_timer::optional_index::OptionalIndex;
use std::alloc::{AllocError, Global};

/// A binary heap of the entries, by expiry, that also knows where each slot's entry is.
///
/// Each move of an entry in the heap notes its new place at its slot. An insert and a removal cost at
/// most the logarithm of the number of entries, and a clear a constant for each entry, whatever the
/// room. A `reserve` that makes room costs all the room that there is then, and each other call a
/// constant.
#[derive(Debug, Drop)]
pub struct BinaryTimer {
    heap: Vec<Entry>,
    // For each slot of the room, the place of its entry in the heap.
    places: Vec<OptionalIndex>,
    ghost agrees: { Agrees heap.items places.items } by { Prim.hlevel props },
    ghost ordered: { IsOrdered heap.items } by { Prim.hlevel props },
    ghost reserved: { vec_len places ≤ vec_capacity heap },
}

impl Timer for BinaryTimer {
    ghost use Rattle.std.specs.Prelude.{length};
    ghost use Rattle.rb_timer.specs.Slots.{content_of};
    ghost use Rattle.rb_binary.specs.Layout.{expiries};
    ghost use Rattle.rb_binary.specs.Room.{in_room_of_content};

    ghost content = { λ timer. content_of (expiries timer.heap.items timer.places.items) };

    ghost room = { λ timer. length timer.places.items };

    ghost slots_below_room = { λ timer slot present.
        in_room_of_content timer.heap.items timer.places.items slot present };

    fn new(alloc: Global) -> Self {
        BinaryTimer {
            heap: Vec::new(alloc),
            places: Vec::new(alloc),
        }
    }

    fn room(&self) -> usize {
        self.places.len()
    }

    fn len(&self) -> usize {
        self.heap.len()
    }

    fn get(&self, slot: usize) -> Option<u64> {
        let place = self.places.get(slot)?.as_option()?;
        Some(self.heap[place].expiry)
    }

    fn reserve(&mut self, wanted: usize) -> Result<(), AllocError> {
        if wanted > self.places.len() {
            self.heap.reserve(wanted - self.heap.len())?;
            self.places.resize(wanted, OptionalIndex::none())?;
        }
        Ok(())
    }

    fn insert(&mut self, slot: usize, expiry: u64) {
        let place = self.heap.len();
        self.heap.push_reserved(Entry { slot, expiry });
        sift_up(&mut self.heap, &mut self.places, place);
    }

    fn remove(&mut self, slot: usize) -> u64 {
        let place = self.places[slot].take().unwrap();
        let removed = self.heap.swap_remove(place);
        if place < self.heap.len() {
            sift(&mut self.heap, &mut self.places, place);
        }
        removed.expiry
    }

    fn least(&self) -> Option<(usize, u64)> {
        let entry = self.heap.first()?;
        Some((entry.slot, entry.expiry))
    }

    fn due(&mut self, now: u64) -> Option<(usize, u64)> {
        self.least().filter(|&(_, expiry)| expiry <= now)
    }

    fn clear(&mut self) {
        forget_all(&self.heap, &mut self.places);
        self.heap.clear();
    }
}
