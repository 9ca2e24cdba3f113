use rb_timer::Timer;
use std::alloc::{AllocError, Global};

/// A timer that refuses memory once: when it is first asked for more room than `MOST`. Its contract
/// allows it to.
#[derive(Debug, Drop)]
pub struct RefusingTimer<T: Timer, const MOST: usize> {
    timer: T,
    has_refused: bool,
}

impl<T: Timer, const MOST: usize> Timer for RefusingTimer<T, MOST> {
    ghost content = { λ refusing. T.content refusing.timer };

    ghost room = { λ refusing. T.room refusing.timer };

    ghost slots_below_room = { λ refusing. T.slots_below_room refusing.timer };

    fn new(alloc: Global) -> Self {
        RefusingTimer {
            timer: T::new(alloc),
            has_refused: false,
        }
    }

    fn room(&self) -> usize {
        self.timer.room()
    }

    fn len(&self) -> usize {
        self.timer.len()
    }

    fn get(&self, slot: usize) -> Option<u64> {
        self.timer.get(slot)
    }

    fn reserve(&mut self, wanted: usize) -> Result<(), AllocError> {
        if wanted > MOST && !self.has_refused {
            self.has_refused = true;
            return Err(AllocError);
        }
        self.timer.reserve(wanted)
    }

    fn insert(&mut self, slot: usize, expiry: u64) {
        self.timer.insert(slot, expiry);
    }

    fn remove(&mut self, slot: usize) -> u64 {
        self.timer.remove(slot)
    }

    fn least(&self) -> Option<(usize, u64)> {
        self.timer.least()
    }

    fn due(&mut self, now: u64) -> Option<(usize, u64)> {
        self.timer.due(now)
    }

    fn clear(&mut self) {
        self.timer.clear();
    }
}
