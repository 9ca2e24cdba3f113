use crate::timer::Timer;
use std::alloc::{AllocError, Global};

/// The plain timer: a row with the expiry of each slot. The other timers are compared with it.
///
/// `least`, `due`, `len` and `clear` look at every slot, and a `reserve` that makes room copies every
/// slot. Each other call costs a constant.
#[derive(Debug, Drop)]
pub struct ListTimer {
    expiries: Vec<Option<u64>>,
}

impl Timer for ListTimer {
    ghost use Rattle.std.specs.Prelude.{length};
    ghost use Rattle.rb_timer.specs.Slots.{content_of, in_range_of_content};

    ghost content = { λ timer. content_of timer.expiries.items };

    ghost room = { λ timer. length timer.expiries.items };

    ghost slots_below_room = { λ timer. in_range_of_content timer.expiries.items };

    fn new(alloc: Global) -> Self {
        ListTimer {
            expiries: Vec::new(alloc),
        }
    }

    fn room(&self) -> usize {
        self.expiries.len()
    }

    fn len(&self) -> usize {
        self.expiries
            .iter()
            .filter(|expiry| expiry.is_some())
            .count()
    }

    fn get(&self, slot: usize) -> Option<u64> {
        self.expiries.get(slot).copied().flatten()
    }

    fn reserve(&mut self, wanted: usize) -> Result<(), AllocError> {
        if wanted > self.expiries.len() {
            self.expiries.resize(wanted, None)?;
        }
        Ok(())
    }

    fn insert(&mut self, slot: usize, expiry: u64) {
        self.expiries[slot] = Some(expiry);
    }

    fn remove(&mut self, slot: usize) -> u64 {
        self.expiries[slot].take().unwrap()
    }

    fn least(&self) -> Option<(usize, u64)> {
        let mut least: Option<(usize, u64)> = None;
        for (slot, expiry) in self.expiries.iter().enumerate() {
            if let Some(expiry) = *expiry
                && least.is_none_or(|(_, best)| expiry < best)
            {
                least = Some((slot, expiry));
            }
        }
        least
    }

    fn due(&mut self, now: u64) -> Option<(usize, u64)> {
        self.least().filter(|&(_, expiry)| expiry <= now)
    }

    fn clear(&mut self) {
        self.expiries.fill(None);
    }
}
