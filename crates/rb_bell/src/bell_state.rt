ghost use Rattle.std.specs.Prelude.{◌≡◌, ◌<◌, ◌+◌, ◌^◌, ◌%◌, ◌↔◌, IsTrue, IfSome};
ghost use Rattle.rb_bell.specs.Places.{woken_at};

use crate::place::Place;

/// The number of places at which calls rest. A server has no more workers, so each of them rests alone.
pub(crate) const PLACES: usize = 16;

// For how many rings, the last ones, a bell knows what they were for.
const RECENT: u64 = 16;

/// What a bell keeps under its lock: how often it was rung, and which calls rest at it.
#[derive(Drop)]
pub(crate) struct BellState {
    pub(crate) count: u64,
    // How many calls rest, at all places together. If none does, a ring need not look at the places.
    resting: u64,
    // When the elements of the last rings expire, or 0 for a ring that is for all. A ring's entry is at the
    // count that it made, modulo 16.
    recent: [u64; RECENT as usize],
    places: [Place; PLACES],
}

impl BellState {
    /// The state of a bell that has not been rung, and at which no call rests.
    pub(crate) fn new() -> BellState
        ensures { result.count ≡ 0 }
    {
        BellState {
            count: 0,
            resting: 0,
            recent: [0; RECENT as usize],
            places: [Place::default(); PLACES],
        }
    }

    /// Raises the count, which wraps from 2^64 - 1 to 0, for an element of this expiry.
    pub(crate) fn rise(&mut self, expiry: u64)
        ensures { self.new.count ≡ (self.old.count + 1) % (2 ^ 64) }
    {
        self.count = self.count.wrapping_add(1);
        self.recent[(self.count % RECENT) as usize] = expiry;
    }

    /// Whether there was a ring, since the count was `seen`, for what expires before the moment `until`, at
    /// which the call looks again by itself. Also true after more than 16 rings.
    pub(crate) fn has_missed(&self, seen: u64, until: u64) -> bool {
        let rings = self.count.wrapping_sub(seen);
        if rings > RECENT {
            return true;
        }
        for back in 0..rings {
            let count = self.count.wrapping_sub(back);
            if self.recent[(count % RECENT) as usize] < until {
                return true;
            }
        }
        false
    }

    /// Adds a call that rests, and looks again by itself at the moment `until`. Returns its place, which is
    /// one of those with the fewest calls.
    pub(crate) fn enter(&mut self, until: u64) -> usize
        ensures place { result < PLACES }
        ensures count { self.new.count ≡ self.old.count }
    {
        let mut least = 0;
        for at in 1..PLACES {
            if self.places[at].resting() < self.places[least].resting() {
                least = at;
            }
        }
        self.places[least].enter(until);
        self.resting = self.resting.saturating_add(1);
        least
    }

    /// Whether a call that rests at the place was woken.
    pub(crate) fn is_woken(&self, place: usize) -> bool
        requires { place < PLACES }
        ensures { IsTrue result ↔ (0 < woken_at self.now.places place) }
    {
        self.places[place].is_woken()
    }

    /// Ends the rest of a call at the place. Returns whether it was woken.
    pub(crate) fn leave(&mut self, place: usize) -> bool
        requires { place < PLACES }
        ensures result { IsTrue result ↔ (0 < woken_at self.old.places place) }
        ensures count { self.new.count ≡ self.old.count }
    {
        self.resting = self.resting.saturating_sub(1);
        self.places[place].leave()
    }

    /// Wakes a call that would look again only after this expiry. Returns its place, if any.
    pub(crate) fn wake_one(&mut self, expiry: u64) -> Option<usize>
        ensures place { IfSome result (λ place. place < PLACES) }
        ensures count { self.new.count ≡ self.old.count }
    {
        if self.resting == 0 {
            return None;
        }
        for at in 0..PLACES {
            if self.places[at].wake_one(expiry) {
                return Some(at);
            }
        }
        None
    }

    /// Wakes all calls that rest.
    pub(crate) fn wake_all(&mut self)
        ensures { self.new.count ≡ self.old.count }
    {
        for place in &mut self.places {
            place.wake_all();
        }
    }
}
