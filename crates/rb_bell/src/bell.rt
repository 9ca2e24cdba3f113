ghost use Rattle.std.specs.Prelude.{◌≡◌, ◌<◌, IfSome};
ghost use Rattle.std.specs.Duration.{as_nanos};

use crate::bell_state::{BellState, PLACES};
use crate::rested::Rested;
use crossbeam_utils::CachePadded;
use std::fmt::{self, Debug, Formatter};
use std::sync::{Condvar, CondvarTimeouts, Mutex, MutexGuard, Wait};
use std::time::Duration;
use std::{array, time};

// The longest rest, in milliseconds.
const LONGEST_REST: u64 = 20;

/// Where a thread rests until another one rings.
///
/// A thread that waits reads the count before it looks for what it waits for, and rests only while
/// the count is still the same. So a ring between the look and the rest is noticed: the count has
/// changed, and the rest ends at once.
///
/// An element that is announced raises the count, and wakes one of the resting calls that would look again
/// only after it has expired, if there is one. A call that was woken but gives up wakes another in its
/// place. A bell takes no memory. Nothing is proved of whom it wakes, or when.
#[derive(Drop)]
pub struct Bell {
    // It has cache lines of its own, since all threads that offer write it. A ringer changes it under the lock; a
    // sleeper compares it under the lock, and lets go of the lock only by falling asleep. So no ring falls between
    // the comparison and the sleep.
    state: CachePadded<Mutex<BellState>>,
    // Where threads sleep that are in `rest`. A notification makes a system call only if one sleeps.
    rung: Condvar,
    // Where waiting calls sleep, one for each place.
    woken: [Condvar; PLACES],
}

impl Bell {
    /// A bell that has not been rung.
    pub fn new() -> Bell {
        Bell {
            state: CachePadded::new(Mutex::new(BellState::new())),
            rung: Condvar::new(),
            woken: array::from_fn(|_| Condvar::new()),
        }
    }

    /// Raises the count, which wraps from 2^64 - 1 to 0, and wakes all threads that rest. It waits while
    /// another thread holds the bell's lock.
    pub fn ring<R: Wait>(&self, rt: &R) {
        let mut state = self.locked(rt);
        state.rise(0);
        state.wake_all();
        drop(state);
        self.rung.notify_all();
        for woken in &self.woken {
            woken.notify_all();
        }
    }

    /// How often it was rung, by offers too, modulo 2^64. It waits while another thread holds the bell's
    /// lock.
    pub fn count<R: Wait>(&self, rt: &R) -> u64 {
        self.locked(rt).count
    }

    /// Waits until the count is not `seen`, for at most about 20 ms, and returns the count. If the
    /// machine's clock can't be read, it returns at once.
    pub fn rest<R: Wait + time::Clock>(&self, rt: &R, seen: u64) -> u64 {
        self.rest_at_most(rt, seen, longest_rest())
    }

    // Like `rest`, for at most about `most`.
    pub(crate) fn rest_at_most<R: Wait + time::Clock>(
        &self,
        rt: &R,
        seen: u64,
        most: Duration,
    ) -> u64 {
        let (state, _) = self
            .rung
            .wait_timeout_while(rt, self.locked(rt), most, |state| state.count == seen);
        state.count
    }

    /// Raises the count for an element that expires at `expiry`, in nanoseconds, or 0 if it can be taken at once,
    /// and wakes a waiting call that would look again only after that. It waits while another thread holds the
    /// bell's lock.
    pub fn announce<R: Wait>(&self, rt: &R, expiry: u64) {
        let mut state = self.locked(rt);
        state.rise(expiry);
        let woken = state.wake_one(expiry);
        drop(state);
        self.rung.notify_all();
        self.notify(woken);
    }

    /// Wakes a waiting call that would look again only after `expiry`, in nanoseconds, in place of one that was
    /// woken and gives up. The count stays. It waits while another thread holds the bell's lock.
    pub fn wake_one<R: Wait>(&self, rt: &R, expiry: u64) {
        let woken = self.locked(rt).wake_one(expiry);
        self.notify(woken);
    }

    /// Lets a waiting call rest until it is woken, for at most about `most`. It will look again by itself at
    /// the moment `until`, in nanoseconds. It does not rest at all if since the count was `seen` there was a
    /// ring for what expires before that. If the machine's clock can't be read, it returns at once.
    pub fn rest_until<R: Wait + time::Clock>(
        &self,
        rt: &R,
        seen: u64,
        until: u64,
        most: Duration,
    ) -> Rested {
        let mut state = self.locked(rt);
        if state.has_missed(seen, until) {
            return Rested {
                count: state.count,
                woken: false,
            };
        }
        let place = state.enter(until);
        let (mut state, _) = self.woken[place].wait_timeout_while(
            rt,
            state,
            most,
            |state| !state.is_woken(place),
        );
        Rested {
            woken: state.leave(place),
            count: state.count,
        }
    }

    fn locked<R: Wait>(&self, rt: &R) -> MutexGuard<'_, BellState> {
        let state: &Mutex<BellState> = &self.state;
        state.lock(rt)
    }

    // Wakes a thread that sleeps at the place, if a place is given.
    fn notify(&self, place: Option<usize>)
        requires { IfSome place (λ at. at < PLACES) }
    {
        if let Some(place) = place {
            self.woken[place].notify_one();
        }
    }
}

impl Default for Bell {
    fn default() -> Bell {
        Bell::new()
    }
}

// Its state can't be seen without waiting for the lock.
impl Debug for Bell {
    fn fmt<W: fmt::Write>(&self, f: &mut Formatter<W>) -> fmt::Result {
        f.debug_struct("Bell").finish_non_exhaustive()
    }
}

/// How long a rest lasts if nothing ends it sooner: 20 milliseconds. A waiting call that rests no longer than this
/// looks again by itself, so no wake is lost for longer.
pub fn longest_rest() -> Duration
    ensures { as_nanos result ≡ 20_000_000 }
{
    Duration::from_millis(LONGEST_REST)
}
