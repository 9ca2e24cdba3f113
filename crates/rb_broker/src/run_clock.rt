ghost use Rattle.std.specs.Prelude.{◌≡◌};

use libc::clock_gettime;
use libc::types::timespec;
use rb_blocking::{Clock, MachineClock};
use std::time;

// The clock that goes on from the machine's start, also while it is suspended.
const CLOCK_BOOTTIME: i32 = 7;

const NANOSECONDS: u64 = 1_000_000_000;

/// How long a run has gone on, in nanoseconds: since this value was made, or since a moment that is said in
/// nanoseconds after the machine's start.
///
/// It reads 0 before that moment, and if the machine's clock can't be read. No contract says anything about its
/// numbers.
#[derive(Drop)]
pub struct RunClock<'a, R: time::Clock> {
    made: MachineClock<'a, R>,
    since: Option<u64>,
}

impl<'a, R: time::Clock> RunClock<'a, R> {
    /// The clock of a run that begins now, or at that moment. It takes no memory.
    pub fn new(rt: &'a R, since: Option<u64>) -> RunClock<'a, R>
        ensures { result.since ≡ since }
    {
        RunClock {
            made: MachineClock::new(rt),
            since,
        }
    }
}

impl<'a, R: time::Clock> Clock for RunClock<'a, R> {
    ghost gives = { λ _ _. Unit {0} };

    ghost reads = { λ _ _ _. Unit {0} };

    fn now(&self) -> u64 {
        match self.since {
            Some(since) => after_start().saturating_sub(since),
            None => self.made.now(),
        }
    }

    fn now_for_try(&self, _tries: u64) -> u64 {
        self.now()
    }
}

// How many nanoseconds have passed since the machine's start, or 0 if that can't be read.
fn after_start() -> u64 {
    let mut time = timespec {
        tv_sec: 0,
        tv_nsec: 0,
    };
    if clock_gettime(CLOCK_BOOTTIME, &mut time) != 0 {
        return 0;
    }
    let seconds = time.tv_sec.unsigned_abs().saturating_mul(NANOSECONDS);
    seconds.saturating_add(time.tv_nsec.unsigned_abs())
}
