use crate::clock::Clock;
use std::fmt::{self, Debug, Formatter};
use std::time;
use std::time::{Duration, Instant};

/// The machine's monotonic clock, in nanoseconds since this value was made.
///
/// It reads 0 if the machine's clock can't be read. No contract says anything about its numbers.
#[derive(Drop)]
pub struct MachineClock<'a, R: time::Clock> {
    rt: &'a R,
    // When this value was made, if the machine's clock could be read then.
    start: Option<Instant>,
}

impl<'a, R: time::Clock> MachineClock<'a, R> {
    /// A clock that reads 0 now. It takes no memory.
    pub fn new(rt: &'a R) -> MachineClock<'a, R> {
        MachineClock {
            rt,
            start: Instant::now(rt).ok(),
        }
    }

    fn elapsed(&self) -> Option<Duration> {
        self.start?.elapsed(self.rt).ok()
    }
}

impl<'a, R: time::Clock> Debug for MachineClock<'a, R> {
    fn fmt<W: fmt::Write>(&self, f: &mut Formatter<W>) -> fmt::Result {
        f.debug_struct("MachineClock")
            .field("start", &self.start)
            .finish_non_exhaustive()
    }
}

impl<'a, R: time::Clock> Clock for MachineClock<'a, R> {
    ghost gives = { λ _ _. Unit {0} };

    ghost reads = { λ _ _ _. Unit {0} };

    fn now(&self) -> u64 {
        match self.elapsed() {
            Some(elapsed) => u64::try_from(elapsed.as_nanos()).unwrap_or(u64::MAX),
            None => 0,
        }
    }

    fn now_for_try(&self, _tries: u64) -> u64 {
        self.now()
    }
}
