ghost use Rattle.std.specs.Prelude.{IsSome, IsTrue};
ghost use Rattle.rb_serving.specs.TcpReasons.{HasLasted};

use crate::ending::Ending;
use rb_blocking::{Clock, MachineClock};
use std::io::{self, ErrorKind};
use std::time::Duration;

// How long a read or a write waits before it looks around, in nanoseconds: 20 ms.
const LOOK: u64 = 20_000_000;

/// How long a session waits for its client.
#[derive(Clone, Copy)]
pub(crate) struct Patience<'a> {
    pub(crate) clock: &'a MachineClock<'a, HostRuntime>,
    /// After how many nanoseconds of silence it ends, if it does.
    pub(crate) silent: Option<u64>,
    /// What may end it, if anything.
    pub(crate) ending: Option<&'a Ending>,
}

/// The longest time after which a read, a write or an accept looks around: 20 ms.
pub(crate) fn longest_look() -> Duration {
    Duration::from_nanos(LOOK)
}

impl<'a> Patience<'a> {
    /// How long a read or a write may wait at once.
    pub(crate) fn look(&self) -> Duration {
        Duration::from_nanos(LOOK.min(self.silent.unwrap_or(LOOK)))
    }

    /// Whether nobody is waited for any longer.
    pub(crate) fn leaves(&self) -> bool {
        match self.ending {
            Some(ending) => ending.leaves().is_some(),
            None => false,
        }
    }

    /// Whether the client has been silent for too long, if it was from this moment on.
    pub(crate) fn is_over_since(&self, begun: u64) -> bool
        ensures { IsTrue result → IsSome self.now.silent }
    {
        match self.silent {
            Some(silent) => lasts(self.clock, begun, silent),
            None => false,
        }
    }
}

// Whether what began at this moment has lasted for so many nanoseconds.
fn lasts<C: Clock>(clock: &C, begun: u64, nanoseconds: u64) -> bool
    ensures { IsTrue result → HasLasted (C.gives clock.now) begun nanoseconds }
{
    match begun.checked_add(nanoseconds) {
        Some(end) => end <= clock.now(),
        None => false,
    }
}

/// Whether a read or a write gave up only because it has waited long enough.
pub(crate) fn is_timeout(fault: &io::Error) -> bool {
    fault.kind() == ErrorKind::WouldBlock
}
