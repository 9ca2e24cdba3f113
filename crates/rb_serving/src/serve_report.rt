use rb_kept::Kept;
use rb_queue::Audit;
use rb_timer::Timer;
use std::fmt::{self, Debug, Formatter};

/// The outcome of serving visits.
#[derive(Drop)]
pub struct ServeReport<T: Timer> {
    /// How many visits there were. This and the next two numbers are at most 2^64 - 1.
    pub sessions: u64,
    /// How many of them were refused at the door, or ended by a fault.
    pub faults: u64,
    /// How many jobs were lost at the ends of sessions: those whose next attempt was refused.
    pub lost: u64,
    /// The counts of the history.
    pub audit: Audit,
    /// The queue as all workers left it, with the history of their calls.
    pub kept: Kept<T>,
}

// Of the queue it shows nothing: its history may have a million events.
impl<T: Timer> Debug for ServeReport<T> {
    fn fmt<W: fmt::Write>(&self, f: &mut Formatter<W>) -> fmt::Result {
        f.debug_struct("ServeReport")
            .field("sessions", &self.sessions)
            .field("faults", &self.faults)
            .field("lost", &self.lost)
            .field("audit", &self.audit)
            .finish_non_exhaustive()
    }
}
