use crate::act::Act;

/// One answered call, as the history records it.
#[derive(Debug, Drop, PartialEq, Eq)]
pub struct Event {
    /// Who called.
    pub seat: u64,
    /// The moment, in nanoseconds, that the caller handed in.
    pub asked: u64,
    /// The moment, in nanoseconds, at which the call took effect: the later of `asked` and the
    /// moment of the event before.
    pub at: u64,
    /// What it did.
    pub act: Act,
}
