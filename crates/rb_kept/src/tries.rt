use rb_queue::Ask;

/// A call that a seat tries to make.
#[derive(Clone, Copy, Debug, PartialEq, Eq)]
pub struct Try {
    /// Who calls.
    pub seat: u64,
    /// The moment, in nanoseconds, that the caller hands in.
    pub asked: u64,
    /// What the caller asks.
    pub ask: Ask,
}
