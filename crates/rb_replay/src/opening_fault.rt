use crate::reason::Reason;

/// Why no run can continue a history.
#[derive(Clone, Copy, Debug, PartialEq, Eq)]
pub enum OpeningFault {
    /// The event of this index, counted from 0, is the first that is not allowed. The reason is that of
    /// the first test that fails.
    At { index: u64, reason: Reason },
    /// More than 1,000,000 elements are left, or the next id is above 2^40.
    TooLarge,
    /// There is not enough memory to repeat the history, or for the opening.
    Memory,
}
