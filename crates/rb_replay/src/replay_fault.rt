use crate::reason::Reason;

/// Why events are not a legal history.
#[derive(Clone, Copy, Debug, PartialEq, Eq)]
pub enum ReplayFault {
    /// The event of this index, counted from 0, is the first that is not allowed. The reason is that of
    /// the first test that fails.
    At { index: u64, reason: Reason },
    /// There is not enough memory for the check.
    Memory,
}
