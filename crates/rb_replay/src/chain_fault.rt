use crate::chain_reason::ChainReason;

/// Why a history is not chained.
#[derive(Clone, Copy, Debug, PartialEq, Eq)]
pub enum ChainFault {
    /// The event of this index, counted from 0, is the first that offers an element which is not
    /// linked to what came before. The reason is that of the first test that fails.
    At { index: u64, reason: ChainReason },
    /// There is not enough memory for the check.
    Memory,
}
