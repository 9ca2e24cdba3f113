use rb_ledger::Totals;
use thiserror::Error;

/// Why a kept queue could not be shared.
#[derive(Clone, Copy, Debug, PartialEq, Eq, Error)]
pub enum OpenFault {
    /// There is not enough memory for the lock.
    #[error("out of memory")]
    Memory,
}

/// Why no pass could be split off.
#[derive(Clone, Copy, Debug, PartialEq, Eq, Error)]
pub enum SplitFault {
    /// All 65,536 names are given.
    #[error("every name of a pass is given")]
    Names,
}

/// Why a shared queue was not closed.
#[derive(Clone, Copy, Debug, PartialEq, Eq, Error)]
pub enum CloseFault {
    /// The pass and those folded into it have made fewer calls than the books count: their totals, and
    /// those of the whole history.
    #[error("a pass with calls is not folded in")]
    NotAll(Totals, Totals),
}
