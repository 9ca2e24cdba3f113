use thiserror::Error;

/// Why a session ended early, and how many of the jobs that it still held were lost: those whose
/// next attempt was refused. The fault that happened first is returned.
#[derive(Clone, Copy, Debug, PartialEq, Eq, Error)]
pub enum SessionFault {
    /// There is not enough memory for the buffers and the jobs. Nothing was read or written.
    #[error("out of memory")]
    Memory,
    /// A read failed.
    #[error("cannot read input")]
    Read { lost: u64 },
    /// A write or a flush failed, or a write took no byte.
    #[error("cannot write output")]
    Write { lost: u64 },
    /// The input had no end after 10,000,000 reads.
    #[error("too many reads")]
    ReadTurns { lost: u64 },
}
