use thiserror::Error;

/// Why bytes are not a payload.
#[derive(Clone, Copy, Debug, PartialEq, Eq, Error)]
pub enum PayloadFault {
    /// There is no byte.
    #[error("a payload has at least one byte")]
    Empty,
    /// There are more than 64 bytes.
    #[error("a payload has at most 64 bytes")]
    TooLong,
    /// A byte is not a visible ASCII character. This is the place of the first one, counted from 0.
    #[error("the byte at place {0} is not a visible ASCII character")]
    BadByte(usize),
}
