/// What the last read of a reader came to.
#[derive(Clone, Copy, Debug, PartialEq, Eq)]
pub enum ReaderState {
    /// It brought bytes or was interrupted, or no read has been made.
    Open,
    /// It brought no byte: the input is over.
    AtEnd,
    /// It failed.
    Failed,
}
