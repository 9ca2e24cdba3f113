/// Whether a writer has failed.
#[derive(Clone, Copy, Debug, PartialEq, Eq)]
pub enum WriterState {
    /// No write and no flush has failed.
    Open,
    /// A write or a flush failed, or a write took no byte.
    Failed,
}
