/// Why no more lines of a stream are served.
#[derive(Clone, Copy, Debug, PartialEq, Eq)]
pub(crate) enum Stop {
    /// A line ended the session.
    Quit,
    /// There is nothing more to read.
    EndOfInput,
    /// A read failed.
    Read,
    /// The input had no end within the session's greatest number of reads.
    ReadTurns,
}
