/// How a session ended, and how many of the jobs that it still held were lost: those whose next
/// attempt was refused.
#[derive(Clone, Copy, Debug, PartialEq, Eq)]
pub enum Ended {
    /// The client asked for it.
    Quit { lost: u64 },
    /// There was nothing more to read.
    EndOfInput { lost: u64 },
}
