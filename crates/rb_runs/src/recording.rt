use rb_history::HistoryFault;

/// What became of the history of a script's run.
#[derive(Clone, Copy, Debug, PartialEq, Eq)]
pub enum Recording {
    /// There is no device for it.
    NotAsked,
    /// The session found no memory and did nothing, so there is no history. The device is as it was.
    NotBegun,
    /// The device has got its text whole.
    Written,
    /// The device has got a first part of its text, or nothing, as the fault says.
    Failed(HistoryFault),
}
