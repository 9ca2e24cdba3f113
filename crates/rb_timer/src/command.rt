/// A command to a timer.
#[derive(Clone, Copy, Debug, PartialEq, Eq)]
pub enum TimerCommand {
    /// Add an entry: its slot, then its expiry in nanoseconds.
    Insert(usize, u64),
    /// Take out the entry at a slot.
    Remove(usize),
    /// Give an entry of least expiry.
    Least,
    /// Give an entry of least expiry, if that is at most this moment in nanoseconds.
    Due(u64),
    /// Take out every entry.
    Clear,
}

/// The answer to a command.
#[derive(Clone, Copy, Debug, PartialEq, Eq)]
pub enum TimerAnswer {
    /// The entry was added.
    Inserted,
    /// The entry was taken out. It had this expiry, in nanoseconds.
    Removed(u64),
    /// The slot and the expiry, in nanoseconds, of an entry. `None` if there was none to give.
    Entry(Option<(usize, u64)>),
    /// Every entry was taken out.
    Cleared,
    /// The slot was not below the room or had an entry already (insert), or had none (remove).
    /// Nothing changed.
    Refused,
}
