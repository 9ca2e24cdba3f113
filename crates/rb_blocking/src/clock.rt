ghost use Rattle.std.specs.Prelude.{ℕ};

/// The clock of a waiting call, in nanoseconds.
///
/// `gives` says which numbers the clock may read, and `reads` which it may read for a wait's try that follows so many
/// others. Generic code gets such a number only by reading the clock, so a contract that cites them says that the
/// clock was read, and for which try.
pub trait Clock {
    ghost gives: { Self → ℕ → Type 0 };

    ghost reads: { Self → ℕ → ℕ → Type 0 };

    /// The present moment, in nanoseconds.
    fn now(&self) -> u64
        ensures { gives self.now result };

    /// The same, for a try of a wait: `tries` is how many it has made before this one, or 2^64 - 1 if it has made
    /// more.
    fn now_for_try(&self, tries: u64) -> u64
        ensures given { gives self.now result }
        ensures read { reads self.now tries result };
}
