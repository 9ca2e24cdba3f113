ghost use Rattle.std.specs.Prelude.{◌≡◌};

use crate::act::Act;

/// The totals of a history that the shares of its callers do not have.
#[derive(Clone, Copy, Debug, PartialEq, Eq)]
pub struct Sums {
    /// The elements that `remove` took out.
    pub removed: u64,
    /// The elements that `clear` discarded.
    pub cleared: u64,
}

impl Sums {
    ghost use Rattle.rb_queue.specs.Counts.{sums_with};

    /// The sums over a history without events.
    pub const NONE: Sums = Sums {
        removed: 0,
        cleared: 0,
    };

    /// Adds what one act adds, if `standing` elements were in the queue before it. A sum that would
    /// pass 2^64 - 1 stays there.
    pub fn note(&mut self, act: &Act, standing: u64)
        ensures { self.new ≡ sums_with self.old act.now standing }
    {
        self.removed = self.removed.saturating_add(act.removed());
        self.cleared = self.cleared.saturating_add(act.cleared(standing));
    }
}
