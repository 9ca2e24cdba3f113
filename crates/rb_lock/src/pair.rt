ghost use Rattle.std.specs.Prelude.{◌≤◌, length};
ghost use Rattle.rb_queue.specs.History.{IsLegal};

use rb_kept::Kept;
use rb_timer::Timer;

/// The greatest number of names that are given to the passes of one queue.
pub const MOST_NAMES: u64 = 65_536;

/// What the slot of the lock holds: the kept queue, and how many names of passes have been given.
#[derive(Drop)]
pub(crate) struct Pair<T: Timer> {
    pub(crate) kept: Kept<T>,
    pub(crate) names: u64,
}

impl<T: Timer> Pair<T> {
    ghost use Rattle.rb_lock.specs.LockSteps.{GivesName};

    /// Gives the next name. `None` if all are given.
    pub(crate) fn give_name(&mut self) -> Option<u64>
        ensures gives { GivesName self.old result self.new }
        ensures legal { IsLegal self.old.kept.opening self.old.kept.history }
        ensures fits { length self.old.kept.history ≤ self.old.kept.capacity }
    {
        // For the proof: the history is legal and has room.
        let _ = self.kept.history();
        let _ = self.kept.capacity();
        if self.names >= MOST_NAMES {
            return None;
        }
        self.names += 1;
        Some(self.names - 1)
    }
}
