ghost use Rattle.std.specs.Prelude.{◌≡◌};
ghost use Rattle.rb_lock.specs.Passes.{IsSoundPass, tally_of};

use crate::rule::PassSeat;
use rb_ledger::Tally;
use rb_timer::Timer;
use std::fmt::{self, Debug, Formatter};
use std::marker::Model;

/// The right of one thread to call a shared queue, under a name of its own.
///
/// It stores its calls' share of the totals. Contracts see what it has seen of the history, its own
/// calls, the passes that were folded into it, and its parts of the whole, by which a pass knows that no other is left;
/// none of that is stored.
#[derive(Drop)]
pub struct Pass<T: Timer> {
    pub(crate) seat: PassSeat<T>,
    pub(crate) name: u64,
    pub(crate) tally: Tally,
}

impl<T: Timer> Model for Pass<T> {
    ghost use Rattle.rb_lock.specs.Passes.{PassState, seen_code};

    ghost Value = { PassState };

    ghost coded = { seen_code };

    ghost use Rattle.rb_lock.specs.Views.{pass_of};
    ghost use Rattle.rb_lock.specs.LockSteps.{IsPass};

    ghost view = { λ pass. pass_of pass.seat.table_id pass.seat.me.0 };

    ghost invariant = { λ pass. IsPass pass.seat.table_id pass.seat.me pass.name pass.tally };
}

impl<T: Timer> Pass<T> {
    /// The seat of its events: 0 for the first pass of a queue. No name is given twice.
    pub fn name(&self) -> u64
        ensures name { result ≡ self.now.name }
        ensures sound { IsSoundPass self.now }
    {
        self.name
    }

    /// How many calls of this pass and of those folded into it got a reply.
    pub fn calls(&self) -> u64
        ensures { result ≡ (tally_of self.now).calls }
    {
        self.tally.calls()
    }
}

impl<T: Timer> Debug for Pass<T> {
    fn fmt<W: fmt::Write>(&self, f: &mut Formatter<W>) -> fmt::Result {
        f.debug_struct("Pass")
            .field("name", &self.name)
            .field("tally", &self.tally)
            .finish_non_exhaustive()
    }
}
