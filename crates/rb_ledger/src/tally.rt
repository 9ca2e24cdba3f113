ghost use Rattle.std.specs.Prelude.{◌≡◌};
ghost use Rattle.rb_ledger.specs.Totals.{nothing, total_of};

use crate::totals::Totals;
use std::marker::Model;

/// One caller's share of the totals of a run.
///
/// It is made with the books or split off another share, and counts the calls that `Books::note` adds.
#[derive(Debug, Drop)]
pub struct Tally {
    totals: Totals,
}

impl Model for Tally {
    ghost use Rattle.rb_ledger.specs.declared.totals.Totals.{Totals};

    ghost Value = { Totals };

    ghost view = { λ tally. tally.totals };
}

impl Tally {
    pub(crate) fn new() -> Tally
        ensures { result ≡ nothing }
    {
        Tally {
            totals: Totals::NOTHING,
        }
    }

    pub(crate) fn add(&mut self, more: Totals)
        ensures { self.new ≡ total_of self.old more }
    {
        self.totals = self.totals.plus(more);
    }

    /// A new share, of zero. This one stays as it is.
    pub fn split(&mut self) -> Tally
        ensures share { result ≡ nothing }
        ensures same { self.new ≡ self.old }
    {
        Tally::new()
    }

    /// Adds the other share to this one.
    pub fn join(&mut self, other: Tally)
        ensures { self.new ≡ total_of self.old other }
    {
        self.add(other.totals);
    }

    /// How many calls got a reply.
    pub fn calls(&self) -> u64
        ensures { result ≡ self.now.calls }
    {
        self.totals.calls
    }

    /// How many elements were offered.
    pub fn offered(&self) -> u64
        ensures { result ≡ self.now.offered }
    {
        self.totals.offered
    }

    /// How many elements were given.
    pub fn given(&self) -> u64
        ensures { result ≡ self.now.given }
    {
        self.totals.given
    }

    /// All three counts.
    pub fn totals(&self) -> Totals
        ensures { result ≡ self.now }
    {
        self.totals
    }
}
