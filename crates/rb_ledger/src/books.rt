ghost use Rattle.std.specs.Prelude.{◌≡◌};
ghost use Rattle.rb_ledger.specs.Totals.{nothing, one_call, total_of};

use crate::tally::Tally;
use crate::totals::Totals;
use std::marker::Model;

/// The totals of a whole run.
#[derive(Debug, Drop)]
pub struct Books {
    totals: Totals,
}

impl Model for Books {
    ghost use Rattle.rb_ledger.specs.declared.totals.Totals.{Totals};

    ghost Value = { Totals };

    ghost view = { λ books. books.totals };
}

impl Books {
    /// The books of a run without a call, and the first share of them. Both are zero.
    pub fn new() -> (Books, Tally)
        ensures books { result.0 ≡ nothing }
        ensures tally { result.1 ≡ nothing }
    {
        let books = Books {
            totals: Totals::NOTHING,
        };
        (books, Tally::new())
    }

    /// Adds one call that offered and gave this many elements, both to the books and to its caller's
    /// share.
    pub fn note(&mut self, tally: &mut Tally, offered: u64, given: u64)
        ensures books { self.new ≡ total_of self.old (one_call offered given) }
        ensures tally { tally.new ≡ total_of tally.old (one_call offered given) }
    {
        let call = Totals {
            calls: 1,
            offered,
            given,
        };
        self.totals = self.totals.plus(call);
        tally.add(call);
    }

    /// How many calls got a reply.
    pub fn calls(&self) -> u64
        ensures { result ≡ self.now.calls }
    {
        self.totals.calls
    }

    /// How many elements were offered.
    pub fn offered(&self) -> u64
        ensures { result ≡ self.now.offered }
    {
        self.totals.offered
    }

    /// How many elements were given.
    pub fn given(&self) -> u64
        ensures { result ≡ self.now.given }
    {
        self.totals.given
    }

    /// All three counts.
    pub fn totals(&self) -> Totals
        ensures { result ≡ self.now }
    {
        self.totals
    }
}
