ghost use Rattle.std.specs.Prelude.{◌≡◌, ℕ, ◌+◌, min};
ghost use Rattle.rb_delayed.specs.declared.moment.TheConstants.{GREATEST_MOMENT};

use rb_blocking::Clock;
use rb_delayed::add_capped;

/// The clock of a server, in nanoseconds: the moment at which its run begins, plus what another clock reads.
///
/// It reads at most 2^64 - 1.
#[derive(Drop)]
pub struct ServeClock<P: Clock> {
    first: u64,
    passed: P,
}

impl<P: Clock> ServeClock<P> {
    /// A clock that reads this moment, in nanoseconds, when the other one reads 0.
    pub fn new(first: u64, passed: P) -> ServeClock<P>
        ensures first { result.first ≡ first }
        ensures passed { result.passed ≡ passed }
    {
        ServeClock { first, passed }
    }
}

impl<P: Clock> Clock for ServeClock<P> {
    ghost gives = { λ clock moment.
        (passed : ℕ) × P.gives clock.passed passed × (moment ≡ min (clock.first + passed) GREATEST_MOMENT) };

    ghost reads = { λ clock tries moment.
        (passed : ℕ) × P.reads clock.passed tries passed × (moment ≡ min (clock.first + passed) GREATEST_MOMENT) };

    fn now(&self) -> u64 {
        add_capped(self.first, self.passed.now())
    }

    fn now_for_try(&self, tries: u64) -> u64 {
        add_capped(self.first, self.passed.now_for_try(tries))
    }
}
