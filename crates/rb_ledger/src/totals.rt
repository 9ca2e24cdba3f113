ghost use Rattle.std.specs.Prelude.{◌≡◌};

/// The greatest count, 2^64 - 1.
pub const GREATEST_COUNT: u64 = u64::MAX;

/// How many calls there were, and how many elements they offered and gave.
#[derive(Clone, Copy, Debug, PartialEq, Eq)]
pub struct Totals {
    /// How many calls got a reply.
    pub calls: u64,
    /// How many elements were offered.
    pub offered: u64,
    /// How many elements were given.
    pub given: u64,
}

impl Totals {
    ghost use Rattle.rb_ledger.specs.Totals.{total_of};

    // No calls and no elements.
    pub(crate) const NOTHING: Totals = Totals {
        calls: 0,
        offered: 0,
        given: 0,
    };

    // The sum of the two. A count that would pass 2^64 - 1 stays there.
    pub(crate) fn plus(self, other: Totals) -> Totals
        ensures { result ≡ total_of self other }
    {
        Totals {
            calls: self.calls.saturating_add(other.calls),
            offered: self.offered.saturating_add(other.offered),
            given: self.given.saturating_add(other.given),
        }
    }
}
