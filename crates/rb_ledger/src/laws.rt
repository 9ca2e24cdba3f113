ghost use Rattle.std.specs.Prelude.{◌≡◌};
ghost use Rattle.rb_ledger.specs.declared.totals.TheConstants.{GREATEST_COUNT};

/// The greatest count is this number, 2^64 - 1. Every other clause names the constant.
pub fn greatest_count_has_its_value()
    ensures { GREATEST_COUNT ≡ 18446744073709551615 }
{}
