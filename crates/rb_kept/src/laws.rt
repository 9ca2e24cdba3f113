ghost use Rattle.std.specs.Prelude.{◌≡◌};
ghost use Rattle.rb_kept.specs.declared.kept.TheConstants.{MOST_CALLS};

/// The greatest capacity is this number. Every other clause names the constant.
pub fn most_calls_has_its_value()
    ensures { MOST_CALLS ≡ 1000000 }
{}
