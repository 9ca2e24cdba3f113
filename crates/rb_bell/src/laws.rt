ghost use Rattle.std.specs.Prelude.{◌≡◌};
ghost use Rattle.rb_bell.specs.declared.bell.TheConstants.{LONGEST_REST};
ghost use Rattle.rb_bell.specs.declared.bell_state.TheConstants.{PLACES, RECENT};

/// A call rests for at most 20 milliseconds, at one of 16 places, and a bell knows what its last 16 rings were for.
/// Every other clause names the constants.
pub fn bell_limits_have_their_values()
    ensures rest { LONGEST_REST ≡ 20 }
    ensures places { PLACES ≡ 16 }
    ensures rings { RECENT ≡ 16 }
{}
