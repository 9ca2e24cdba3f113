ghost use Rattle.std.specs.Prelude.{◌≡◌};
ghost use Rattle.rb_timer.specs.declared.clearing.TheConstants.{SLOTS_TO_AN_ENTRY};
ghost use Rattle.rb_timer.specs.declared.optional_index.TheConstants.{NONE};

/// A clear takes the entries out one by one if there are at least 8 slots for each, and every index below 2^64 - 1
/// can be noted in one word. Every other clause names the constants.
pub fn timer_constants_have_their_values()
    ensures clearing { SLOTS_TO_AN_ENTRY ≡ 8 }
    ensures none { NONE ≡ 18446744073709551615 }
{}
