ghost use Rattle.std.specs.Prelude.{◌≡◌};
ghost use Rattle.rb_delayed.specs.declared.element.TheConstants.{GREATEST_ATTEMPT};
ghost use Rattle.rb_delayed.specs.declared.moment.TheConstants.{GREATEST_MOMENT};
ghost use Rattle.rb_delayed.specs.declared.payload.TheConstants.{MOST_PAYLOAD_BYTES, LEAST_PAYLOAD_BYTE};
ghost use Rattle.rb_delayed.specs.declared.payload.TheConstants.{GREATEST_PAYLOAD_BYTE};

/// The limits are these numbers. Every other clause names the constants.
pub fn limits_have_their_values()
    ensures moment { GREATEST_MOMENT ≡ 18446744073709551615 }
    ensures attempt { GREATEST_ATTEMPT ≡ 1000 }
    ensures payload_bytes { MOST_PAYLOAD_BYTES ≡ 64 }
    ensures least_byte { LEAST_PAYLOAD_BYTE ≡ 33 }
    ensures greatest_byte { GREATEST_PAYLOAD_BYTE ≡ 126 }
{}
