ghost use Rattle.std.specs.Prelude.{◌≡◌};
ghost use Rattle.rb_protocol.specs.declared.format.TheConstants.{SPACE, LINE_FEED, CARRIAGE_RETURN};
ghost use Rattle.rb_protocol.specs.declared.limits.TheConstants.{MOST_READS, MOST_WRITES, BUFFER_BYTES};
ghost use Rattle.rb_protocol.specs.declared.line_reply.TheConstants.{MOST_REPLY_BYTES, REPLY_ROOM};
ghost use Rattle.rb_protocol.specs.declared.request.TheConstants.{MOST_LINE_BYTES};

/// The limits of lines and of reads, and the bytes between words and at the ends of lines, are these numbers.
/// Every other clause names the constants.
pub fn limits_have_their_values()
    ensures line { MOST_LINE_BYTES ≡ 256 }
    ensures reply { MOST_REPLY_BYTES ≡ 117 }
    ensures room { REPLY_ROOM ≡ 128 }
    ensures reads { MOST_READS ≡ 10000000 }
    ensures writes { MOST_WRITES ≡ 18446744073709551615 }
    ensures buffer { BUFFER_BYTES ≡ 65536 }
    ensures space { SPACE ≡ 32 }
    ensures line_feed { LINE_FEED ≡ 10 }
    ensures carriage_return { CARRIAGE_RETURN ≡ 13 }
{}
