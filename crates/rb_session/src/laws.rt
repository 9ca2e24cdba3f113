ghost use Rattle.std.specs.Prelude.{◌≡◌};
ghost use Rattle.rb_session.specs.Exchange.{CameFirst, SentLast};
ghost use Rattle.rb_session.specs.declared.delivery.TheConstants.{GATHERED_BYTES};
ghost use Rattle.rb_session.specs.declared.held_jobs.TheConstants.{MOST_HELD};

/// What a reader that tells its bytes had left is what came, followed by what it has left. If it is
/// at its end, that is all that came.
pub fn came_first()
    ensures { CameFirst }
{}

/// What a writer that tells its bytes has got is what it had got before, followed by what was sent.
pub fn sent_last()
    ensures { SentLast }
{}

/// How many jobs a session holds at most, and how many bytes of replies it gathers. All other clauses name
/// the constants.
pub fn session_limits_have_their_values()
    ensures held { MOST_HELD ≡ 64 }
    ensures gathered { GATHERED_BYTES ≡ 65536 }
{}
