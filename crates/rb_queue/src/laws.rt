ghost use Rattle.std.specs.Prelude.{◌≡◌, []};
ghost use Rattle.rb_queue.specs.Counts.{sums_of};
ghost use Rattle.rb_queue.specs.Leaving.{IsOfferedOnce, LeavesOnce, IsBalanced};
ghost use Rattle.rb_queue.specs.declared.opening.Opening.{Opening};
ghost use Rattle.rb_queue.specs.declared.opening.TheConstants.{MOST_OPENING_ELEMENTS, GREATEST_OPENING_ID};
ghost use Rattle.rb_queue.specs.declared.sums.TheConstants.Sums.{NONE};

/// In a legal history no id is offered twice, and none leaves twice. An element of the opening counts
/// as offered.
pub fn each_id_once()
    ensures offered { IsOfferedOnce }
    ensures leaves { LeavesOnce }
{}

/// In a legal history nothing is lost: each element of the opening and each that was offered was given,
/// removed or cleared, or is left.
pub fn each_element_counted()
    ensures { IsBalanced }
{}

/// A run without events has the sums `Sums::NONE`, whatever its opening is.
pub fn no_events_sum_to_none()
    ensures { (opening : Opening) → sums_of opening [] ≡ NONE }
{}

/// The limits of an opening are these numbers; the second is 2^40. Every other clause names the
/// constants.
pub fn opening_limits_have_their_values()
    ensures elements { MOST_OPENING_ELEMENTS ≡ 1000000 }
    ensures next_id { GREATEST_OPENING_ID ≡ 1099511627776 }
{}
