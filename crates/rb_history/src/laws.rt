ghost use Rattle.std.specs.Prelude.{◌≡◌};
ghost use Rattle.rb_history.specs.Readings.{OneTextEach, NoTextOfTwo, NoFaultOfText, OneFault};
ghost use Rattle.rb_history.specs.declared.write.TheConstants.{MOST_EVENTS};

/// A history has at most one text in each version.
pub fn one_text_each()
    ensures { OneTextEach }
{}

/// No text is that of two histories, nor that of one history in two versions, if all values are in their
/// ranges: numbers of 64 bits, and payloads.
pub fn no_text_of_two()
    ensures { NoTextOfTwo }
{}

/// A text of a history has no fault, so it can be read, if all values are in their ranges.
pub fn no_fault_of_text()
    ensures { NoFaultOfText }
{}

/// A text has at most one fault: the first.
pub fn one_fault()
    ensures { OneFault }
{}

/// A text has at most this many events. Every other clause names the constant.
pub fn most_events_has_its_value()
    ensures { MOST_EVENTS ≡ 1000000 }
{}
