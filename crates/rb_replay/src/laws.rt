ghost use Rattle.rb_replay.specs.WrittenHistories.{WrittenIsRead};

/// What is written of a run can be read again. The text of an opening and a legal history, with no more
/// events than a `Kept` has room for, is read as exactly that opening and those events, and `check`
/// returns the audit of that `Kept`, unless memory is refused. All values have to be in their ranges, as
/// they are in each text that `write_history` has written whole.
pub fn written_is_read()
    ensures { WrittenIsRead }
{}
