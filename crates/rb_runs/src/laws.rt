ghost use Rattle.rb_runs.specs.WrittenRuns.{RecordedIsRead, ScriptIsRead};

use std::io::Write;

/// A history that was written whole, as by `record`, is read again: its text is read as just that opening and
/// those events, and `replay` prints the audit line of that run. A server that ended has printed this line,
/// since its report has the audit of its history.
pub fn recorded_is_read()
    ensures { RecordedIsRead }
{}

/// The history of a script that ended without a fault was written whole, if there is a device for it, and is
/// read again as that of just this session.
pub fn script_is_read<W: Write, H: Write>()
    ensures { ScriptIsRead W.contents H.contents }
{}
