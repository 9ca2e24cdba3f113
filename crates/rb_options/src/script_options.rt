ghost use Rattle.std.specs.Prelude.{◌≤◌};
ghost use Rattle.rb_kept.specs.declared.kept.TheConstants.{MOST_CALLS};

use crate::timer_kind::TimerKind;
use rb_retry::Policy;

/// The options of `script`.
#[derive(Clone, Copy, Debug, PartialEq, Eq)]
pub struct ScriptOptions {
    /// Which timer the queue uses.
    pub timer: TimerKind,
    /// How many calls the run has room for, 1 to 1,000,000.
    pub calls: u64,
    /// When a failed job is offered again, and how often.
    pub policy: Policy,
    pub ghost calls_from_one: { 1 ≤ calls },
    pub ghost calls_in_range: { calls ≤ MOST_CALLS },
}
