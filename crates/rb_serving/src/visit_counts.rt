ghost use Rattle.std.specs.Prelude.{◌≡◌};
ghost use Rattle.rb_serving.specs.VisitCounts.{refused_visit, ended_visit, both_counts};
ghost use Rattle.rb_session.specs.Served.{lost_in};

use rb_session::{Ended, SessionFault};

/// The counts of visits, each at most 2^64 - 1.
#[derive(Clone, Copy, Default)]
pub(crate) struct VisitCounts {
    /// How many visits there were.
    pub(crate) sessions: u64,
    /// How many of them were refused at the door, or ended by a fault.
    pub(crate) faults: u64,
    /// How many jobs were lost at their ends: those whose next attempt was refused.
    pub(crate) lost: u64,
}

impl VisitCounts {
    /// A visit that was refused at the door.
    pub(crate) fn of_refusal() -> VisitCounts
        ensures { result ≡ refused_visit }
    {
        VisitCounts {
            sessions: 1,
            faults: 1,
            lost: 0,
        }
    }

    /// A visit whose session ended like this.
    pub(crate) fn of_session(outcome: &Result<Ended, SessionFault>) -> VisitCounts
        ensures { result ≡ ended_visit outcome.now }
    {
        VisitCounts {
            sessions: 1,
            faults: u64::from(outcome.is_err()),
            lost: lost_in(outcome),
        }
    }

    /// The sum of the two.
    pub(crate) fn with(self, other: VisitCounts) -> VisitCounts
        ensures { result ≡ both_counts self other }
    {
        VisitCounts {
            sessions: self.sessions.saturating_add(other.sessions),
            faults: self.faults.saturating_add(other.faults),
            lost: self.lost.saturating_add(other.lost),
        }
    }
}

// How many jobs a session lost at its end.
fn lost_in(outcome: &Result<Ended, SessionFault>) -> u64
    ensures { result ≡ lost_in outcome.now }
{
    match *outcome {
        Ok(Ended::Quit { lost } | Ended::EndOfInput { lost }) => lost,
        Err(SessionFault::Memory) => 0,
        Err(
            SessionFault::Read { lost }
            | SessionFault::Write { lost }
            | SessionFault::ReadTurns { lost },
        ) => lost,
    }
}
