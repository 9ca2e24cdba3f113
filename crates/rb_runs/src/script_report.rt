ghost use Rattle.std.specs.Prelude.{◌≡◌, Err};
ghost use Rattle.rb_runs.specs.Script.{result_of};

use crate::recording::Recording;
use rb_ending::BrokerFault;
use rb_session::{Ended, SessionFault};

/// The outcome of a script's run.
#[derive(Clone, Copy, Debug, PartialEq, Eq)]
pub struct ScriptReport {
    /// How the session ended.
    pub session: Result<Ended, SessionFault>,
    /// What became of the run's history.
    pub recording: Recording,
}

impl ScriptReport {
    // Of a session that found no memory, so that nothing was read.
    pub(crate) fn unbegun(recording: Recording) -> ScriptReport
        ensures { result ≡ record { session = Err SessionFault.Memory; recording = recording } }
    {
        ScriptReport {
            session: Err(SessionFault::Memory),
            recording,
        }
    }

    /// How the run ended: with the session's fault, if it has one, and otherwise with that of its history.
    pub fn result(&self) -> Result<Ended, BrokerFault>
        ensures { result ≡ result_of self.now.session self.now.recording }
    {
        match (self.session, self.recording) {
            (Err(fault), _) => Err(BrokerFault::from(fault)),
            (Ok(_), Recording::Failed(fault)) => Err(BrokerFault::from(fault)),
            (Ok(ended), _) => Ok(ended),
        }
    }
}
