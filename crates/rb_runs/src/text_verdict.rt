ghost use Rattle.std.specs.Prelude.{◌≡◌, IfOk, IfErr, string_bytes};

use rb_ending::{BrokerFault, audit_line};
use rb_queue::Audit;
use rb_replay::{ChainReason, Reason, TextReason};
use std::alloc::Global;

/// The verdict on the text of a history.
#[derive(Clone, Copy, Debug, PartialEq, Eq)]
pub(crate) enum TextVerdict {
    /// It is not a history: the line of this number, counted from 1, has the first fault.
    Unreadable { line: u64, reason: TextReason },
    /// The history is not legal: the event of this index, counted from 0, is the first that is not
    /// allowed.
    Refused { index: u64, reason: Reason },
    /// The history is legal, but the event of this index, counted from 0, is the first whose offer
    /// is not a right attempt of a job.
    Unchained { index: u64, reason: ChainReason },
    /// The history is legal, its retries are right if they were checked, and these are its counts.
    Accepted(Audit),
}

impl TextVerdict {
    ghost use Rattle.rb_runs.specs.TextVerdict.{verdict_text, status_of_verdict};

    /// The line that `replay` prints. The only fault is `Memory`.
    pub(crate) fn line(&self, alloc: Global) -> Result<String, BrokerFault>
        ensures text { IfOk result (λ line. string_bytes line ≡ verdict_text self.now) }
        ensures fault { IfErr result (λ fault. fault ≡ BrokerFault.Memory) }
    {
        match self {
            TextVerdict::Unreadable { line, reason } => {
                Ok(format!(in alloc; "unreadable {line} {}\n", reason.as_str())?)
            }
            TextVerdict::Refused { index, reason } => {
                Ok(format!(in alloc; "refused {index} {}\n", reason.as_str())?)
            }
            TextVerdict::Unchained { index, reason } => {
                Ok(format!(in alloc; "unchained {index} {}\n", reason.as_str())?)
            }
            TextVerdict::Accepted(audit) => audit_line(alloc, audit),
        }
    }

    /// The exit status: 0 if the history is accepted, 1 if it is not.
    pub(crate) fn status(&self) -> u8
        ensures { result ≡ status_of_verdict self.now }
    {
        match self {
            TextVerdict::Accepted(_) => 0,
            _ => 1,
        }
    }
}
