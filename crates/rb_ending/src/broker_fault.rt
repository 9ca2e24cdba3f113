ghost use Rattle.std.specs.Prelude.{◌≡◌};

use rb_history::HistoryFault;
use rb_session::SessionFault;
use std::alloc::AllocError;
use thiserror::Error;

/// Why a run of the program ended early.
#[derive(Clone, Copy, Debug, PartialEq, Eq, Error)]
pub enum BrokerFault {
    /// A read of standard input failed.
    #[error("cannot read input")]
    Read,
    /// A write to standard output failed.
    #[error("cannot write output")]
    Write,
    /// The input or a file did not end within the greatest number of reads.
    #[error("too many reads")]
    ReadTurns,
    /// The file of a history could not be opened or read.
    #[error("cannot read history")]
    ReadHistory,
    /// The file of a history could not be created or written.
    #[error("cannot write history")]
    WriteHistory,
    /// No run can continue this text: it is not a history, is not legal, or leads past a limit of openings.
    #[error("bad opening")]
    BadOpening,
    /// The server can't listen on its port.
    #[error("cannot listen")]
    Listen,
    /// A worker of the server can't be started.
    #[error("cannot start worker")]
    Worker,
    /// The server's history has calls that its workers' passes do not count.
    #[error("passes not gathered")]
    NotGathered,
    /// There is not enough memory for the run.
    #[error("out of memory")]
    Memory,
}

impl BrokerFault {
    ghost use Rattle.rb_ending.specs.BrokerFault.{status_of};

    /// The exit status of a run that ends with this fault: 1 for a bad opening, 4 for memory, 3 for
    /// any other.
    pub fn status(self) -> u8
        ensures { result ≡ status_of self }
    {
        match self {
            BrokerFault::BadOpening => 1,
            BrokerFault::Read
            | BrokerFault::Write
            | BrokerFault::ReadTurns
            | BrokerFault::ReadHistory
            | BrokerFault::WriteHistory
            | BrokerFault::Listen
            | BrokerFault::Worker
            | BrokerFault::NotGathered => 3,
            BrokerFault::Memory => 4,
        }
    }
}

impl From<SessionFault> for BrokerFault {
    ghost use Rattle.rb_ending.specs.BrokerFault.{fault_of_session};

    ghost from_gives = { λ fault answer. answer ≡ fault_of_session fault };

    fn from(fault: SessionFault) -> BrokerFault {
        match fault {
            SessionFault::Memory => BrokerFault::Memory,
            SessionFault::Read { .. } => BrokerFault::Read,
            SessionFault::Write { .. } => BrokerFault::Write,
            SessionFault::ReadTurns { .. } => BrokerFault::ReadTurns,
        }
    }
}

impl From<HistoryFault> for BrokerFault {
    ghost use Rattle.rb_ending.specs.BrokerFault.{fault_of_history};

    ghost from_gives = { λ fault answer. answer ≡ fault_of_history fault };

    fn from(fault: HistoryFault) -> BrokerFault {
        match fault {
            HistoryFault::Memory => BrokerFault::Memory,
            HistoryFault::Write => BrokerFault::WriteHistory,
        }
    }
}

impl From<AllocError> for BrokerFault {
    ghost use Rattle.rb_ending.specs.declared.broker_fault.BrokerFault.TheVariants.{Memory};

    ghost from_gives = { λ _ answer. answer ≡ Memory };

    fn from(_: AllocError) -> BrokerFault {
        BrokerFault::Memory
    }
}
