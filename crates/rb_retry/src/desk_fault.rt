ghost use Rattle.std.specs.Prelude.{◌≡◌};
ghost use Rattle.rb_retry.specs.KeptSteps.{fault_of};

use rb_kept::CallFault;
use thiserror::Error;

/// Why a call at a desk got no reply. It made no event. If several hold, the first is returned.
#[derive(Clone, Copy, Debug, PartialEq, Eq, Error)]
pub enum DeskFault {
    /// The history has as many events as it has room for.
    #[error("the history is full")]
    Full,
    /// There is not enough memory for an offer or a drain.
    #[error("out of memory")]
    Memory,
    /// A take or a timed poll stopped waiting.
    #[error("the wait was given up")]
    Stopped,
}

impl From<CallFault> for DeskFault {
    ghost from_gives = { λ fault result. result ≡ fault_of fault };

    fn from(fault: CallFault) -> DeskFault {
        match fault {
            CallFault::Full => DeskFault::Full,
            CallFault::Memory => DeskFault::Memory,
        }
    }
}
