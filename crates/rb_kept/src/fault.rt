ghost use Rattle.std.specs.Prelude.{◌≡◌};
ghost use Rattle.rb_kept.specs.declared.fault.CallFault.TheVariants.{Memory};

use std::alloc::AllocError;
use thiserror::Error;

/// Why no kept queue could be made. If both hold, the first is returned.
#[derive(Clone, Copy, Debug, PartialEq, Eq, Error)]
pub enum NewFault {
    /// The capacity is 0 or above 1,000,000.
    #[error("a history has room for 1 to 1,000,000 calls")]
    BadCapacity,
    /// There is not enough memory for the history, or for the elements of the opening.
    #[error("out of memory")]
    Memory,
}

/// Why a call got no reply. The call changed nothing. If both hold, the first is returned.
#[derive(Clone, Copy, Debug, PartialEq, Eq, Error)]
pub enum CallFault {
    /// The history has as many events as its capacity.
    #[error("the history is full")]
    Full,
    /// There is not enough memory for the offered element, or for the elements that are drained.
    #[error("out of memory")]
    Memory,
}

impl From<AllocError> for CallFault {
    ghost from_gives = { λ _ fault. fault ≡ Memory };

    fn from(_error: AllocError) -> CallFault {
        CallFault::Memory
    }
}
