use thiserror::Error;

/// Why a waiting call got no reply. It made no event.
#[derive(Clone, Copy, Debug, PartialEq, Eq, Error)]
pub enum WaitFault {
    /// The history has as many events as its capacity.
    #[error("the history is full")]
    Full,
    /// The gate ended the wait.
    #[error("the wait was stopped")]
    Stopped,
}
