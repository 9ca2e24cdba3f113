use rb_retry::Policy;

/// The options of `replay`.
#[derive(Clone, Copy, Debug, PartialEq, Eq)]
pub struct ReplayOptions {
    /// The policy by which the retries of a legal history are checked, if they are.
    pub chains: Option<Policy>,
}
