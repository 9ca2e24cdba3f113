ghost use Rattle.std.specs.Prelude.{◌≡◌};
ghost use Rattle.rb_replay.specs.ChainReasonText.{chain_reason_text};

/// Why an offered element is neither a job's first attempt nor what a policy offers after the attempt
/// before.
#[derive(Clone, Copy, Debug, PartialEq, Eq)]
pub enum ChainReason {
    /// It is a first attempt, and its origin is not its own id or its `first` not its own expiry.
    BadFirst,
    /// The policy allows fewer attempts.
    TooMany,
    /// No earlier event gave an element that is the attempt before of the same job.
    NoParent,
    /// The first element so given has another payload.
    Payload,
    /// The first element so given has another `first`.
    Base,
    /// The policy gives another expiry.
    Expiry,
    /// The same attempt of the same job was offered before, or was there at the start.
    Twice,
}

impl ChainReason {
    /// The reason as it is printed.
    pub fn as_str(self) -> &'static str
        ensures { result.now ≡ chain_reason_text self }
    {
        match self {
            ChainReason::BadFirst => "bad first",
            ChainReason::TooMany => "too many",
            ChainReason::NoParent => "no parent",
            ChainReason::Payload => "payload",
            ChainReason::Base => "base",
            ChainReason::Expiry => "expiry",
            ChainReason::Twice => "twice",
        }
    }
}
