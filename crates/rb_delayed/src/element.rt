ghost use Rattle.std.specs.Prelude.{◌≤◌};
ghost use Rattle.rb_delayed.specs.declared.element.TheConstants.{GREATEST_ATTEMPT};

use crate::delayed::Delayed;
use crate::payload::Payload;

/// The greatest attempt number: no job is tried more often.
pub const GREATEST_ATTEMPT: u32 = 1_000;

/// What a delay queue holds: a payload with the moment from which it may be taken.
#[derive(Clone, Copy, Debug, PartialEq, Eq)]
pub struct Element {
    /// The number that the queue gave it, which no other element has.
    pub id: u64,
    /// The moment, in nanoseconds, from which it is expired.
    pub expiry: u64,
    /// The id of the first element of this job, which is its own at the first attempt.
    pub origin: u64,
    /// The expiry of that first element, in nanoseconds. A retry at a fixed rate counts from it.
    pub first: u64,
    /// Which attempt of the job it is, 1 to 1,000.
    pub attempt: u32,
    /// What the job carries.
    pub payload: Payload,
    pub ghost attempt_from_one: { 1 ≤ attempt },
    pub ghost attempt_in_range: { attempt ≤ GREATEST_ATTEMPT },
}

impl Delayed for Element {
    ghost id = { λ element. element.id };

    ghost expiry = { λ element. element.expiry };

    fn id(&self) -> u64 {
        self.id
    }

    fn expiry(&self) -> u64 {
        self.expiry
    }
}
