ghost use Rattle.std.specs.Prelude.{◌≡◌, ◌≤◌, None, is_some};
ghost use Rattle.rb_delayed.specs.declared.element.TheConstants.{GREATEST_ATTEMPT};

use rb_delayed::{Element, Payload};

/// An element that is to be offered, before it has an id.
#[derive(Clone, Copy, Debug, PartialEq, Eq)]
pub struct Draft {
    /// The moment, in nanoseconds, from which the element is expired.
    pub expiry: u64,
    /// The id of the first element of this job, or `None` for the element's own.
    pub origin: Option<u64>,
    /// The expiry of that first element, in nanoseconds, or `None` for the element's own.
    pub first: Option<u64>,
    /// Which attempt of the job it is, 1 to 1,000.
    pub attempt: u32,
    /// What the job carries.
    pub payload: Payload,
    pub ghost first_with_origin: { is_some first ≡ is_some origin },
    pub ghost attempt_from_one: { 1 ≤ attempt },
    pub ghost attempt_in_range: { attempt ≤ GREATEST_ATTEMPT },
}

impl Draft {
    ghost use Rattle.rb_queue.specs.Draft.{IsDrafted};

    /// The draft of a job's first element, which expires at `expiry`, in nanoseconds, and is its own
    /// origin.
    pub fn first(expiry: u64, payload: Payload) -> Draft
        ensures expiry { result.expiry ≡ expiry }
        ensures origin { result.origin ≡ None }
        ensures first { result.first ≡ None }
        ensures attempt { result.attempt ≡ 1 }
        ensures payload { result.payload ≡ payload }
    {
        Draft {
            expiry,
            origin: None,
            first: None,
            attempt: 1,
            payload,
        }
    }

    // The element under an id, which is its own origin if the draft names none.
    pub(crate) fn element(self, id: u64) -> Element
        ensures id { result.id ≡ id }
        ensures drafted { IsDrafted self result }
    {
        Element {
            id,
            expiry: self.expiry,
            origin: self.origin.unwrap_or(id),
            first: self.first.unwrap_or(self.expiry),
            attempt: self.attempt,
            payload: self.payload,
        }
    }
}
