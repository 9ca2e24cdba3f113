ghost use Rattle.std.specs.Prelude.{◌≡◌, length};

use crate::sequence::Ids;
use rb_delayed::Element;

/// What an event did. Elements that were offered earlier are named by their ids.
#[derive(Debug, Drop, PartialEq, Eq)]
pub enum Act {
    /// This element was inserted.
    Offer(Element),
    /// The element of this id was taken, or nothing had expired.
    Poll(Option<u64>),
    /// The element of this id was taken.
    Take(u64),
    /// The element of this id was taken, or nothing had expired at the deadline, `timeout`
    /// nanoseconds after `start`.
    PollFor {
        start: u64,
        timeout: u64,
        got: Option<u64>,
    },
    /// The element of this id was shown, or the queue was empty.
    Peek(Option<u64>),
    /// The element of this id was taken out, if it was found.
    Remove {
        id: u64,
        found: bool,
    },
    /// The elements of these ids were taken, at most `max`.
    Drain {
        max: u64,
        ids: Ids,
    },
    /// All elements were discarded.
    Clear,
    /// There were this many elements.
    Size(u64),
}

impl Act {
    ghost use Rattle.rb_queue.specs.Effect.{effect_of, inserted, given, removed, cleared};

    /// How many elements it inserted.
    pub fn offered(&self) -> u64
        ensures { result ≡ length (inserted (effect_of self.now)) }
    {
        u64::from(matches!(self, Act::Offer(_)))
    }

    /// How many elements it gave to the caller.
    pub fn given(&self) -> u64
        ensures { result ≡ length (given (effect_of self.now)) }
    {
        match self {
            Act::Poll(Some(_)) | Act::Take(_) | Act::PollFor { got: Some(_), .. } => 1,
            Act::Drain { ids, .. } => ids.as_slice().len() as u64,
            _ => 0,
        }
    }

    /// How many elements it took out by their id.
    pub fn removed(&self) -> u64
        ensures { result ≡ length (removed (effect_of self.now)) }
    {
        u64::from(matches!(self, Act::Remove { found: true, .. }))
    }

    /// How many elements it cleared, if there were `standing` in the queue.
    pub fn cleared(&self, standing: u64) -> u64
        ensures { result ≡ cleared (effect_of self.now) standing }
    {
        match self {
            Act::Clear => standing,
            _ => 0,
        }
    }
}
