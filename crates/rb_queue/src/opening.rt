ghost use Rattle.std.specs.Prelude.{◌≡◌, ◌+◌, ◌<◌, ◌≤◌, ◌↔◌, [], length, IsTrue, IsSome, IfSome};
ghost use Rattle.std.proofs.Props.{props};
ghost use Rattle.rb_queue.specs.Opening.{IsOpening, AreInOrder};

use crate::sequence::Items;
use rb_delayed::Element;
use std::alloc::Global;

/// The greatest number of elements in an opening.
pub const MOST_OPENING_ELEMENTS: usize = 1_000_000;

/// The greatest next id of an opening, 2^40.
pub const GREATEST_OPENING_ID: u64 = 1_099_511_627_776;

/// What a run begins with: the elements in the queue, in rising order of their ids, the id that the
/// next offer gets, and the moment of the last event before, in nanoseconds.
#[derive(Debug, Drop, PartialEq, Eq)]
pub struct Opening {
    /// The elements in the queue, at most 1,000,000, each id above the one before and below `next_id`.
    pub elements: Items,
    /// The id that the next offer gets, at most 2^40.
    pub next_id: u64,
    /// The moment of the last event before the run, in nanoseconds. No event of the run is earlier.
    pub last_at: u64,
    pub ghost opening: { IsOpening elements next_id } by { Prim.hlevel props },
}

impl Opening {
    /// The opening with no element, in which ids and moments begin at 0. It takes no memory.
    pub fn empty(alloc: Global) -> Opening
        ensures elements { result.elements ≡ [] }
        ensures next_id { result.next_id ≡ 0 }
        ensures last_at { result.last_at ≡ 0 }
    {
        Opening {
            elements: Items::new(Vec::new(alloc)),
            next_id: 0,
            last_at: 0,
        }
    }

    /// The opening of these elements. `None` exactly if there are more than 1,000,000, if their ids
    /// do not rise or are not below `next_id`, or if that is above 2^40. It takes no memory, and
    /// looks at each element once.
    pub fn new(elements: Items, next_id: u64, last_at: u64) -> Option<Opening>
        ensures opening { IsSome result ↔ IsOpening elements next_id }
        ensures elements { IfSome result (λ opening. opening.elements ≡ elements) }
        ensures next_id { IfSome result (λ opening. opening.next_id ≡ next_id) }
        ensures last_at { IfSome result (λ opening. opening.last_at ≡ last_at) }
    {
        let few = elements.as_slice().len() <= MOST_OPENING_ELEMENTS;
        if few && next_id <= GREATEST_OPENING_ID && are_in_order(elements.as_slice(), next_id) {
            Some(Opening {
                elements,
                next_id,
                last_at,
            })
        } else {
            None
        }
    }
}

// Whether each id is above the one before it, and below `end`.
fn are_in_order(elements: &[Element], end: u64) -> bool
    ensures { IsTrue result ↔ AreInOrder elements.now end }
{
    // The least id that may come next.
    let mut least = 0;
    for element in elements {
        if element.id < least || element.id >= end {
            return false;
        }
        least = element.id + 1;
    }
    true
}
