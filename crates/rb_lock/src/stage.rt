use rb_queue::{Event, Opening};
use std::collections::LinkedList;

/// What a seat is about to do. It is only for proofs: no value of it is made.
pub(crate) enum Stage {
    /// Nothing.
    Idle,
    /// It holds the lock, and found this history.
    Holds(LinkedList<Event>),
    /// It has drawn this name, and not yet given it to a new pass.
    Drew(u64),
    /// It compares what two passes had seen. The other's run has this capacity and this opening.
    Meets {
        one: LinkedList<Event>,
        other: LinkedList<Event>,
        room: u64,
        start: Opening,
    },
    /// It was joined to another seat, and is spent.
    Gone,
}
