use rb_queue::Event;
use std::collections::LinkedList;

/// What is remembered of a pass. It is only for proofs: no value of it is made.
pub(crate) struct PassRecord {
    /// The seat of its events.
    pub(crate) name: u64,
    /// The history, as far as it had seen it.
    pub(crate) seen: LinkedList<Event>,
    /// The events of its own calls.
    pub(crate) mine: LinkedList<Event>,
}
