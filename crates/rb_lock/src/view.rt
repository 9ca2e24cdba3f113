use crate::pass_record::PassRecord;
use crate::stage::Stage;
use rb_queue::{Event, Opening};
use std::collections::LinkedList;

/// What a seat of the lock's table knows. It is only for proofs: no value of it is made.
pub(crate) struct View {
    /// Whether it is the view of a pass. That of a seat that a pass leaves behind is not, nor is a note.
    pub(crate) live: bool,
    pub(crate) capacity: u64,
    pub(crate) opening: Opening,
    /// How many names had been given when the lock was last taken, this seat's own draw among them.
    pub(crate) noted: u64,
    /// How often it has taken the lock: in proofs a number of any size.
    pub(crate) tried: u64,
    /// Its parts of the whole: in proofs a number of any size.
    pub(crate) parts: u64,
    pub(crate) name: u64,
    pub(crate) seen: LinkedList<Event>,
    pub(crate) mine: LinkedList<Event>,
    /// The passes that were folded into it, directly or through others.
    pub(crate) folded: LinkedList<PassRecord>,
    pub(crate) stage: Stage,
}
