use crate::fault::CallFault;
use rb_queue::Reply;

/// How a call that was not refused ended.
#[derive(Debug, Drop, PartialEq, Eq)]
pub enum Outcome {
    /// It got a reply: the history has exactly one more event.
    Done(Reply),
    /// It would wait, since nothing has expired. Nothing has changed. This is the least expiry, in
    /// nanoseconds, or `None` if the queue is empty.
    Later(Option<u64>),
}

/// How a try ended.
pub type Step = Result<Outcome, CallFault>;
