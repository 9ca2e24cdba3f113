use crate::draft::Draft;

/// What a caller may ask of the queue.
#[derive(Clone, Copy, Debug, PartialEq, Eq)]
pub enum Ask {
    /// Insert an element.
    Offer(Draft),
    /// Take the head, if there is one.
    Poll,
    /// Take the head, waiting for one if there is none.
    Take,
    /// Take the head, waiting for one until `timeout` nanoseconds after `start`.
    PollFor { start: u64, timeout: u64 },
    /// Show an element of least expiry, expired or not.
    Peek,
    /// Take out the element of this id, expired or not.
    Remove(u64),
    /// Take at most this many expired elements.
    Drain(u64),
    /// Discard all elements.
    Clear,
    /// Count the elements, expired or not.
    Size,
}
