use crate::sequence::Items;
use rb_delayed::Element;

/// The reply to a call.
#[derive(Debug, Drop, PartialEq, Eq)]
pub enum Reply {
    /// This element was inserted.
    Offered(Element),
    /// This element was taken.
    Item(Element),
    /// There was nothing to take or to show.
    Nothing,
    /// This element has least expiry. It stays in the queue.
    Head(Element),
    /// Whether the element was in the queue. If so, it was taken out.
    Removed(bool),
    /// These elements were taken, in this order.
    Drained(Items),
    /// All elements were discarded.
    Cleared,
    /// There are this many elements.
    Size(u64),
}
