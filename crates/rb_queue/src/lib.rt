//! A queue whose elements may be taken once their delay has expired, like
//! `java.util.concurrent.DelayQueue` (Java SE 17), and which histories of its calls are legal.
//!
//! Contracts see the queue as a bag of elements, which has no order, and the id that the next offer
//! gets. What each call may do is one named permission on these, which the legal histories cite
//! too. What it changes follows from the effect of its act. Moments and delays are nanoseconds.
#![tactic(auto)]

mod act;
mod ask;
mod audit;
mod delay_queue;
mod draft;
mod event;
mod laws;
mod opening;
mod reply;
mod sequence;
mod store;
mod sums;

pub use act::Act;
pub use ask::Ask;
pub use audit::Audit;
pub use delay_queue::DelayQueue;
pub use draft::Draft;
pub use event::Event;
pub use laws::{
    each_element_counted, each_id_once, no_events_sum_to_none, opening_limits_have_their_values,
};
pub use opening::{GREATEST_OPENING_ID, MOST_OPENING_ELEMENTS, Opening};
pub use reply::Reply;
pub use sequence::{Ids, Items, Sequence};
pub use sums::Sums;
