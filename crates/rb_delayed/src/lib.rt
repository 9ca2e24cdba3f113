//! What a delay queue holds: elements with their payloads, each with the moment at which it expires.
//!
//! A moment is a `u64` count of nanoseconds. The delay of an element at a moment is its expiry
//! minus that moment, and may be negative. The element is expired once its delay is zero or less,
//! as in `java.util.concurrent.Delayed` and `DelayQueue` (Java SE 17). Nothing here takes memory.
#![tactic(auto)]

mod delayed;
mod element;
mod laws;
mod moment;
mod payload;
mod payload_fault;

pub use delayed::{Delayed, is_expired};
pub use element::{Element, GREATEST_ATTEMPT};
pub use laws::limits_have_their_values;
pub use moment::{GREATEST_MOMENT, add_capped, add_delay};
pub use payload::{GREATEST_PAYLOAD_BYTE, LEAST_PAYLOAD_BYTE, MOST_PAYLOAD_BYTES, Payload};
pub use payload_fault::PayloadFault;
