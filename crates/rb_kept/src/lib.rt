//! A queue with the history of its calls. Each call that gets a reply is one more event, and the
//! history is always one that a single queue could have had from its opening on.
//!
//! Moments are nanoseconds. The memory for all events is taken when the history is made, except
//! that the ids of each drain have their own.
#![tactic(auto)]

mod fault;
mod kept;
mod laws;
mod outcome;
mod perform;
mod tries;

pub use fault::{CallFault, NewFault};
pub use kept::{Kept, MOST_CALLS};
pub use laws::most_calls_has_its_value;
pub use outcome::{Outcome, Step};
pub use rb_queue::Audit;
pub use tries::Try;
