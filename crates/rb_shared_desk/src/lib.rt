//! A desk over a shared queue, so that sessions and jobs of many threads share one queue.
//!
//! It is a crate of its own, so that code which needs no lock and never waits, such as a session
//! over a kept queue or a replay, does not depend on either. Moments are nanoseconds.
#![tactic(auto)]

mod shared_desk;

pub use shared_desk::SharedDesk;
