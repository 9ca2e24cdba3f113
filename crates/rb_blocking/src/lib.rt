//! Calls of a shared queue that wait: for an element to expire, for a deadline, or for another thread's offer.
//!
//! A call waits by trying again. Each try is at a fresh reading of a clock, and holds the lock like
//! any other call; between two tries the caller rests at a bell, and a gate may end the wait.
#![tactic(auto)]

mod clock;
mod fault;
mod gate;
mod machine_clock;
mod offers;
mod rests;
mod turn_gate;
mod waiter;
mod waits;

pub use clock::Clock;
pub use fault::WaitFault;
pub use gate::Gate;
pub use machine_clock::MachineClock;
pub use offers::offer_ring;
pub use rb_bell::{Bell, Rested};
pub use turn_gate::TurnGate;
pub use waiter::Waiter;
pub use waits::{call_and_wait, poll_for, take};
