//! A bell: where calls rest that wait, and what wakes them.
//!
//! It knows moments and nothing of what is waited for. A call that rests says when it will look again by itself;
//! a ring says from when on there will be something to find.
#![tactic(auto)]

mod bell;
mod bell_state;
mod laws;
mod place;
mod rested;
#[cfg(test)]
mod tests;

pub use bell::{Bell, longest_rest};
pub use laws::bell_limits_have_their_values;
pub use rested::Rested;
