//! The program's default timer: a binary heap that knows where each slot's entry is.
#![tactic(auto)]

mod binary_timer;
mod heap;

pub use binary_timer::BinaryTimer;
