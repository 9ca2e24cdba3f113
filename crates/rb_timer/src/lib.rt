//! Which slot expires first: the contract of all timers, a run over any of them, and the plain timer.
//!
//! Contracts see a timer as a finite map from slot to expiry, with a room that every slot is below.
//! A slot is a number that the timer's owner chose, and an expiry a moment in nanoseconds. Only
//! `reserve` takes memory and may fail, so an owner that has made room cannot fail later.
//! `optional_index` has the words in which timers note slots and places.
#![tactic(auto)]

mod clearing;
mod command;
mod laws;
mod list_timer;
pub mod optional_index;
mod run;
mod timer;

pub use clearing::clears_one_by_one;
pub use command::{TimerAnswer, TimerCommand};
pub use laws::timer_constants_have_their_values;
pub use list_timer::ListTimer;
pub use run::run_timer;
pub use timer::Timer;
