//! The checks that a history is legal, and that its retries are right.
//!
//! `check` accepts exactly the histories that one queue in one thread could have had. `chains`, the check
//! of retries, accepts exactly the legal histories in which each offer begins a job or continues one as a
//! policy says. Moments and delays are nanoseconds. This crate also exports the calls of `rb_history` that
//! read and write the text of a history.
#![tactic(auto)]

mod attempt;
mod attempt_index;
mod calls;
mod chain_fault;
mod chain_reason;
mod judge;
mod laws;
mod offered_element;
mod opening_fault;
mod reason;
mod replay;
mod replay_fault;
mod replayed_queue;

pub use calls::chains::chains;
pub use calls::check::check;
pub use calls::opening_of::opening_of;
pub use chain_fault::ChainFault;
pub use chain_reason::ChainReason;
pub use laws::written_is_read;
pub use opening_fault::OpeningFault;
pub use rb_history::{
    History, HistoryFault, MOST_EVENTS, TextFault, TextReason, Version, no_fault_of_text,
    no_text_of_two, one_fault, one_text_each, read_history, write_history,
};
pub use reason::Reason;
pub use replay_fault::ReplayFault;
