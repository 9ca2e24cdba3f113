//! How a run of the program ends: its fault with its exit status, its history, and its audit line.
//!
//! A script and a server end in the same ways, so both depend on this crate.
#![tactic(auto)]

mod audit;
mod broker_fault;
mod recorder;
mod recording;

pub use audit::audit_line;
pub use broker_fault::BrokerFault;
pub use recorder::{NoRecorder, Recorder};
pub use recording::write_recording;
