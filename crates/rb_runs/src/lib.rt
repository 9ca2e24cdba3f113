//! Runs of the broker over any devices: a script to its end, the check of a history, and the
//! opening that a history leads to.
#![tactic(auto)]

mod laws;
mod opening;
mod over_timer;
mod reading;
mod ready_script;
mod recorded_script;
mod recording;
mod replay;
mod script;
mod script_report;
mod script_run;
mod text_verdict;

pub use laws::{recorded_is_read, script_is_read};
pub use opening::opening_in;
pub use reading::{read_all, read_all_limited};
pub use ready_script::ReadyScript;
pub use recorded_script::record_script;
pub use recording::Recording;
pub use replay::{print_replay, run_replay};
pub use script::{run_script, run_script_delivered};
pub use script_report::ScriptReport;
