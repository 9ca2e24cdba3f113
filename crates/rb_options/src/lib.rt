//! The options of the program's commands, and the numbers that they may have.
//!
//! It is a crate of its own, so that what runs a command need not wait until the crate that reads
//! the words of the command line is proved.
#![tactic(auto)]

mod laws;
mod replay_options;
mod script_options;
mod serve_options;
mod server_run_options;
mod timer_kind;

pub use laws::option_limits_have_their_values;
pub use replay_options::ReplayOptions;
pub use script_options::ScriptOptions;
pub use serve_options::{
    GREATEST_PORT, GREATEST_SOCKET, LEAST_SOCKET, MOST_GREETING, MOST_SESSIONS, MOST_TURNS,
    ServeOptions,
};
pub use server_run_options::{MOST_WORKERS, ServerRunOptions};
pub use timer_kind::TimerKind;
