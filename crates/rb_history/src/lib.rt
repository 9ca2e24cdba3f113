//! The history of a run as text.
//!
//! A text has a run's opening and each of its events, in order. It is written in one version, and read
//! in any. Moments are nanoseconds.
#![tactic(auto)]

mod firsts;
mod history;
mod history_fault;
mod history_room;
mod history_text;
mod laws;
mod next_line;
mod outlet;
mod read;
mod read_act;
mod read_event;
mod read_events;
mod read_keeps;
mod read_opening;
mod read_run;
mod text;
mod text_fault;
mod version;
mod words;
mod write;

pub use history::History;
pub use history_fault::HistoryFault;
pub use history_room::HistoryRoom;
pub use laws::{
    most_events_has_its_value, no_fault_of_text, no_text_of_two, one_fault, one_text_each,
};
pub use read::read_history;
pub use text_fault::{TextFault, TextReason};
pub use version::Version;
pub use write::{MOST_EVENTS, write_history, write_history_in};
