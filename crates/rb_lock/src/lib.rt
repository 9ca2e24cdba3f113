//! One kept queue for many threads, and one legal history for all of them.
//!
//! Each thread calls through a pass of its own. A pass stores no event: only the proofs know what
//! it has seen and made, and that the histories of all passes are beginnings of one.
#![tactic(auto)]

mod fault;
mod laws;
mod lock;
mod note;
mod pair;
mod pass;
mod pass_record;
mod rule;
mod shared;
mod stage;
mod steps;
mod view;

pub use fault::{CloseFault, OpenFault, SplitFault};
pub use laws::{looks_have_their_value, most_names_has_its_value, pauses_have_their_value};
pub use note::Note;
pub use pair::MOST_NAMES;
pub use pass::Pass;
pub use shared::Shared;
