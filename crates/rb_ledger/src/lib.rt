//! Totals of a run, and the shares of them that its callers keep.
//!
//! The books count every call, and each caller's tally counts its own, so all shares joined
//! together equal the books. Nothing here takes memory, and a count that would pass 2^64 - 1 stays
//! there.
#![tactic(auto)]

mod books;
mod laws;
mod tally;
mod totals;

pub use books::Books;
pub use laws::greatest_count_has_its_value;
pub use tally::Tally;
pub use totals::{GREATEST_COUNT, Totals};
