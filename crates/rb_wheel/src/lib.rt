//! The timer for distant moments: a hierarchical wheel of cells, each with a list of the slots in it.
#![tactic(auto)]

mod advance;
mod cells;
mod leave;
mod lists;
mod marks;
mod next_first;
mod node;
mod spread;
mod wheel_timer;

pub use wheel_timer::{Wheel, WheelTimer};
