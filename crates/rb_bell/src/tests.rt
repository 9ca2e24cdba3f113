//! Tests of a bell: what it keeps under its lock, and its rests and rings.

mod announcements;
mod bell_states;
mod bells;
mod fixtures;
