//! A timer whose entries form a pairing heap, linked by slot.
//!
//! An insert touches a constant number of entries. Taking an entry out, whichever it is, costs the
//! logarithm of the number of entries in the long run. If expiries rise from insert to insert, both
//! cost a constant. No step recurses, however large the heap is.
#![tactic(auto)]

mod links;
mod node;
mod nodes;
mod pairing_timer;
mod tree;

pub use pairing_timer::PairingTimer;
