//! Tests of `rb_blocking`, and of `rb_lock` below it, through their public calls, with stated values.
//!
//! They are a crate of their own, so that the gate does not prove the crates under test again with
//! them.
#![tactic(auto)]

#[cfg(test)]
mod tests;
