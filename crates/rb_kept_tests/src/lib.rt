//! Tests of `rb_kept` and of what lies below it, the queue, its elements, totals and timers, and of
//! `rb_replay`, through their public calls, with stated values. A test that is a command with its
//! answer is a row of `rb_cases`.
//!
//! They are a crate of their own, so that the gate does not prove the crates under test again with
//! them.
#![tactic(auto)]

#[cfg(test)]
mod tests;
