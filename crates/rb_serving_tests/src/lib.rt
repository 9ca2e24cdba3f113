//! Tests of `rb_serving` through its public calls, with stated values.
//!
//! They are a crate of their own, so that the gate does not prove `rb_serving` again with them.
#![tactic(auto)]

#[cfg(test)]
mod tests;
