//! Tests of `rb_retry` through its public calls, with stated values: those that can't be rows of
//! `rb_cases` (`data/jobs.rows`).
//!
//! They are a crate of their own, so that the gate does not prove `rb_retry` again with them.
#![tactic(auto)]

#[cfg(test)]
mod tests;
