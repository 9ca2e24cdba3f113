//! Tests of histories: their texts, the check of a run, and the check of its retries.

mod allocations;
mod devices;
mod fixtures;
mod long_histories;
mod memory_refusals;
mod openings;
mod pieces;
mod prefixes;
mod readable_texts;
mod written_texts;
