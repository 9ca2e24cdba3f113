//! Tests of runs: devices that fail, memory that is refused, and what a reader or a writer is asked
//! for; and of `rb_arguments`, which is refused memory too. Texts with their answers are cases of
//! `rb_cases`, and words of the command line are rows (`data/words.rows`).

mod ample_memory;
mod audit_line;
mod devices;
mod fault_texts;
mod gathering;
mod history_files;
mod memory_refusals;
mod reading_devices;
mod replies_at_once;
mod reports;
mod word_refusals;
mod writing_devices;
