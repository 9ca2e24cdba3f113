//! Calls of a shared queue, by one thread and by many, and waits for an element: their clocks,
//! bells, gates and threads.

mod ample_memory;
mod callers;
mod closing;
mod crowds;
mod far_moments;
mod fixtures;
mod full_run;
mod full_wait;
mod gates;
mod give_ups;
mod hand_overs;
mod machine_clock;
mod many_threads;
mod memory_refusals;
mod names;
mod notes;
mod rung_offers;
mod spared_turns;
mod takers;
mod takes_and_timed_polls;
mod two_threads;
mod wakeups;
mod waking_times;
