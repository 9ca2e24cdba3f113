//! Jobs of a delay queue: how they are fetched, and what a failed one offers again.
//!
//! A desk is a caller's way to a queue. A job is fetched at a desk, and then is done or fails. By
//! its policy a failed job is offered again, until its attempts are used up. Moments are
//! nanoseconds.
#![tactic(auto)]

mod desk;
mod desk_fault;
mod fetches;
mod job;
mod job_ends;
mod kept_desk;
mod policy;
mod verdict;
mod work_report;
mod worker;

pub use desk::Desk;
pub use desk_fault::DeskFault;
pub use fetches::{drain, poll, poll_for, take, try_fetch};
pub use job::Job;
pub use job_ends::{done, fail};
pub use kept_desk::KeptDesk;
pub use policy::{Pace, Policy};
pub use verdict::Verdict;
pub use work_report::WorkReport;
pub use worker::{Work, work_off as work};
