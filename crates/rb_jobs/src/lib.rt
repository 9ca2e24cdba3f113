//! Laws of whole runs: which events sessions make, and what becomes of jobs. None is in two places, and none goes
//! uncounted.
//!
//! A job is all elements of one origin: the one that began it, and the next attempts after failures. The
//! other crates say what becomes of elements; these laws say what becomes of jobs. Nothing here runs, so no
//! program waits for these proofs.
#![tactic(auto)]

mod history_laws;
mod job_laws;

pub use history_laws::{
    calls_of_visit, each_id_held_once, events_of_run, events_of_session, history_of_run,
    history_of_script, history_of_server, history_of_session,
};
pub use job_laws::{
    hands_of_session, jobs_are_kept, jobs_go_on, script_accounts, script_hands_jobs_on,
    script_keeps_jobs, server_accounts, server_hands_jobs_on, server_keeps_jobs,
};
