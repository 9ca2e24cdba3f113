//! A client's session: it reads lines of requests, serves them at a desk, and replies with lines.
//!
//! A session holds what it fetched until that is done or fails. However it ends, what it still
//! holds then fails. The desk may be of any kind.
#![tactic(auto)]

mod answer;
mod calls;
mod delivery;
mod ended;
mod fetches;
mod hands_on;
mod held_job_ends;
mod held_jobs;
mod job_map;
mod laws;
mod line_buffer;
mod outlet;
mod replies;
mod run;
mod session;
mod session_fault;
mod session_room;
mod stop;

pub use delivery::Delivery;
pub use ended::Ended;
pub use hands_on::HandsOn;
pub use held_jobs::MOST_HELD;
pub use laws::{came_first, sent_last, session_limits_have_their_values};
pub use run::{run_in, run_limited, run_session};
pub use session_fault::SessionFault;
pub use session_room::SessionRoom;
