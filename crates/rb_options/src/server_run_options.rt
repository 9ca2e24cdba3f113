ghost use Rattle.std.specs.Prelude.{◌≤◌};
ghost use Rattle.rb_kept.specs.declared.kept.TheConstants.{MOST_CALLS};
ghost use Rattle.rb_options.specs.declared.server_run_options.TheConstants.{MOST_WORKERS};

use rb_retry::Policy;

/// The greatest number of workers of a server.
pub const MOST_WORKERS: u64 = 16;

/// The options of a server's run.
#[derive(Clone, Copy, Debug, PartialEq, Eq)]
pub struct ServerRunOptions {
    /// How many sessions are served at once, 1 to 16.
    pub workers: u64,
    /// How many calls the run has room for, 1 to 1,000,000.
    pub calls: u64,
    /// When a failed job is offered again, and how often.
    pub policy: Policy,
    pub ghost workers_from_one: { 1 ≤ workers },
    pub ghost workers_in_range: { workers ≤ MOST_WORKERS },
    pub ghost calls_from_one: { 1 ≤ calls },
    pub ghost calls_in_range: { calls ≤ MOST_CALLS },
}
