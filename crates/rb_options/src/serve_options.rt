ghost use Rattle.std.specs.Prelude.{◌≤◌, IfSome};
ghost use Rattle.std.proofs.Props.{props};
ghost use Rattle.rb_options.specs.declared.serve_options.TheConstants.{GREATEST_SOCKET, LEAST_SOCKET, MOST_SESSIONS, MOST_TURNS};

use crate::server_run_options::ServerRunOptions;
use crate::timer_kind::TimerKind;

/// The greatest TCP port.
pub const GREATEST_PORT: u64 = 65_535;

/// The most sessions that a server can be told to serve.
pub const MOST_SESSIONS: u64 = 10_000;

/// The most turns that a wait can be told to make.
pub const MOST_TURNS: u64 = 1_000_000;

/// The least and the greatest descriptor of a listener that a server can be handed.
pub const LEAST_SOCKET: u64 = 3;

pub const GREATEST_SOCKET: u64 = 1_023;

/// The most bytes that a greeting has, without its line feed.
pub const MOST_GREETING: usize = 255;

/// The options of `serve`.
#[derive(Clone, Copy, Debug, PartialEq, Eq)]
pub struct ServeOptions {
    /// The TCP port on 127.0.0.1, 1 to 65,535.
    pub port: u16,
    /// The descriptor of the listener that the server is handed, 3 to 1,023. If there is none, it binds the port.
    pub socket: Option<u16>,
    /// Whether the server ends with its standard input.
    pub until_input_ends: bool,
    /// Whether a wait also ends when its client has sent something or hung up.
    pub attentive: bool,
    /// After how many nanoseconds of silence a session is ended, if it is, 1 to 2^64 - 1.
    pub silent: Option<u64>,
    /// At how many nanoseconds after the machine's start the moment is the opening's. If it is not said, that is when
    /// the server starts.
    pub since: Option<u64>,
    /// Which timer the queue uses.
    pub timer: TimerKind,
    /// How many sessions are served before the server ends, 1 to 10,000.
    pub sessions: u64,
    /// How many turns a take or a timed poll waits before it is stopped, 0 to 1,000,000.
    pub turns: u64,
    /// The options of the server's run.
    pub run: ServerRunOptions,
    pub ghost port_from_one: { 1 ≤ port },
    pub ghost sessions_from_one: { 1 ≤ sessions },
    pub ghost sessions_in_range: { sessions ≤ MOST_SESSIONS },
    pub ghost turns_in_range: { turns ≤ MOST_TURNS },
    pub ghost socket_in_range: { IfSome socket (λ socket. (LEAST_SOCKET ≤ socket) × (socket ≤ GREATEST_SOCKET)) } by { Prim.hlevel props },
    pub ghost silent_from_one: { IfSome silent (λ silent. 1 ≤ silent) } by { Prim.hlevel props },
}
