//! A server of the queue: workers, each with a pass of its own, serve the visits of a door until
//! there are no more.
//!
//! A door is where visits come from: the clients of a TCP listener, or what a test provides.
#![tactic(auto)]

mod beginning;
mod connection;
mod decision;
mod door;
mod ending;
mod incoming;
mod laws;
mod listener;
mod patience;
mod serve_clock;
mod serve_end;
mod serve_report;
mod serve_text;
mod served_queue;
mod served_run;
mod server;
mod service;
mod standing;
mod tcp_door;
mod tcp_entrance;
mod tcp_gate;
mod tcp_manners;
mod tcp_reader;
mod tcp_writer;
mod visit;
mod visit_counts;
mod worker;
mod workers;

pub use connection::{Connection, ConnectionNeeds};
pub use door::{Door, DoorFault};
pub use ending::{Ending, InputRead};
pub use incoming::Incoming;
pub use laws::{each_visitor_is_served, pause_has_its_value};
pub use listener::{CountedListener, Listener, limit_accepts};
pub use serve_clock::ServeClock;
pub use serve_end::{ServerEnd, end_server};
pub use serve_report::ServeReport;
pub use serve_text::print_listening;
pub use served_queue::ServedQueue;
pub use served_run::{run_server, serve_run};
pub use server::{serve_door, serve_door_gathered};
pub use tcp_door::{NoMore, TcpDoor, TcpVisit};
pub use tcp_entrance::TcpEntrance;
pub use tcp_gate::TcpGate;
pub use tcp_manners::TcpManners;
pub use tcp_reader::TcpReader;
pub use tcp_writer::TcpWriter;
pub use visit::Visit;
