// A server over TCP on loopback, with both ends in one process.

ghost use Rattle.std.specs.Prelude.{◌≤◌};

use crate::tests::devices::{
    Counts, SevenClock, counts_of, expect, expect_audit_line, expect_bytes, expect_counts,
    expect_legal, expect_made, expect_number, hundred_calls,
};
use rb_blocking::{Clock, MachineClock};
use rb_ending::BrokerFault;
use rb_options::ServerRunOptions;
use rb_queue::Opening;
use rb_serving::{CountedListener, Ending, ServedQueue, TcpDoor, TcpManners, serve_door};
use rb_timer::ListTimer;
use std::alloc::Global;
use std::io::{self, Read, Write};
use std::net::{Ipv4Addr, SocketAddr, SocketAddrV4, TcpListener, TcpStream};
use std::process::Abort;
use std::sync::Wait;
use std::thread::Threads;
use std::time;

// The audit line of a server whose one element was offered and given.
const AUDIT: &[u8] =
    b"{\"calls\":2,\"cleared\":0,\"given\":1,\"left\":0,\"offered\":1,\"opening\":0,\"removed\":0}\n";

// Connects a client to `server` and sends `lines`. Returns the client's stream.
fn client(rt: &HostRuntime, server: SocketAddr, lines: &[u8]) -> io::Result<TcpStream> {
    let mut stream = TcpStream::connect(rt, server)?;
    stream.write_all(lines)?;
    Ok(stream)
}

// Returns what the client was sent until the server closed the connection.
fn sent(rt: &impl Abort, alloc: Global, mut stream: TcpStream) -> Vec<u8> {
    let mut text = Vec::new(alloc);
    let _ = expect_made(rt, stream.read_to_end(&mut text));
    text
}

// Serves the clients of `door` by `workers` workers, and asserts that the history is legal. Returns
// what was counted.
fn served<R: Threads + Wait + time::Clock + Abort + Sync>(
    rt: &R,
    alloc: Global,
    door: &TcpDoor<'_, CountedListener>,
    workers: u64,
) -> Counts
    requires some { 1 ≤ workers }
    requires few { workers ≤ 16 }
{
    let options = hundred_calls(rt, workers);
    let opening = Opening::empty(alloc);
    let queue = ServedQueue::<ListTimer>::open(alloc, &options, opening)
        .ok()
        .expect(rt, "a queue");
    let entrance = door.entrance();
    let (_, report) = serve_door(rt, alloc, entrance, &SevenClock, &options, queue);
    let report = report.ok().expect(rt, "a report");
    expect_legal(rt, alloc, &report);
    counts_of(&report)
}

fn expect_report(rt: &impl Abort, alloc: Global, counts: Counts) {
    expect_counts(rt, counts, 2, 0, 0);
    expect_audit_line(rt, alloc, &counts.audit, AUDIT);
}

fn expect_sent(rt: &impl Abort, alloc: Global, stream: TcpStream, text: &[u8]) {
    expect_bytes(rt, sent(rt, alloc, stream).as_slice(), text);
}

// A listener at a port that the system chose, and its address.
fn listening(rt: &HostRuntime) -> io::Result<(TcpListener, SocketAddr)> {
    let port_of_the_system = SocketAddr::V4(SocketAddrV4::new(Ipv4Addr::LOCALHOST, 0));
    let listener = TcpListener::bind(rt, port_of_the_system)?;
    let server = listener.local_addr()?;
    Ok((listener, server))
}

// A door for so many sessions, each of whose waits ends after 200 turns, that does nothing more.
fn plain_door<'a>(
    alloc: Global,
    listener: TcpListener,
    sessions: u64,
    clock: &'a MachineClock<'a, HostRuntime>,
) -> Result<TcpDoor<'a, CountedListener>, BrokerFault> {
    TcpDoor::new(alloc, listener, sessions, 200, TcpManners::default(), clock)
}

#[test]
fn two_clients_share_a_queue(rt: HostRuntime) {
    let (listener, server) = expect_made(&rt, listening(&rt));
    let taker = expect_made(&rt, client(&rt, server, b"TAKE\nDONE 0\nQUIT\n"));
    let giver = expect_made(&rt, client(&rt, server, b"OFFER 0 a\nQUIT\n"));
    let alloc = rt.alloc();
    let clock = MachineClock::new(&rt);
    let door = expect_made(&rt, plain_door(alloc, listener, 2, &clock));
    expect_report(&rt, alloc, served(&rt, alloc, &door, 2));
    expect_sent(&rt, alloc, taker, b"ITEM 0 7 1 a\nDONE 0\nBYE\n");
    expect_sent(&rt, alloc, giver, b"OFFERED 0 7\nBYE\n");
}

// Serves the clients of `door` by one worker. Returns what was counted, and the time it took, in
// milliseconds.
fn served_within<R: Threads + Wait + time::Clock + Abort + Sync>(
    rt: &R,
    alloc: Global,
    door: &TcpDoor<'_, CountedListener>,
) -> (Counts, u64) {
    let watch = MachineClock::new(rt);
    let counts = served(rt, alloc, door, 1);
    (counts, watch.now() / 1_000_000)
}

fn expect_refused(rt: &impl Abort, found: (Counts, u64)) {
    let (counts, lasted) = found;
    expect_counts(rt, counts, 5, 5, 0);
    expect_number(rt, counts.audit.calls, 0);
    expect(rt, lasted >= 50);
}

// Nobody has connected and the listener does not wait, so no client can be accepted. Each attempt
// counts as a session and a fault, and takes 10 ms.
#[test]
fn sessions_are_not_used_up_at_once(rt: HostRuntime) {
    let (listener, _) = expect_made(&rt, listening(&rt));
    expect_made(&rt, listener.set_nonblocking(true));
    let clock = MachineClock::new(&rt);
    let door = expect_made(&rt, plain_door(rt.alloc(), listener, 5, &clock));
    expect_refused(&rt, served_within(&rt, rt.alloc(), &door));
}

// A server is handed a client, greets it, and ends a session that says nothing. The job that this holds comes back.
#[test]
fn a_silent_client_is_greeted_and_ended(rt: HostRuntime) {
    let (listener, server) = expect_made(&rt, listening(&rt));
    let taker = expect_made(&rt, client(&rt, server, b"OFFER 0 a\nTAKE\n"));
    let alloc = rt.alloc();
    let manners = TcpManners {
        greeting: b"HELLO\n",
        silent: Some(1_000_000),
        ..TcpManners::default()
    };
    let clock = MachineClock::new(&rt);
    let door = expect_made(&rt, TcpDoor::new(alloc, listener, 1, 200, manners, &clock));
    expect_comes_back(&rt, served(&rt, alloc, &door, 1));
    expect_sent(&rt, alloc, taker, b"HELLO\nOFFERED 0 7\nITEM 0 7 1 a\n");
}

fn expect_comes_back(rt: &impl Abort, counts: Counts) {
    expect_counts(rt, counts, 1, 0, 0);
    expect_number(rt, counts.audit.offered, 2);
}

// The input of a server ends before anybody comes: nobody is let in, though a client waits.
#[test]
fn a_server_whose_input_has_ended_lets_nobody_in(rt: HostRuntime) {
    let (listener, server) = expect_made(&rt, listening(&rt));
    let _waits = expect_made(&rt, client(&rt, server, b"SIZE\n"));
    let alloc = rt.alloc();
    let ending = Ending::new();
    ending.follow(&rt, &mut b"".as_slice());
    let manners = TcpManners {
        ending: Some(&ending),
        ..TcpManners::default()
    };
    let clock = MachineClock::new(&rt);
    let door = expect_made(&rt, TcpDoor::new(alloc, listener, 5, 200, manners, &clock));
    expect_nobody(&rt, served(&rt, alloc, &door, 2));
}

fn expect_nobody(rt: &impl Abort, counts: Counts) {
    expect_counts(rt, counts, 0, 0, 0);
    expect_number(rt, counts.audit.calls, 0);
}
