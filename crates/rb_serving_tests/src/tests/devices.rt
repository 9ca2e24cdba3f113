// Visits of a server that lie in memory, and a clock that always reads 7.

ghost use Rattle.std.specs.Prelude.{◌≡◌, ◌≤◌, ◌↔◌, ◌<◌, true};

use rb_blocking::{Clock, Gate, Rested};
use rb_ending::{BrokerFault, NoRecorder, Recorder, audit_line};
use rb_lock::Pass;
use rb_options::ServerRunOptions;
use rb_protocol::{LimitedReader, WriterStatus};
use rb_queue::{Audit, Opening};
use rb_replay::check;
use rb_retry::Policy;
use rb_serving::{
    Door, DoorFault, ServeReport, ServedQueue, Visit, serve_door, serve_door_gathered,
};
use rb_session::{Delivery, HandsOn};
use rb_timer::{ListTimer, Timer};
use std::alloc::Global;
use std::io::{Read, Write};
use std::process::Abort;
use std::sync::atomic::{AtomicU64, Ordering};
use std::sync::{Mutex, Wait};
use std::thread::Threads;
use std::time::Duration;
use std::{io, thread, time};

// The greatest number of times that a reader looks whether it may begin, a millisecond apart.
const MOST_LOOKS: u64 = 10_000;

// The number of turns after which a wait ends.
const MOST_TURNS: u64 = 200;

/// A clock that always reads 7.
pub struct SevenClock;

impl Clock for SevenClock {
    ghost gives = { λ clock moment. moment ≡ 7 };

    ghost reads = { λ _ _ _. Unit {0} };

    fn now(&self) -> u64 {
        7
    }

    fn now_for_try(&self, _tries: u64) -> u64 {
        self.now()
    }
}

/// A gate that ends a wait after a number of turns, and counts the turns where a reader sees the
/// count.
#[derive(Drop)]
pub struct NotedGate<'a> {
    turns: &'a AtomicU64,
}

impl<'a> Gate for NotedGate<'a> {
    ghost use Rattle.rb_serving_tests.specs.declared.tests.devices.TheConstants.{MOST_TURNS};

    ghost answers = { λ gate turns goes_on. (goes_on ≡ true) ↔ (turns < MOST_TURNS) };

    ghost has_seen = { λ _ _. Unit {0} };

    fn turn(&mut self, turns: u64) -> bool {
        let _ = self.turns.fetch_add(1, Ordering::SeqCst);
        turns < MOST_TURNS
    }

    fn rested<T: Timer>(&mut self, _rested: Rested, _pass: &Pass<T>) {}
}

/// What a visitor does: it sends its lines at once, after both counts have risen, or once another
/// visitor was sent a text; or its first read fails.
#[derive(Clone, Copy)]
pub enum Sends<'a> {
    AtOnce(&'a [u8]),
    After(&'a [u8], &'a AtomicU64, &'a AtomicU64),
    OnceSent(&'a [u8], &'a Mutex<Received>, &'a [u8]),
    Nothing,
}

/// What a visitor was sent, and the number of writes that sent it.
#[derive(Drop)]
pub struct Received {
    pub text: Vec<u8>,
    pub writes: u64,
}

impl Received {
    /// Makes the record of a visitor that was sent nothing yet. What it is sent comes to lie in
    /// `text`, which is empty.
    pub fn into(text: Vec<u8>) -> Mutex<Received> {
        Mutex::new(Received { text, writes: 0 })
    }

    pub fn none(alloc: Global) -> Mutex<Received> {
        Received::into(Vec::new(alloc))
    }
}

/// The reader of what a visitor sends.
#[derive(Drop)]
pub struct Sender<'a, R> {
    rt: &'a R,
    sends: Sends<'a>,
}

impl<'a, R: Wait + time::Clock> Sender<'a, R> {
    // Waits until both counts have risen. Returns false if they have not after `MOST_LOOKS` looks.
    fn sees_both(&self, first: &AtomicU64, second: &AtomicU64) -> bool {
        for _ in 0..MOST_LOOKS {
            if first.load(Ordering::SeqCst) > 0 && second.load(Ordering::SeqCst) > 0 {
                return true;
            }
            thread::sleep(self.rt, Duration::from_millis(1));
        }
        false
    }

    // Waits until what `other` was sent is `text`. Returns false if it is not after `MOST_LOOKS`
    // looks.
    fn sees_text(&self, other: &Mutex<Received>, text: &[u8]) -> bool {
        for _ in 0..MOST_LOOKS {
            if other.lock(self.rt).text.as_slice() == text {
                return true;
            }
            thread::sleep(self.rt, Duration::from_millis(1));
        }
        false
    }
}

impl<'a, R: Wait + time::Clock> Read for Sender<'a, R> {
    fn read(&mut self, buf: &mut [u8]) -> io::Result<usize> {
        let lines = match self.sends {
            Sends::AtOnce(lines) => lines,
            Sends::After(lines, first, second) if self.sees_both(first, second) => lines,
            Sends::OnceSent(lines, other, text) if self.sees_text(other, text) => lines,
            Sends::After(..) | Sends::OnceSent(..) => &[],
            Sends::Nothing => return Err(io::Error::from(io::ErrorKind::ConnectionReset)),
        };
        let (given, rest) = lines.split_at(lines.len().min(buf.len()));
        buf[..given.len()].copy_from_slice(given);
        self.sends = Sends::AtOnce(rest);
        Ok(given.len())
    }
}

/// The writer of what a visitor is sent. It keeps the text where the test can read it.
#[derive(Drop)]
pub struct Receiver<'a, R> {
    rt: &'a R,
    received: &'a Mutex<Received>,
}

impl<'a, R: Wait> Write for Receiver<'a, R> {
    fn write(&mut self, buf: &[u8]) -> io::Result<usize> {
        let mut received = self.received.lock(self.rt);
        received.writes = received.writes.saturating_add(1);
        received.text.extend_from_slice(buf)?;
        Ok(buf.len())
    }

    fn flush(&mut self) -> io::Result<()> {
        Ok(())
    }
}

/// A visit, what it is sent, and the number of turns of its waits. If `sends` is `None`, the visit
/// is refused.
#[derive(Drop)]
pub struct Plan<'a> {
    sends: Option<Sends<'a>>,
    received: &'a Mutex<Received>,
    turns: &'a AtomicU64,
}

pub fn planned<'a>(
    sends: Option<Sends<'a>>,
    received: &'a Mutex<Received>,
    turns: &'a AtomicU64,
) -> Plan<'a> {
    Plan {
        sends,
        received,
        turns,
    }
}

pub fn at_once<'a>(lines: &'a [u8]) -> Option<Sends<'a>> {
    Some(Sends::AtOnce(lines))
}

pub fn after<'a>(
    lines: &'a [u8],
    first: &'a AtomicU64,
    second: &'a AtomicU64,
) -> Option<Sends<'a>> {
    Some(Sends::After(lines, first, second))
}

/// An entrance of a door that gives the planned visits, one after the other.
#[derive(Drop)]
pub struct PlannedDoor<'a, R> {
    rt: &'a R,
    plans: &'a [Plan<'a>],
    taken: &'a AtomicU64,
}

impl<'a, R: Wait + time::Clock + Sync> Door for PlannedDoor<'a, R> {
    type Reader = Sender<'a, R>;

    type Writer = Receiver<'a, R>;

    type Gate = NotedGate<'a>;

    ghost has_seen = { λ door log. Unit {0} };

    ghost demands = { λ visit reader status writer before after. Unit {0} };

    ghost is_ready = { λ door pass. Unit {0} };

    ghost awaits = { λ door visit before. Unit {0} };

    ghost may_split = { λ door more least. Unit {0} };

    ghost has_joined = { λ door out log. Unit {0} };

    fn next<T: Timer, H: Wait + time::Clock>(
        &mut self,
        _rt: &H,
        _pass: &Pass<T>,
    ) -> Option<Result<Visit<Sender<'a, R>, Receiver<'a, R>, NotedGate<'a>>, DoorFault>> {
        let taken = self.taken.fetch_add(1, Ordering::SeqCst);
        let plan = self.plans.get(usize::try_from(taken).ok()?)?;
        let Some(sends) = plan.sends else {
            return Some(Err(DoorFault));
        };
        Some(Ok(Visit {
            reader: Sender { rt: self.rt, sends },
            writer: Receiver {
                rt: self.rt,
                received: plan.received,
            },
            gate: NotedGate { turns: plan.turns },
        }))
    }

    fn leave<T: Timer>(
        &mut self,
        _reader: &LimitedReader<'_, Sender<'a, R>>,
        _status: &WriterStatus<Receiver<'a, R>>,
        _writer: Receiver<'a, R>,
        _pass: &Pass<T>,
    ) {}

    fn split<T: Timer>(&mut self, _pass: &Pass<T>) -> PlannedDoor<'a, R> {
        PlannedDoor {
            rt: self.rt,
            plans: self.plans,
            taken: self.taken,
        }
    }

    fn join(&mut self, _other: PlannedDoor<'a, R>) {}
}

/// Returns the options of a server with room for 100 calls and three attempts per job.
pub fn hundred_calls(rt: &impl Abort, workers: u64) -> ServerRunOptions
    requires some { 1 ≤ workers }
    requires few { workers ≤ 16 }
{
    ServerRunOptions {
        workers,
        calls: 100,
        policy: Policy::fixed(1_000, 3).expect(rt, "a policy"),
    }
}

/// A server that gathers its replies.
pub const GATHERED: Delivery = Delivery::Gathered(HandsOn::BeforeReadsAndWaits);

/// The deliveries of the two calls that serve a door.
pub const DELIVERIES: [Delivery; 2] = [Delivery::AtOnce, GATHERED];

/// Serves `plans` over the plain timer with `options`, by `serve_door` or `serve_door_gathered`.
pub fn served_so<R: Threads + Wait + time::Clock + Sync>(
    rt: &R,
    alloc: Global,
    delivery: Delivery,
    plans: &[Plan<'_>],
    options: &ServerRunOptions,
) -> Result<ServeReport<ListTimer>, BrokerFault> {
    let taken = &AtomicU64::new(0);
    match delivery {
        Delivery::AtOnce => {
            let door = PlannedDoor { rt, plans, taken };
            let queue = ServedQueue::open(alloc, options, Opening::empty(alloc))?;
            let (_, served) = serve_door(rt, alloc, door, &SevenClock, options, queue);
            served
        }
        Delivery::Gathered(_) => {
            let (_, served) = recorded(rt, alloc, taken, plans, options, NoRecorder);
            served
        }
    }
}

/// Serves `plans` over the plain timer by `serve_door_gathered`, with this recorder. `taken` counts the
/// plans that were asked for.
pub fn recorded<R: Threads + Wait + time::Clock + Sync, B: Recorder + Drop>(
    rt: &R,
    alloc: Global,
    taken: &AtomicU64,
    plans: &[Plan<'_>],
    options: &ServerRunOptions,
    recorder: B,
) -> (B, Result<ServeReport<ListTimer>, BrokerFault>) {
    let door = PlannedDoor { rt, plans, taken };
    let queue = match ServedQueue::open(alloc, options, Opening::empty(alloc)) {
        Ok(queue) => queue,
        Err(fault) => return (recorder, Err(fault)),
    };
    let (_, recorder, served) = serve_door_gathered(
        rt,
        alloc,
        door,
        &SevenClock,
        options,
        queue,
        recorder,
    );
    (recorder, served)
}

/// What a server counted, and the audit of its history.
#[derive(Clone, Copy)]
pub struct Counts {
    pub sessions: u64,
    pub faults: u64,
    pub lost: u64,
    pub audit: Audit,
}

/// Serves `plans` with `options`, and asserts that the history is legal. Returns what was counted.
pub fn counted<R: Threads + Wait + time::Clock + Abort + Sync>(
    rt: &R,
    alloc: Global,
    delivery: Delivery,
    plans: &[Plan<'_>],
    options: &ServerRunOptions,
) -> Counts {
    let report = served_so(rt, alloc, delivery, plans, options)
        .ok()
        .expect(rt, "a report");
    expect_legal(rt, alloc, &report);
    counts_of(&report)
}

pub fn counts_of(report: &ServeReport<ListTimer>) -> Counts {
    Counts {
        sessions: report.sessions,
        faults: report.faults,
        lost: report.lost,
        audit: report.audit,
    }
}

// Comparisons are functions without clauses, so tests that call them have nothing to prove.

/// Asserts that a visitor was sent `wanted`.
pub fn expect_text<R: Wait + Abort>(rt: &R, received: &Mutex<Received>, wanted: &[u8]) {
    expect_bytes(rt, received.lock(rt).text.as_slice(), wanted);
}

/// Asserts that a visitor was sent its text by `wanted` writes.
pub fn expect_writes<R: Wait + Abort>(rt: &R, received: &Mutex<Received>, wanted: u64) {
    expect_number(rt, received.lock(rt).writes, wanted);
}

pub fn expect_bytes(rt: &impl Abort, bytes: &[u8], wanted: &[u8]) {
    assert_eq!(rt; bytes, wanted);
}

pub fn expect_number(rt: &impl Abort, number: u64, wanted: u64) {
    assert_eq!(rt; number, wanted);
}

pub fn expect_counts(rt: &impl Abort, counts: Counts, sessions: u64, faults: u64, lost: u64) {
    assert_eq!(rt;
        (counts.sessions, counts.faults, counts.lost),
        (sessions, faults, lost)
    );
}

/// Asserts that the history is legal, and that the report's audit is the audit of the history.
pub fn expect_legal(rt: &impl Abort, alloc: Global, report: &ServeReport<ListTimer>) {
    // For the proof: the contract of `capacity` says that there are few events.
    let _ = report.kept.capacity();
    let checked = check(alloc, report.kept.opening(), report.kept.history());
    assert_eq!(rt; checked, Ok(report.audit));
}

/// Asserts that the line of an audit is `wanted`.
pub fn expect_audit_line(rt: &impl Abort, alloc: Global, audit: &Audit, wanted: &[u8]) {
    let line = audit_line(alloc, audit).ok().expect(rt, "memory");
    assert_eq!(rt; line.as_bytes(), wanted);
}

pub fn expect_audit(rt: &impl Abort, audit: Audit, wanted: Audit) {
    assert_eq!(rt; audit, wanted);
}

/// Returns what was made. Asserts that it was.
pub fn expect_made<T, E: Drop>(rt: &impl Abort, made: Result<T, E>) -> T {
    made.ok().expect(rt, "what is made")
}

pub fn expect(rt: &impl Abort, holds: bool) {
    assert!(rt; holds);
}
