ghost use Rattle.std.specs.Prelude.{◌≤◌, length, IfOk};

use crate::tests::devices::{expect_bytes, expect_same_at};
use rb_ending::BrokerFault;
use rb_options::{ScriptOptions, TimerKind};
use rb_protocol::{LimitedReader, LimitedWriter, WriterStatus};
use rb_queue::Opening;
use rb_retry::Policy;
use rb_runs::{ScriptReport, run_script, run_script_delivered};
use rb_session::{Delivery, Ended, HandsOn};
use std::alloc::Global;
use std::cell::Cell;
use std::io::{self, ErrorKind, Read, Write};
use std::process::Abort;

/// A way to run a script: when its replies are written, and over which timer.
pub type Way = (Delivery, TimerKind);

// Replies that are gathered as the program gathers those of a script.
const TOGETHER: Delivery = Delivery::Gathered(HandsOn::BeforeReads);

pub const AT_ONCE: Way = (Delivery::AtOnce, TimerKind::Heap);

pub const GATHERED: Way = (TOGETHER, TimerKind::Heap);

/// Each of the two calls that run a script, over each timer.
pub const WAYS: [Way; 8] = [
    (Delivery::AtOnce, TimerKind::List),
    AT_ONCE,
    (Delivery::AtOnce, TimerKind::Pairing),
    (Delivery::AtOnce, TimerKind::Wheel),
    (TOGETHER, TimerKind::List),
    GATHERED,
    (TOGETHER, TimerKind::Pairing),
    (TOGETHER, TimerKind::Wheel),
];

/// The ends of a session that lost no job.
pub const AT_END: Result<Ended, BrokerFault> = Ok(Ended::EndOfInput { lost: 0 });

pub const AT_QUIT: Result<Ended, BrokerFault> = Ok(Ended::Quit { lost: 0 });

/// What one call of a reader or a writer does instead of its work.
#[derive(Clone, Copy, PartialEq, Eq)]
pub enum Fault {
    Fails,
    TakesNothing,
    IsInterrupted,
}

/// A fault, and the number of the call that has it. The first call is 0.
#[derive(Clone, Copy)]
pub struct FaultAt {
    pub call: usize,
    pub fault: Fault,
}

/// What follows the last byte of a reader.
#[derive(Clone, Copy, PartialEq, Eq)]
pub enum End {
    Comes,
    Fails,
    /// Every 16th read gives a byte that ends no line. The others are interrupted.
    NeverComes,
}

/// A client that sends its next request once it has the replies to all earlier ones.
#[derive(Clone, Copy)]
pub struct Client<'a> {
    pub received: &'a Cell<usize>,
    pub replies: &'a [u8],
}

/// A reader that gives its bytes in pieces of at most `most` bytes.
#[derive(Drop)]
pub struct Source<'a> {
    pub rest: &'a [u8],
    pub calls: usize,
    most: usize,
    fault: Option<FaultAt>,
    end: End,
    client: Option<Client<'a>>,
    asked: usize,
}

impl<'a> Source<'a> {
    pub fn of(rest: &'a [u8], most: usize) -> Source<'a> {
        Source {
            rest,
            calls: 0,
            most,
            fault: None,
            end: End::Comes,
            client: None,
            asked: 0,
        }
    }

    /// Makes a reader that has `fault` at call `call`.
    pub fn faulty(rest: &'a [u8], most: usize, call: usize, fault: Fault) -> Source<'a> {
        let mut source = Source::of(rest, most);
        source.fault = Some(FaultAt { call, fault });
        source
    }

    /// Makes a reader that gives `rest`, as much as each read has room for, and then `end`.
    pub fn ending(rest: &'a [u8], end: End) -> Source<'a> {
        let mut source = Source::of(rest, usize::MAX);
        source.end = end;
        source
    }

    /// Makes a reader that gives a request once the replies to all earlier ones have come. A read
    /// before that fails.
    pub fn asking(rest: &'a [u8], most: usize, client: Client<'a>) -> Source<'a> {
        let mut source = Source::of(rest, most);
        source.client = Some(client);
        source
    }

    // Returns what a read gives after the last byte.
    fn give_end(&self, buf: &mut [u8]) -> io::Result<usize>
        ensures { IfOk result (λ count. count ≤ length buf.old) }
    {
        match self.end {
            End::Comes => Ok(0),
            End::Fails => Err(ErrorKind::ConnectionReset.into()),
            End::NeverComes => give_on(self.calls, buf),
        }
    }

    fn give(&mut self, buf: &mut [u8], most: usize) -> usize
        ensures { result ≤ length buf.old }
    {
        let count = most.min(buf.len()).min(self.rest.len());
        buf[..count].copy_from_slice(&self.rest[..count]);
        self.asked = self.asked.saturating_add(feeds_of(&self.rest[..count]));
        self.rest = &self.rest[count..];
        count
    }

    // Returns the greatest number of bytes that the next read may give, or `None` if the client may
    // not ask yet.
    fn next_most(&self) -> Option<usize> {
        let Some(client) = self.client else {
            return Some(self.most);
        };
        if client.received.get() != first_lines(client.replies, self.asked).len() {
            return None;
        }
        Some(self.most.min(first_lines(self.rest, 1).len()))
    }
}

fn give_on(calls: usize, buf: &mut [u8]) -> io::Result<usize>
    ensures { IfOk result (λ count. count ≤ length buf.old) }
{
    if calls % 16 != 0 {
        return Err(ErrorKind::Interrupted.into());
    }
    match buf.first_mut() {
        Some(byte) => {
            *byte = b'x';
            Ok(1)
        }
        None => Ok(0),
    }
}

impl Read for Source<'_> {
    fn read(&mut self, buf: &mut [u8]) -> io::Result<usize> {
        let call = self.calls;
        self.calls = call.saturating_add(1);
        match fault_of(self.fault, call) {
            Some(Fault::IsInterrupted) => return Err(ErrorKind::Interrupted.into()),
            Some(_) => return Err(ErrorKind::ConnectionReset.into()),
            None => {}
        }
        match self.next_most() {
            None => Err(ErrorKind::TimedOut.into()),
            Some(_) if self.rest.is_empty() => self.give_end(buf),
            Some(most) => Ok(self.give(buf, most)),
        }
    }
}

/// A writer that holds what is written, up to its room. Once it is full, a write takes nothing or
/// fails. Its calls are writes and flushes, counted together.
#[derive(Drop)]
pub struct Sink<'a> {
    pub bytes: Vec<u8>,
    pub calls: usize,
    pub writes: usize,
    fault: Option<FaultAt>,
    room: usize,
    is_closed: bool,
    received: Option<&'a Cell<usize>>,
}

impl<'a> Sink<'a> {
    /// Makes a writer that appends what is written to `bytes`.
    pub fn of(bytes: Vec<u8>) -> Sink<'a> {
        Sink {
            bytes,
            calls: 0,
            writes: 0,
            fault: None,
            room: usize::MAX,
            is_closed: false,
            received: None,
        }
    }

    pub fn new(alloc: Global) -> Sink<'a> {
        Sink::of(Vec::new(alloc))
    }

    /// Makes a writer that has `fault` at call `call`, counted over writes and flushes.
    pub fn faulty(alloc: Global, call: usize, fault: Fault) -> Sink<'a> {
        let mut sink = Sink::new(alloc);
        sink.fault = Some(FaultAt { call, fault });
        sink
    }

    /// Makes a writer with room for `room` bytes. Once it is full, a write fails if `is_closed` and
    /// takes nothing otherwise.
    pub fn bounded(alloc: Global, room: usize, is_closed: bool) -> Sink<'a> {
        let mut sink = Sink::new(alloc);
        sink.room = room;
        sink.is_closed = is_closed;
        sink
    }

    /// Makes a writer that sets `received` to the number of bytes that a client has received.
    pub fn received(alloc: Global, received: &'a Cell<usize>) -> Sink<'a> {
        let mut sink = Sink::new(alloc);
        sink.received = Some(received);
        sink
    }

    fn next_fault(&mut self) -> Option<Fault> {
        let call = self.calls;
        self.calls = call.saturating_add(1);
        fault_of(self.fault, call)
    }

    fn take(&mut self, buf: &[u8]) -> io::Result<usize>
        ensures { IfOk result (λ count. count ≤ length buf.now) }
    {
        let free = self.room.saturating_sub(self.bytes.len());
        if free == 0 && self.is_closed {
            return Err(ErrorKind::BrokenPipe.into());
        }
        let count = free.min(buf.len());
        self.bytes.extend_from_slice(&buf[..count])?;
        if let Some(received) = self.received {
            received.set(self.bytes.len());
        }
        Ok(count)
    }
}

impl Write for Sink<'_> {
    fn write(&mut self, buf: &[u8]) -> io::Result<usize> {
        self.writes = self.writes.saturating_add(1);
        match self.next_fault() {
            Some(Fault::IsInterrupted) => Err(ErrorKind::Interrupted.into()),
            Some(Fault::Fails) => Err(ErrorKind::BrokenPipe.into()),
            Some(Fault::TakesNothing) => Ok(0),
            None => self.take(buf),
        }
    }

    fn flush(&mut self) -> io::Result<()> {
        match self.next_fault() {
            Some(Fault::Fails) => Err(ErrorKind::BrokenPipe.into()),
            _ => Ok(()),
        }
    }
}

fn fault_of(fault: Option<FaultAt>, call: usize) -> Option<Fault> {
    match fault {
        Some(due) if due.call == call => Some(due.fault),
        _ => None,
    }
}

/// Returns the number of line feeds in `text`.
pub fn feeds_of(text: &[u8]) -> usize {
    text.iter().filter(|&&byte| byte == b'\n').count()
}

/// Returns the first `count` lines of `text`, each with its line feed, or all if there are fewer.
pub fn first_lines(text: &[u8], count: usize) -> &[u8] {
    let mut len = 0;
    let mut lines = 0;
    for (at, &byte) in text.iter().enumerate() {
        if byte == b'\n' && lines < count {
            lines += 1;
            len = at.saturating_add(1);
        }
    }
    text.get(..len).unwrap_or(text)
}

/// Returns the options of a run in which a job has three attempts, the later ones 1,000 nanoseconds
/// after the failure before them.
pub fn options(rt: &impl Abort, timer: TimerKind, calls: u64) -> ScriptOptions {
    assert!(rt; calls >= 1);
    assert!(rt; calls <= 1_000_000);
    let policy = Policy::fixed(1_000, 3).expect(rt, "a policy");
    ScriptOptions {
        timer,
        calls,
        policy,
    }
}

/// The outcome of a run.
#[derive(Drop)]
pub struct Outcome {
    pub ended: Result<Ended, BrokerFault>,
    pub reads: usize,
    pub unread: usize,
    pub bytes: Vec<u8>,
    /// The number of writes and flushes.
    pub calls: usize,
    pub writes: usize,
}

/// Runs a script from the empty opening, and keeps no history.
pub fn ran(
    rt: &impl Abort,
    alloc: Global,
    way: Way,
    calls: u64,
    source: Source<'_>,
    sink: Sink<'_>,
) -> Outcome {
    let mut nothing: Option<Sink<'static>> = None;
    recorded(rt, alloc, way, calls, source, sink, &mut nothing)
}

/// Runs a script by `run_script_delivered`.
pub fn delivered<R: Read, W: Write, H: Write>(
    alloc: Global,
    options: &ScriptOptions,
    delivery: Delivery,
    opening: Opening,
    source: &mut R,
    sink: &mut W,
    history: Option<&mut H>,
) -> ScriptReport {
    let mut status = WriterStatus::of(&*sink);
    let (_, report) = run_script_delivered(
        alloc,
        options,
        delivery,
        opening,
        &mut LimitedReader::new(source),
        LimitedWriter::new(sink, &mut status),
        history,
    );
    report
}

/// Runs a script from the empty opening, by `run_script` or `run_script_delivered`. Writes its history
/// if there is a device for it.
pub fn recorded(
    rt: &impl Abort,
    alloc: Global,
    way: Way,
    calls: u64,
    source: Source<'_>,
    sink: Sink<'_>,
    history: &mut Option<Sink<'static>>,
) -> Outcome {
    let (mut source, mut sink) = (source, sink);
    let (delivery, timer) = way;
    let options = options(rt, timer, calls);
    let opening = Opening::empty(alloc);
    let history = history.as_mut();
    let ended = match delivery {
        Delivery::AtOnce => run_script(alloc, &options, opening, &mut source, &mut sink, history),
        gathered => delivered(
            alloc,
            &options,
            gathered,
            opening,
            &mut source,
            &mut sink,
            history,
        )
        .result(),
    };
    Outcome {
        ended,
        reads: source.calls,
        unread: source.rest.len(),
        bytes: sink.bytes,
        calls: sink.calls,
        writes: sink.writes,
    }
}

// Comparisons are functions without clauses, so tests that call them have nothing to prove.

/// Asserts what the device of a history received.
pub fn expect_history(rt: &impl Abort, device: &Option<Sink<'static>>, wanted: &[u8], at: usize) {
    let device = device.as_ref().expect(rt, "a device");
    expect_bytes(rt, &device.bytes, wanted, at);
}

pub fn expect_end(
    rt: &impl Abort,
    ended: Result<Ended, BrokerFault>,
    wanted: Result<Ended, BrokerFault>,
    at: usize,
) {
    expect_same_at(rt, ended, wanted, at);
}
