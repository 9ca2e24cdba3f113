use rb_binary::BinaryTimer;
use rb_kept::Kept;
use rb_ledger::Tally;
use rb_retry::{KeptDesk, Policy};
use rb_session::{Ended, SessionFault, run_session};
use rb_timer::Timer;
use std::alloc::Global;
use std::fmt::Debug;
use std::io::{self, ErrorKind, Read, Write};
use std::process::Abort;

/// A reader that gives its bytes one at a time, and fails at call `fails_at`, counted from 0.
#[derive(Drop)]
pub struct Bytes<'a> {
    pub rest: &'a [u8],
    pub calls: usize,
    pub fails_at: usize,
}

impl<'a> Bytes<'a> {
    pub fn of(rest: &'a [u8], fails_at: usize) -> Bytes<'a> {
        Bytes {
            rest,
            calls: 0,
            fails_at,
        }
    }
}

impl Read for Bytes<'_> {
    fn read(&mut self, buf: &mut [u8]) -> io::Result<usize> {
        let call = self.calls;
        self.calls = call.saturating_add(1);
        if call == self.fails_at {
            return Err(ErrorKind::ConnectionReset.into());
        }
        let count = buf.len().min(self.rest.len()).min(1);
        buf[..count].copy_from_slice(&self.rest[..count]);
        self.rest = &self.rest[count..];
        Ok(count)
    }
}

/// A writer that keeps what is written, at most `most` bytes at each write, and fails at call
/// `fails_at`, counted from 0. Writes and flushes are counted together.
#[derive(Drop)]
pub struct Sheet {
    pub bytes: Vec<u8>,
    pub calls: usize,
    pub fails_at: usize,
    pub most: usize,
}

impl Sheet {
    pub fn new(alloc: Global, fails_at: usize) -> Sheet {
        Sheet {
            bytes: Vec::new(alloc),
            calls: 0,
            fails_at,
            most: usize::MAX,
        }
    }

    /// Makes a writer that takes one byte at each write.
    pub fn of_bytes(alloc: Global) -> Sheet {
        let mut sheet = Sheet::new(alloc, NEVER);
        sheet.most = 1;
        sheet
    }

    fn fails_now(&mut self) -> bool {
        let call = self.calls;
        self.calls = call.saturating_add(1);
        call == self.fails_at
    }
}

impl Write for Sheet {
    fn write(&mut self, buf: &[u8]) -> io::Result<usize> {
        if self.fails_now() {
            return Err(ErrorKind::BrokenPipe.into());
        }
        let count = buf.len().min(self.most);
        self.bytes.extend_from_slice(&buf[..count])?;
        Ok(count)
    }

    fn flush(&mut self) -> io::Result<()> {
        if self.fails_now() {
            return Err(ErrorKind::BrokenPipe.into());
        }
        Ok(())
    }
}

/// The number of a call that never comes.
pub const NEVER: usize = usize::MAX;

/// Makes a kept queue with room for `calls` calls, and hands it to `work` with its tally.
pub fn with_kept<T, F: FnOnce(&mut Kept<BinaryTimer>, &mut Tally) -> T>(
    rt: &impl Abort,
    alloc: Global,
    calls: u64,
    work: F,
) -> T
    requires { F.IsAlwaysCallable work }
{
    let (mut kept, mut tally) = kept(rt, alloc, calls);
    let done = work(&mut kept, &mut tally);
    drop(kept);
    done
}

// Makes a kept queue, and tries once more if memory is refused: `dev/refuse_allocations` refuses these allocations too.
fn kept(rt: &impl Abort, alloc: Global, calls: u64) -> (Kept<BinaryTimer>, Tally) {
    match Kept::new(alloc, calls) {
        Ok(made) => made,
        Err(_) => expect_made(rt, Kept::new(alloc, calls)),
    }
}

/// Runs a session over the kept queue. A job has three attempts, and each retry expires 1,000
/// nanoseconds after the failure.
pub fn run<T: Timer, W: Write>(
    rt: &impl Abort,
    alloc: Global,
    kept: &mut Kept<T>,
    tally: &mut Tally,
    reader: &mut Bytes<'_>,
    writer: &mut W,
) -> Result<Ended, SessionFault> {
    let policy = Policy::fixed(1_000, 3).expect(rt, "a policy");
    run_by(alloc, kept, tally, reader, writer, &policy)
}

/// Runs a session over the kept queue, whose jobs fail by `policy`.
pub fn run_by<T: Timer, R: Read, W: Write>(
    alloc: Global,
    kept: &mut Kept<T>,
    tally: &mut Tally,
    reader: &mut R,
    writer: &mut W,
    policy: &Policy,
) -> Result<Ended, SessionFault> {
    let mut desk = KeptDesk::new(kept, tally);
    run_session(alloc, reader, writer, &mut desk, policy)
}

/// The outcome of a session.
#[derive(Drop)]
pub struct Outcome {
    pub ended: Result<Ended, SessionFault>,
    pub bytes: Vec<u8>,
    pub calls: usize,
}

/// Runs a session over a queue of its own. The reader fails at call `read_fails_at`, and the writer
/// at call `write_fails_at`.
pub fn ran<T: Timer>(
    rt: &impl Abort,
    alloc: Global,
    script: &[u8],
    read_fails_at: usize,
    write_fails_at: usize,
) -> Outcome {
    let (mut kept, mut tally) = expect_made(rt, Kept::<T>::new(alloc, 100));
    let (mut reader, mut writer) = (
        Bytes::of(script, read_fails_at),
        Sheet::new(alloc, write_fails_at),
    );
    let ended = run(rt, alloc, &mut kept, &mut tally, &mut reader, &mut writer);
    drop(kept);
    Outcome {
        ended,
        bytes: writer.bytes,
        calls: writer.calls,
    }
}

/// Requests with their replies.
#[derive(Drop)]
pub struct Dialogue {
    pub script: Vec<u8>,
    pub replies: Vec<u8>,
}

impl Dialogue {
    pub fn new(alloc: Global) -> Dialogue {
        Dialogue {
            script: Vec::new(alloc),
            replies: Vec::new(alloc),
        }
    }

    /// Appends a request with its replies.
    pub fn push(&mut self, rt: &impl Abort, request: &[u8], replies: &[u8]) {
        push(rt, &mut self.script, request);
        push(rt, &mut self.replies, replies);
    }
}

/// Appends bytes.
pub fn push(rt: &impl Abort, text: &mut Vec<u8>, bytes: &[u8]) {
    expect_made(rt, text.extend_from_slice(bytes));
}

// Appends the last decimal digit of `number`.
fn push_digit(rt: &impl Abort, text: &mut Vec<u8>, number: u64) {
    push(rt, text, &[b"0123456789"[(number % 10) as usize]]);
}

// Appends `number`, which has at most 20 digits.
fn push_number(rt: &impl Abort, text: &mut Vec<u8>, number: u64) {
    let mut power = 10_000_000_000_000_000_000_u64;
    for _ in 0..19 {
        if number >= power {
            push_digit(rt, text, number / power.max(1));
        }
        power /= 10;
    }
    push_digit(rt, text, number);
}

/// Appends `front`, the number and `back`.
pub fn push_line(rt: &impl Abort, text: &mut Vec<u8>, front: &[u8], number: u64, back: &[u8]) {
    push(rt, text, front);
    push_number(rt, text, number);
    push(rt, text, back);
}

/// Returns what was made. Asserts that it was.
pub fn expect_made<T, E: Drop>(rt: &impl Abort, made: Result<T, E>) -> T {
    made.ok().expect(rt, "what is made")
}

// Comparisons are functions without clauses, so tests that call them have nothing to prove. What a
// function hands over by value, if only to `drop`, has no fields to be dropped in its own proof.

/// Asserts that two values are equal. Each comparison is made here, since each function that asserts
/// it by itself costs its proof.
pub fn expect_same<V: PartialEq + Debug + Drop>(rt: &impl Abort, found: V, wanted: V) {
    assert_eq!(rt; found, wanted);
}

/// Does the same, and says at which place they are not.
pub fn expect_same_at<V: PartialEq + Debug + Drop>(
    rt: &impl Abort,
    found: V,
    wanted: V,
    at: usize,
) {
    assert_eq!(rt; found, wanted, "{at}");
}

pub fn expect_end(
    rt: &impl Abort,
    ended: Result<Ended, SessionFault>,
    wanted: Result<Ended, SessionFault>,
    at: usize,
) {
    expect_same_at(rt, ended, wanted, at);
}

pub fn expect_bytes(rt: &impl Abort, bytes: &[u8], wanted: &[u8], at: usize) {
    expect_same_at(rt, bytes, wanted, at);
}

pub fn expect_number(rt: &impl Abort, number: u64, wanted: u64, at: usize) {
    expect_same_at(rt, number, wanted, at);
}

pub fn expect_count(rt: &impl Abort, count: usize, wanted: usize, at: usize) {
    expect_same_at(rt, count, wanted, at);
}

pub fn expect(rt: &impl Abort, holds: bool) {
    assert!(rt; holds);
}
