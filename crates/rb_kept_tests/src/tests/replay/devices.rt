use crate::tests::fixtures::expect_same;
use crate::tests::replay::fixtures::is_read_as;
use rb_history::{HistoryRoom, write_history_in};
use rb_protocol::{LimitedWriter, WriteFault, WriterStatus};
use rb_queue::{Event, Opening};
use rb_replay::{History, HistoryFault, TextFault, TextReason, write_history};
use std::alloc::Global;
use std::io::{self, ErrorKind, Write};
use std::process::Abort;

/// The number of a call that never comes.
pub const NEVER: usize = usize::MAX;

/// A writer that takes at most `most` bytes in one write, and fails at call `fails_at`, counted
/// from 0. Writes and flushes are counted together. It tells how many bytes the longest write had.
#[derive(Drop)]
pub struct Device {
    pub bytes: Vec<u8>,
    pub most: usize,
    pub longest: usize,
    pub calls: usize,
    pub fails_at: usize,
    /// Whether two of three writes are interrupted.
    pub is_restless: bool,
}

impl Device {
    pub fn new(alloc: Global, most: usize, fails_at: usize) -> Device {
        Device {
            bytes: Vec::new(alloc),
            most,
            longest: 0,
            calls: 0,
            fails_at,
            is_restless: false,
        }
    }

    fn call(&mut self) -> io::Result<()> {
        let call = self.calls;
        self.calls = call.saturating_add(1);
        if call == self.fails_at {
            return Err(ErrorKind::BrokenPipe.into());
        }
        Ok(())
    }
}

impl Write for Device {
    fn write(&mut self, buf: &[u8]) -> io::Result<usize> {
        self.call()?;
        if self.is_restless && self.calls % 3 != 0 {
            return Err(ErrorKind::Interrupted.into());
        }
        self.longest = self.longest.max(buf.len());
        let count = self.most.min(buf.len());
        self.bytes.extend_from_slice(&buf[..count])?;
        Ok(count)
    }

    fn flush(&mut self) -> io::Result<()> {
        self.call()
    }
}

/// A writer that counts the bytes that it is given, and takes no memory.
#[derive(Drop)]
pub struct Scale {
    pub bytes: usize,
}

impl Write for Scale {
    fn write(&mut self, buf: &[u8]) -> io::Result<usize> {
        self.bytes = self.bytes.saturating_add(buf.len());
        Ok(buf.len())
    }

    fn flush(&mut self) -> io::Result<()> {
        Ok(())
    }
}

/// Writes a history of at most 1,000,000 events.
pub fn write_to<W: Write>(
    rt: &impl Abort,
    alloc: Global,
    opening: &Opening,
    events: &[Event],
    device: &mut W,
) -> Result<(), HistoryFault> {
    assert!(rt; events.len() <= 1_000_000);
    write_history(alloc, opening, events, device)
}

/// Writes a history of at most 1,000,000 events through a room.
pub fn write_in<W: Write>(
    rt: &impl Abort,
    room: HistoryRoom,
    opening: &Opening,
    events: &[Event],
    device: &mut W,
) -> Result<(), WriteFault> {
    assert!(rt; events.len() <= 1_000_000);
    let mut status = WriterStatus::of(&*device);
    let writer = LimitedWriter::new(device, &mut status);
    let (_, written) = write_history_in(room, opening, events, writer);
    written
}

// Comparisons are functions without clauses, so tests that call them have nothing to prove.

pub fn expect(rt: &impl Abort, holds: bool) {
    assert!(rt; holds);
}

pub fn expect_count(rt: &impl Abort, count: usize, wanted: usize) {
    expect_same(rt, count, wanted);
}

pub fn expect_bytes(rt: &impl Abort, bytes: &[u8], wanted: &[u8]) {
    expect_same(rt, bytes, wanted);
}

pub fn expect_written(
    rt: &impl Abort,
    answer: Result<(), HistoryFault>,
    wanted: Result<(), HistoryFault>,
) {
    expect_same(rt, answer, wanted);
}

pub fn expect_unreadable(rt: &impl Abort, fault: Option<TextFault>, line: u64, reason: TextReason) {
    expect_same(rt, fault, Some(TextFault::At { line, reason }));
}

/// Asserts that the whole history is written to a device, and read from what that received. Returns
/// the number of bytes and of the device's calls.
pub fn expect_read_again(
    rt: &impl Abort,
    alloc: Global,
    history: &History,
    mut device: Device,
) -> (usize, usize) {
    let ended = write_to(rt, alloc, history.opening(), history.events(), &mut device);
    expect_written(rt, ended, Ok(()));
    expect(rt, is_read_as(alloc, &device.bytes, history));
    (device.bytes.len(), device.calls)
}
