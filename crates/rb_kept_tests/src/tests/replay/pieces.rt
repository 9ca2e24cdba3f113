//! Texts that are written in several pieces, and devices that fail at each of their calls in turn.
//!
//! Each event counts no element, at a moment of its own.

use crate::tests::fixtures::expect_made;
use crate::tests::replay::devices::{Device, NEVER, expect, expect_count, write_in};
use crate::tests::replay::fixtures::{Deed, history_of, opening, push_row};
use rb_history::HistoryRoom;
use rb_protocol::WriteFault;
use rb_replay::History;
use std::alloc::Global;
use std::fmt::Write;
use std::process::Abort;

// The room that a text is gathered in, in bytes.
const PIECE: usize = 65_536;

// The first moment. All moments have seven digits, so that the line of an event has 25 bytes.
const START: u64 = 1_000_000;

// The text of 100,000 events has 21, 2,500,000 and 11 bytes, so 39 pieces if each is full but for less than
// a line. A flush comes behind them.
const LONG: u64 = 100_000;

const LONG_BYTES: usize = 2_500_032;

const LONG_PIECES: usize = 39;

// The text of 10,000 events has 21, 250,000 and 10 bytes.
const SHORTER: u64 = 10_000;

const SHORTER_BYTES: usize = 250_031;

const SHORTER_PIECES: usize = 4;

// The text of 2,620 events has 65,529 bytes and the digits of the next id: just a piece if it has seven.
const ONE_PIECE: u64 = 2_620;

// Returns a history of so many events, and its text.
fn counts(rt: &impl Abort, alloc: Global, next_id: u64, events: u64) -> (History, String) {
    let mut counts = Vec::new(alloc);
    let mut text = String::new(alloc);
    expect_made(rt, write!(text, "history 3\nopen {next_id} 0 0\n"));
    for index in 0..events {
        let moment = START.saturating_add(index);
        push_row(rt, alloc, &mut counts, (0, moment, moment, Deed::Size(0)));
        push_line(rt, &mut text, moment);
    }
    expect_made(rt, write!(text, "end {events}\n"));
    let opening = opening(rt, alloc, Some((&[], next_id)));
    (history_of(rt, opening, counts), text)
}

fn push_line(rt: &impl Abort, text: &mut String, moment: u64) {
    expect_made(rt, write!(text, "0 {moment} {moment} size 0\n"));
}

// Writes to a device that takes at most `most` bytes at a time and fails at call `fails_at`.
fn written(
    rt: &impl Abort,
    alloc: Global,
    history: History,
    (most, fails_at): (usize, usize),
) -> (Device, Result<(), WriteFault>) {
    let room = expect_made(rt, HistoryRoom::new(alloc));
    let mut device = Device::new(alloc, most, fails_at);
    let ended = write_in(rt, room, history.opening(), history.events(), &mut device);
    (device, ended)
}

// Writes to a device that takes all of each write. Asserts that it gets the text, in so many writes and
// a flush.
fn goes_out(rt: &impl Abort, alloc: Global, (history, text): (History, String), writes: usize) {
    let (device, ended) = written(rt, alloc, history, (NEVER, NEVER));
    expect(rt, ended.is_ok());
    expect(rt, device.longest <= PIECE);
    expect_count(rt, device.calls, writes.saturating_add(1));
    expect(rt, device.bytes.as_slice() == text.as_bytes());
}

// A device that takes a part of each piece gets the rest of it by further writes.
fn goes_out_in_parts(
    rt: &impl Abort,
    alloc: Global,
    (history, text): (History, String),
    bytes: usize,
) {
    let (device, ended) = written(rt, alloc, history, (1_000, NEVER));
    expect(rt, ended.is_ok());
    expect_count(rt, device.bytes.len(), bytes);
    expect(rt, device.bytes.as_slice() == text.as_bytes());
}

#[test]
fn a_long_text_goes_out_in_pieces(rt: HostRuntime) {
    let alloc = rt.alloc();
    goes_out(&rt, alloc, counts(&rt, alloc, 0, LONG), LONG_PIECES);
    goes_out_in_parts(&rt, alloc, counts(&rt, alloc, 0, LONG), LONG_BYTES);
}

// Returns how many bytes are written at least before this call: whole pieces, or all before the flush.
fn least_written(call: usize) -> usize {
    if call == SHORTER_PIECES {
        SHORTER_BYTES
    } else {
        call.saturating_mul(PIECE - 25)
    }
}

// Nothing is written behind a call that failed, and what was written before it is the first part of the text.
fn breaks_off(rt: &impl Abort, alloc: Global, (history, text): (History, String), fails_at: usize) {
    let (device, ended) = written(rt, alloc, history, (NEVER, fails_at));
    expect(rt, ended == Err(WriteFault));
    expect_count(rt, device.calls, fails_at.saturating_add(1));
    expect(rt, text.as_bytes().starts_with(&device.bytes));
    expect(rt, device.bytes.len() >= least_written(fails_at));
}

#[test]
fn a_device_that_fails_at_any_call_has_a_first_part(rt: HostRuntime) {
    let alloc = rt.alloc();
    for fails_at in 0..=SHORTER_PIECES {
        breaks_off(&rt, alloc, counts(&rt, alloc, 0, SHORTER), fails_at);
    }
}

// A text that fits into the room is one write, and a byte more makes it two.
#[test]
fn a_text_that_fits_is_one_write(rt: HostRuntime) {
    let alloc = rt.alloc();
    for (next_id, writes) in [(0, 1), (9_999_999, 1), (10_000_000, 2)] {
        goes_out(&rt, alloc, counts(&rt, alloc, next_id, ONE_PIECE), writes);
    }
}
