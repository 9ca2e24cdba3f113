ghost use Rattle.rb_queue.specs.History.{IsLegal};

use crate::tests::fixtures::{expect_made, expect_same};
use crate::tests::replay::devices::{Scale, expect, write_to};
use rb_protocol::{LineReply, write_reply};
use rb_queue::{Event, Opening};
use rb_replay::{
    ChainFault, History, HistoryFault, OpeningFault, ReplayFault, TextFault, chains, check,
    opening_of, read_history,
};
use rb_retry::Policy;
use std::alloc::Global;
use std::process::Abort;

// The number of refusals that the test meets. `dev/refuse_allocations` sets 1 and refuses each
// allocation of the test in turn.
const REFUSALS: u32 = 0;

// A run with more elements, origins, ids and events than the first allocations have room for.
const TEXT: &[u8] =
    b"history 2\nopen 20 0 12\nkeep 0 0 0 1 a\nkeep 1 0 1 1 a\nkeep 2 0 2 1 a\nkeep 3 0 3 1 a\n\
        keep 4 0 4 1 a\nkeep 5 0 5 1 a\nkeep 6 0 6 1 a\nkeep 7 0 7 1 a\nkeep 8 0 8 1 a\n\
        keep 9 0 9 1 a\nkeep 10 0 10 1 a\nkeep 11 0 11 1 a\n0 0 0 drain 5 0 1 2 3 4\n\
        0 0 0 offer 20 9 20 1 b\n0 0 0 offer 21 9 21 1 b\n0 0 0 offer 22 9 22 1 b\n\
        0 0 0 offer 23 9 23 1 b\n0 0 0 offer 24 9 24 1 b\n0 0 0 offer 25 9 25 1 b\n\
        0 0 0 offer 26 9 26 1 b\n0 0 0 offer 27 9 27 1 b\n0 0 0 offer 28 9 28 1 b\n\
        0 0 0 offer 29 9 29 1 b\n0 0 0 offer 30 9 30 1 b\n0 0 0 offer 31 9 31 1 b\n0 0 0 size 19\n\
        end 14\n";

// Each of these functions makes one call, and returns whether it was refused. If it was, the
// function makes the call again, and asserts that it is not refused twice. A function that owns
// nothing while it compares has little to prove.

fn refused_reading(rt: &impl Abort, alloc: Global) -> bool {
    let fault = read_history(alloc, TEXT).err();
    if fault.is_some() {
        expect(rt, fault == Some(TextFault::Memory));
        expect(rt, read_history(alloc, TEXT).is_ok());
    }
    fault.is_some()
}

fn refused_check(rt: &impl Abort, alloc: Global, opening: &Opening, events: &[Event]) -> bool
    ensures { IsLegal opening.now events.now }
{
    assert!(rt; events.len() <= 1_000_000);
    match check(alloc, opening, events) {
        Ok(_) => false,
        Err(fault) => {
            expect(rt, fault == ReplayFault::Memory);
            assert!(rt; check(alloc, opening, events).is_ok());
            true
        }
    }
}

fn refused_chains(rt: &impl Abort, alloc: Global, opening: &Opening, events: &[Event]) -> bool
    requires { IsLegal opening.now events.now }
{
    let policy = Policy::fixed(1000, 3).expect(rt, "a policy");
    let answer = chains(alloc, opening, events, &policy);
    if answer == Err(ChainFault::Memory) {
        expect(rt, chains(alloc, opening, events, &policy) == Ok(()));
        return true;
    }
    expect(rt, answer == Ok(()));
    false
}

fn refused_opening(rt: &impl Abort, alloc: Global, history: &History) -> bool {
    let fault = opening_of(alloc, history).err();
    if fault.is_some() {
        expect(rt, fault == Some(OpeningFault::Memory));
        expect(rt, opening_of(alloc, history).is_ok());
    }
    fault.is_some()
}

// Asserts that nothing is written if the room for writing is refused.
fn refused_writing(rt: &impl Abort, alloc: Global, opening: &Opening, events: &[Event]) -> bool {
    let mut scale = Scale { bytes: 0 };
    let fault = write_to(rt, alloc, opening, events, &mut scale).err();
    if fault.is_some() {
        expect(rt, (fault, scale.bytes) == (Some(HistoryFault::Memory), 0));
        expect(rt, write_to(rt, alloc, opening, events, &mut scale).is_ok());
    }
    fault.is_some()
}

// Returns the number of refused calls on the history that was read.
fn refused_calls(rt: &impl Abort, alloc: Global, history: &History) -> u32 {
    let (opening, events) = (history.opening(), history.events());
    let mut refusals = u32::from(refused_check(rt, alloc, opening, events));
    for refused in [
        refused_chains(rt, alloc, opening, events),
        refused_opening(rt, alloc, history),
        refused_writing(rt, alloc, opening, events),
    ] {
        refusals = refusals.saturating_add(u32::from(refused));
    }
    refusals
}

// Returns the number of refused calls. The second reading is one of them.
fn refused(rt: &impl Abort, alloc: Global) -> u32 {
    let read = u32::from(refused_reading(rt, alloc));
    match read_history(alloc, TEXT) {
        Ok(history) => refused_calls(rt, alloc, &history).saturating_add(read),
        Err(_) => read.saturating_add(1),
    }
}

// A reply and its line.
const REPLY: LineReply = LineReply::Size(u64::MAX);

const LINE: &[u8] = b"SIZE 18446744073709551615\n";

// The number of lines of a text of replies, which grows several times on the way.
const LINES: usize = 100;

// Makes a text of one line, without room for another, and tries once more if memory is refused.
fn full_text(rt: &impl Abort, alloc: Global) -> Vec<u8> {
    match Vec::from_slice(alloc, LINE) {
        Ok(text) => text,
        Err(_) => expect_made(rt, Vec::from_slice(alloc, LINE)),
    }
}

// Writes a reply, and returns whether it was refused. A refused reply leaves the text as it was,
// and is written again.
fn refused_line(rt: &impl Abort, text: &mut Vec<u8>) -> bool {
    let before = text.len();
    let is_refused = write_reply(&REPLY, text).is_err();
    if is_refused {
        expect(rt, text.len() == before);
        expect(rt, write_reply(&REPLY, text).is_ok());
    }
    is_refused
}

fn expect_lines(rt: &impl Abort, text: &[u8]) {
    expect(rt, text.len() == LINES.saturating_mul(LINE.len()));
    for line in text.chunks(LINE.len()) {
        expect(rt, line == LINE);
    }
}

// Returns the number of replies that were refused.
fn refused_replies(rt: &impl Abort, alloc: Global) -> u32 {
    let mut text = full_text(rt, alloc);
    let mut refusals = 0_u32;
    for _ in 1..LINES {
        let refused = refused_line(rt, &mut text);
        refusals = refusals.saturating_add(u32::from(refused));
    }
    expect_lines(rt, &text);
    refusals
}

#[test]
fn a_refused_allocation_is_answered(rt: HostRuntime) {
    let replies = refused_replies(&rt, rt.alloc());
    let others = refused(&rt, rt.alloc());
    expect_same(&rt, others.saturating_add(replies), REFUSALS);
}
