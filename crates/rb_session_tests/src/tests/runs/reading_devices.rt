use crate::tests::devices::{expect_bytes, expect_count, push, push_line};
use crate::tests::gathered_replies::repeated;
use crate::tests::runs::devices::{
    AT_END, AT_ONCE, End, Fault, GATHERED, Sink, Source, WAYS, Way, expect_end, expect_history,
    feeds_of, first_lines, ran, recorded,
};
use rb_ending::BrokerFault;
use std::alloc::Global;
use std::process::Abort;

// Requests with one reply each.
const SCRIPT: &[u8] = b"AT 100\nOFFER 50 a\nSIZE\nPOLL\nPEEK\n";

const REPLIES: &[u8] = b"NOW 100\nOFFERED 0 150\nSIZE 1\nNONE\nHEAD 0 150 1 a\n";

// Runs the script over a reader that gives one byte at each call and fails at call `call`. Asserts
// that the session ended there, with the replies to all whole lines.
fn expect_read_fault(rt: &impl Abort, alloc: Global, way: Way, call: usize) {
    let source = Source::faulty(SCRIPT, 1, call, Fault::Fails);
    let outcome = ran(rt, alloc, way, 10, source, Sink::new(alloc));
    expect_end(rt, outcome.ended, Err(BrokerFault::Read), call);
    let lines = feeds_of(SCRIPT.get(..call).unwrap_or(SCRIPT));
    expect_bytes(rt, &outcome.bytes, first_lines(REPLIES, lines), call);
    expect_count(rt, outcome.reads, call.saturating_add(1), call);
}

#[test]
fn a_reader_that_fails_ends_at_the_last_whole_line(rt: HostRuntime) {
    for way in WAYS {
        for call in 0..=SCRIPT.len() {
            expect_read_fault(&rt, rt.alloc(), way, call);
        }
    }
}

fn expect_read_again(rt: &impl Abort, alloc: Global, way: Way, call: usize) {
    let source = Source::faulty(SCRIPT, 1, call, Fault::IsInterrupted);
    let outcome = ran(rt, alloc, way, 10, source, Sink::new(alloc));
    expect_end(rt, outcome.ended, AT_END, call);
    expect_bytes(rt, &outcome.bytes, REPLIES, call);
}

#[test]
fn an_interrupted_read_is_made_again(rt: HostRuntime) {
    for way in [AT_ONCE, GATHERED] {
        for call in 0..=SCRIPT.len() {
            expect_read_again(&rt, rt.alloc(), way, call);
        }
    }
}

// Each line has eight bytes, so each read of 65,536 bytes ends with a whole line.
#[test]
fn a_read_takes_64_kib(rt: HostRuntime) {
    let alloc = rt.alloc();
    let script = repeated(&rt, alloc, b"AT 1234\n", 16_384);
    let replies = repeated(&rt, alloc, b"NOW 1234\n", 16_384);
    let source = Source::of(&script, usize::MAX);
    let outcome = ran(&rt, alloc, GATHERED, 1, source, Sink::new(alloc));
    expect_end(&rt, outcome.ended, AT_END, 0);
    expect_bytes(&rt, &outcome.bytes, &replies, 0);
    expect_count(&rt, outcome.reads, 3, 0);
}

// The history of a run in which a job is held at the end.
const HELD: &[u8] =
    b"history 3\nopen 0 0 0\n0 0 0 offer 0 0 0 0 1 a\n0 0 0 poll 0\n0 0 0 offer 1 1000 0 0 2 a\nend 3\n";

// An interrupted read counts like a read that gives a byte. The history is written although the
// input is given up.
#[test]
fn an_input_without_an_end_is_given_up(rt: HostRuntime) {
    let alloc = rt.alloc();
    let source = Source::ending(b"OFFER 0 a\nPOLL\n", End::NeverComes);
    let (sink, mut history) = (Sink::new(alloc), Some(Sink::new(alloc)));
    let outcome = recorded(&rt, alloc, GATHERED, 3, source, sink, &mut history);
    expect_end(&rt, outcome.ended, Err(BrokerFault::ReadTurns), 0);
    expect_count(&rt, outcome.reads, 10_000_000, 0);
    expect_bytes(&rt, &outcome.bytes, b"OFFERED 0 0\nITEM 0 0 1 a\n", 0);
    expect_count(&rt, outcome.calls, 2, 0);
    expect_history(&rt, &history, HELD, 0);
}

// A job with three attempts. The third failure is the last.
const JOB: &[u8] =
    b"AT 100\nOFFER 0 j\nPOLL\nAT 200\nFAIL 0\nAT 1200\nPOLL\nFAIL 1\nAT 2200\nPOLL\nFAIL 2\nFAIL 2\n";

const JOB_REPLIES: &[u8] =
    b"NOW 100\nOFFERED 0 100\nITEM 0 100 1 j\nNOW 200\nAGAIN 1 1200\nNOW 1200\nITEM 1 1200 2 j\n\
        AGAIN 2 2200\nNOW 2200\nITEM 2 2200 3 j\nDEAD 2\nERR 5 not-held\n";

// Returns the replies to the whole lines of `part`, a first part of the job's lines. There is one
// more reply if a part of a line is left.
fn replies_to(rt: &impl Abort, alloc: Global, part: &[u8]) -> Vec<u8> {
    let mut replies = Vec::new(alloc);
    push(rt, &mut replies, first_lines(JOB_REPLIES, feeds_of(part)));
    if !part.is_empty() && part.last() != Some(&b'\n') {
        push(rt, &mut replies, b"ERR 8 line\n");
    }
    replies
}

// The events of the job's whole lines, from the first on: an offer and a poll, a failure, and so on. A
// line that sets the clock has none, and neither have the last two.
const JOB_EVENTS: &[u8] =
    b"0 100 100 offer 0 100 0 100 1 j\n0 100 100 poll 0\n0 200 200 offer 1 1200 0 100 2 j\n\
        0 1200 1200 poll 1\n0 1200 1200 offer 2 2200 0 100 3 j\n0 2200 2200 poll 2\n";

// What a part of the job's lines leaves: the number of its events, and the event of the failure at the
// end if the job is held there. A job that has had its last attempt fails without an event.
fn left_by(lines: usize) -> (usize, &'static [u8]) {
    match lines {
        0 | 1 => (0, b""),
        2 => (1, b""),
        3 => (2, b"0 100 100 offer 1 1100 0 100 2 j\n"),
        4 => (2, b"0 200 200 offer 1 1200 0 100 2 j\n"),
        5 | 6 => (3, b""),
        7 => (4, b"0 1200 1200 offer 2 2200 0 100 3 j\n"),
        8 | 9 => (5, b""),
        _ => (6, b""),
    }
}

// Returns the history of a part of the job's lines.
fn history_of(rt: &impl Abort, alloc: Global, lines: usize) -> Vec<u8> {
    let (events, failure) = left_by(lines);
    let mut text = Vec::new(alloc);
    push(rt, &mut text, b"history 3\nopen 0 0 0\n");
    push(rt, &mut text, first_lines(JOB_EVENTS, events));
    push(rt, &mut text, failure);
    let count = events.saturating_add(feeds_of(failure));
    push_line(rt, &mut text, b"end ", count as u64, b"\n");
    text
}

fn expect_part(rt: &impl Abort, alloc: Global, way: Way, len: usize) {
    let part = JOB.get(..len).unwrap_or(JOB);
    let (source, sink) = (Source::of(part, usize::MAX), Sink::new(alloc));
    let mut history = Some(Sink::new(alloc));
    let outcome = recorded(rt, alloc, way, 100, source, sink, &mut history);
    expect_end(rt, outcome.ended, AT_END, len);
    expect_bytes(rt, &outcome.bytes, &replies_to(rt, alloc, part), len);
    expect_history(rt, &history, &history_of(rt, alloc, feeds_of(part)), len);
}

// What is held at the end of a part fails there, and nothing else does.
#[test]
fn each_part_of_a_script_gets_its_part_of_the_replies(rt: HostRuntime) {
    for way in [AT_ONCE, GATHERED] {
        for len in 0..JOB.len() {
            expect_part(&rt, rt.alloc(), way, len);
        }
    }
}
