use crate::tests::devices::{expect_bytes, expect_count};
use crate::tests::runs::devices::{
    AT_END, AT_ONCE, Fault, GATHERED, Sink, Source, WAYS, Way, expect_end, first_lines, ran,
};
use rb_ending::BrokerFault;
use std::alloc::Global;
use std::process::Abort;

// Requests with one reply each.
const SCRIPT: &[u8] = b"AT 100\nOFFER 50 a\nSIZE\nPOLL\nPEEK\n";

const REPLIES: &[u8] = b"NOW 100\nOFFERED 0 150\nSIZE 1\nNONE\nHEAD 0 150 1 a\n";

// A conversation. Its replies reach the writer by `calls` calls if each read gives one byte.
#[derive(Clone, Copy)]
struct Row {
    script: &'static [u8],
    replies: &'static [u8],
    calls: usize,
}

const ROWS: [Row; 3] = [
    Row {
        script: SCRIPT,
        replies: REPLIES,
        calls: 10,
    },
    Row {
        script: b"OFFER 0 a\npoll\nPOLL\nPOLL",
        replies: b"OFFERED 0 0\nERR 1 syntax\nITEM 0 0 1 a\nERR 8 line\n",
        calls: 8,
    },
    Row {
        script: b"SIZE\nQUIT\nSIZE\n",
        replies: b"SIZE 0\nBYE\n",
        calls: 4,
    },
];

// Asserts that a writer that fails at call `call` ends the session. It has received the replies
// before that call, and the reply of the call itself if the call is a flush.
fn expect_write_fault(rt: &impl Abort, alloc: Global, way: Way, row: Row, call: usize) {
    let sink = Sink::faulty(alloc, call, Fault::Fails);
    let outcome = ran(rt, alloc, way, 10, Source::of(row.script, 1), sink);
    expect_end(rt, outcome.ended, Err(BrokerFault::Write), call);
    expect_bytes(
        rt,
        &outcome.bytes,
        first_lines(row.replies, call.div_ceil(2)),
        call,
    );
    expect_count(rt, outcome.calls, call.saturating_add(1), call);
}

fn expect_write_faults(rt: &impl Abort, alloc: Global, way: Way, row: Row) {
    for call in 0..row.calls {
        expect_write_fault(rt, alloc, way, row, call);
    }
}

// If each read gives one byte, each reply is handed on by one write and one flush. So call 2 k
// writes reply k, and the next call flushes it.
#[test]
fn a_writer_that_fails_ends_the_session(rt: HostRuntime) {
    for row in ROWS {
        for way in WAYS {
            expect_write_faults(&rt, rt.alloc(), way, row);
        }
    }
}

fn expect_nothing_taken(rt: &impl Abort, alloc: Global, way: Way, lines: usize) {
    let sink = Sink::faulty(alloc, lines.saturating_mul(2), Fault::TakesNothing);
    let outcome = ran(rt, alloc, way, 10, Source::of(SCRIPT, 1), sink);
    expect_end(rt, outcome.ended, Err(BrokerFault::Write), lines);
    expect_bytes(rt, &outcome.bytes, first_lines(REPLIES, lines), lines);
}

#[test]
fn a_writer_that_takes_nothing_ends_the_session(rt: HostRuntime) {
    for way in [AT_ONCE, GATHERED] {
        for lines in 0..5_usize {
            expect_nothing_taken(&rt, rt.alloc(), way, lines);
        }
    }
}

#[test]
fn an_interrupted_write_is_made_again(rt: HostRuntime) {
    let alloc = rt.alloc();
    let sink = Sink::faulty(alloc, 2, Fault::IsInterrupted);
    let outcome = ran(&rt, alloc, GATHERED, 10, Source::of(SCRIPT, 1), sink);
    expect_end(&rt, outcome.ended, AT_END, 0);
    expect_bytes(&rt, &outcome.bytes, REPLIES, 0);
    expect_count(&rt, outcome.calls, 11, 0);
}

#[test]
fn a_batch_is_one_write_and_one_flush(rt: HostRuntime) {
    let alloc = rt.alloc();
    let source = Source::of(SCRIPT, usize::MAX);
    let outcome = ran(&rt, alloc, GATHERED, 10, source, Sink::new(alloc));
    expect_end(&rt, outcome.ended, AT_END, 0);
    expect_count(&rt, outcome.calls, 2, 0);
    expect_count(&rt, outcome.reads, 2, 0);
}
