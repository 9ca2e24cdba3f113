// Scripts in which each reply is written when its request is served.

use crate::tests::devices::{expect_bytes, expect_count, push, push_line};
use crate::tests::runs::devices::{
    AT_END, AT_ONCE, Sink, Source, expect_end, expect_history, first_lines, ran, recorded,
};
use rb_ending::BrokerFault;
use std::alloc::Global;
use std::process::Abort;

const OFFERS: &[u8] = b"OFFER 0 a\nOFFER 0 b\nOFFER 0 c\n";

// Replies of twelve bytes each.
const REPLIES: &[u8] = b"OFFERED 0 0\nOFFERED 1 0\nOFFERED 2 0\n";

const EVENTS: &[u8] =
    b"0 0 0 offer 0 0 0 0 1 a\n0 0 0 offer 1 0 1 0 1 b\n0 0 0 offer 2 0 2 0 1 c\n";

// Returns the history of the first `offers` offers.
fn history_of(rt: &impl Abort, alloc: Global, offers: usize) -> Vec<u8> {
    let mut text = Vec::new(alloc);
    push(rt, &mut text, b"history 3\nopen 0 0 0\n");
    push(rt, &mut text, first_lines(EVENTS, offers));
    push_line(rt, &mut text, b"end ", offers as u64, b"\n");
    text
}

#[test]
fn each_reply_is_a_write_and_a_flush(rt: HostRuntime) {
    let alloc = rt.alloc();
    let source = Source::of(OFFERS, usize::MAX);
    let outcome = ran(&rt, alloc, AT_ONCE, 100, source, Sink::new(alloc));
    expect_end(&rt, outcome.ended, AT_END, 0);
    expect_bytes(&rt, &outcome.bytes, REPLIES, 0);
    expect_count(&rt, outcome.writes, 3, 0);
    expect_count(&rt, outcome.calls, 6, 0);
}

// Runs the script over a writer with room for `room` bytes. Asserts how it ended, which bytes the
// writer received and, by the history, what was offered.
fn expect_offers(rt: &impl Abort, alloc: Global, room: usize, is_closed: bool) {
    let source = Source::of(OFFERS, usize::MAX);
    let sink = Sink::bounded(alloc, room, is_closed);
    let mut history = Some(Sink::new(alloc));
    let outcome = recorded(rt, alloc, AT_ONCE, 100, source, sink, &mut history);
    let wanted = if room < REPLIES.len() {
        Err(BrokerFault::Write)
    } else {
        AT_END
    };
    expect_end(rt, outcome.ended, wanted, room);
    expect_bytes(
        rt,
        &outcome.bytes,
        REPLIES.get(..room).unwrap_or(REPLIES),
        room,
    );
    let served = history_of(rt, alloc, (room / 12 + 1).min(3));
    expect_history(rt, &history, &served, room);
}

// One read gives all three lines. The line whose reply does not go out is the last one that is
// served.
#[test]
fn no_line_is_served_after_a_failing_write(rt: HostRuntime) {
    for room in 0..=REPLIES.len() {
        expect_offers(&rt, rt.alloc(), room, true);
        expect_offers(&rt, rt.alloc(), room, false);
    }
}
