// When the replies to batches of requests are handed on, over visits that lie in memory.

use crate::tests::devices::{
    GATHERED, Received, Sends, at_once, expect_audit, expect_counts, expect_made, expect_number,
    expect_text, expect_writes, planned,
};
use crate::tests::visits::{all_given, served};
use rb_session::Delivery;
use std::alloc::Global;
use std::io::Write;
use std::process::Abort;
use std::sync::atomic::{AtomicU64, Ordering};

// The first take finds its element, and the second waits for an offer. Another visitor makes the offer once it
// sees the replies to the lines before the second.
#[test]
fn no_reply_waits_for_a_take(rt: HostRuntime) {
    let alloc = rt.alloc();
    let (turns, others) = (AtomicU64::new(0), AtomicU64::new(0));
    let (first, second) = (Received::none(alloc), Received::none(alloc));
    let before = b"OFFERED 0 7\nITEM 0 7 1 a\nDONE 0\n";
    let offers = Sends::OnceSent(b"OFFER 0 b\nQUIT\n", &first, before);
    let takes = at_once(b"OFFER 0 a\nTAKE\nDONE 0\nTAKE\nDONE 1\nQUIT\n");
    let plans = [
        planned(takes, &first, &turns),
        planned(Some(offers), &second, &others),
    ];
    let counts = served(&rt, alloc, GATHERED, &plans, 2);
    expect_text(&rt, &second, b"OFFERED 1 7\nBYE\n");
    let all = b"OFFERED 0 7\nITEM 0 7 1 a\nDONE 0\nITEM 1 7 1 b\nDONE 1\nBYE\n";
    expect_text(&rt, &first, all);
    // There is one write before the wait, and one at the end.
    expect_writes(&rt, &first, 2);
    expect_counts(&rt, counts, 2, 0, 0);
    expect_audit(&rt, counts.audit, all_given(2));
}

// The same holds for a poll that may wait.
#[test]
fn no_reply_waits_for_a_timed_poll(rt: HostRuntime) {
    let alloc = rt.alloc();
    let (turns, others) = (AtomicU64::new(0), AtomicU64::new(0));
    let (first, second) = (Received::none(alloc), Received::none(alloc));
    let offers = Sends::OnceSent(b"OFFER 0 a\nQUIT\n", &first, b"SIZE 0\n");
    let polls = at_once(b"SIZE\nPOLLFOR 1000\nDONE 0\nQUIT\n");
    let plans = [
        planned(polls, &first, &turns),
        planned(Some(offers), &second, &others),
    ];
    let counts = served(&rt, alloc, GATHERED, &plans, 2);
    expect_text(&rt, &second, b"OFFERED 0 7\nBYE\n");
    expect_text(&rt, &first, b"SIZE 0\nITEM 0 7 1 a\nDONE 0\nBYE\n");
    expect_counts(&rt, counts, 2, 0, 0);
}

// Returns the lines of 32 offers, and the replies to them.
fn batch(rt: &impl Abort, alloc: Global) -> (Vec<u8>, Vec<u8>) {
    let (mut lines, mut replies) = (Vec::new(alloc), Vec::new(alloc));
    for id in 0..32 {
        expect_made(rt, lines.extend_from_slice(b"OFFER 0 a\n"));
        expect_made(rt, write!(replies, "OFFERED {id} 7\n"));
    }
    (lines, replies)
}

// Pushes the lines of an offer and of its take, which is a timed poll if the id is odd, and the replies to them.
fn push_taken(rt: &impl Abort, lines: &mut Vec<u8>, replies: &mut Vec<u8>, id: u64) {
    let take = if id % 2 == 0 { "TAKE" } else { "POLLFOR 1000" };
    expect_made(rt, write!(lines, "OFFER 0 a\n{take}\nDONE {id}\n"));
    expect_made(
        rt,
        write!(replies, "OFFERED {id} 7\nITEM {id} 7 1 a\nDONE {id}\n"),
    );
}

// Returns the lines of 32 offers, each of which is taken at once, and the replies to them.
fn taken_at_once(rt: &impl Abort, alloc: Global) -> (Vec<u8>, Vec<u8>) {
    let (mut lines, mut replies) = (Vec::new(alloc), Vec::new(alloc));
    for id in 0..32 {
        push_taken(rt, &mut lines, &mut replies, id);
    }
    (lines, replies)
}

#[test]
fn a_batch_of_offers_is_one_write(rt: HostRuntime) {
    let alloc = rt.alloc();
    let (lines, replies) = batch(&rt, alloc);
    let turns = AtomicU64::new(0);
    let received = Received::none(alloc);
    let plans = [planned(at_once(&lines), &received, &turns)];
    let counts = served(&rt, alloc, GATHERED, &plans, 1);
    expect_text(&rt, &received, &replies);
    expect_writes(&rt, &received, 1);
    expect_counts(&rt, counts, 1, 0, 0);
    expect_number(&rt, counts.audit.offered, 32);
}

// Each take finds its element, and each timed poll either, so nothing waits.
#[test]
fn a_batch_of_takes_that_find_their_elements_is_one_write(rt: HostRuntime) {
    let alloc = rt.alloc();
    let (lines, replies) = taken_at_once(&rt, alloc);
    let turns = AtomicU64::new(0);
    let received = Received::none(alloc);
    let plans = [planned(at_once(&lines), &received, &turns)];
    let counts = served(&rt, alloc, GATHERED, &plans, 1);
    expect_text(&rt, &received, &replies);
    expect_writes(&rt, &received, 1);
    expect_number(&rt, turns.load(Ordering::SeqCst), 0);
    expect_audit(&rt, counts.audit, all_given(32));
}

#[test]
fn replies_that_are_not_gathered_are_a_write_each(rt: HostRuntime) {
    let alloc = rt.alloc();
    let (lines, replies) = batch(&rt, alloc);
    let turns = AtomicU64::new(0);
    let received = Received::none(alloc);
    let plans = [planned(at_once(&lines), &received, &turns)];
    let counts = served(&rt, alloc, Delivery::AtOnce, &plans, 1);
    expect_text(&rt, &received, &replies);
    expect_writes(&rt, &received, 32);
    expect_counts(&rt, counts, 1, 0, 0);
}
