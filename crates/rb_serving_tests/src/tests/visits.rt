// Servers over visits that lie in memory, with a clock that always reads 7.

ghost use Rattle.std.specs.Prelude.{◌≤◌};

use crate::tests::devices::{
    Counts, DELIVERIES, GATHERED, Plan, Received, Sends, after, at_once, counted, expect,
    expect_audit, expect_audit_line, expect_counts, expect_made, expect_number, expect_text,
    hundred_calls, planned,
};
use rb_queue::Audit;
use rb_session::Delivery;
use std::alloc::Global;
use std::process::Abort;
use std::sync::atomic::AtomicU64;
use std::sync::{Mutex, Wait};
use std::thread::Threads;
use std::time;

// The audit lines of servers whose elements, one or two, were offered and given.
const ONE_GIVEN: &[u8] =
    b"{\"calls\":2,\"cleared\":0,\"given\":1,\"left\":0,\"offered\":1,\"opening\":0,\"removed\":0}\n";

const TWO_GIVEN: &[u8] =
    b"{\"calls\":4,\"cleared\":0,\"given\":2,\"left\":0,\"offered\":2,\"opening\":0,\"removed\":0}\n";

/// Serves `plans` by `workers` workers. Returns what was counted.
pub fn served<R: Threads + Wait + time::Clock + Abort + Sync>(
    rt: &R,
    alloc: Global,
    delivery: Delivery,
    plans: &[Plan<'_>],
    workers: u64,
) -> Counts
    requires some { 1 ≤ workers }
    requires few { workers ≤ 16 }
{
    counted(rt, alloc, delivery, plans, &hundred_calls(rt, workers))
}

/// Returns the audit of a run in which `offered` elements were offered, each was given, and nothing
/// else was asked.
pub fn all_given(offered: u64) -> Audit {
    Audit {
        calls: offered.saturating_add(offered),
        offered,
        given: offered,
        removed: 0,
        cleared: 0,
        left: 0,
        opening: 0,
    }
}

// Serves a visitor that takes, and one that offers once that take waits. Asserts that they were
// sent `taker` and `giver`. Returns what was counted.
fn expect_two<R: Threads + Wait + time::Clock + Abort + Sync>(
    rt: &R,
    alloc: Global,
    delivery: Delivery,
    workers: u64,
    taker: &[u8],
    giver: &[u8],
) -> Counts
    requires some { 1 ≤ workers }
    requires few { workers ≤ 16 }
{
    let (turns, others) = (AtomicU64::new(0), AtomicU64::new(0));
    let (first, second) = (Received::none(alloc), Received::none(alloc));
    let plans = [
        planned(at_once(b"TAKE\nDONE 0\nQUIT\n"), &first, &turns),
        planned(
            after(b"OFFER 0 a\nQUIT\n", &turns, &turns),
            &second,
            &others,
        ),
    ];
    let counts = served(rt, alloc, delivery, &plans, workers);
    expect_text(rt, &first, taker);
    expect_text(rt, &second, giver);
    counts
}

#[test]
fn workers_run_together(rt: HostRuntime) {
    let taker = b"ITEM 0 7 1 a\nDONE 0\nBYE\n";
    for delivery in DELIVERIES {
        let counts = expect_two(&rt, rt.alloc(), delivery, 2, taker, b"OFFERED 0 7\nBYE\n");
        expect_counts(&rt, counts, 2, 0, 0);
        expect_audit_line(&rt, rt.alloc(), &counts.audit, ONE_GIVEN);
    }
}

// One worker serves the visits one after the other, so the take finds nothing.
#[test]
fn one_worker_serves_in_turn(rt: HostRuntime) {
    let taker = b"STOPPED\nERR 5 not-held\nBYE\n";
    for delivery in DELIVERIES {
        let counts = expect_two(&rt, rt.alloc(), delivery, 1, taker, b"OFFERED 0 7\nBYE\n");
        expect_counts(&rt, counts, 2, 0, 0);
        expect_number(&rt, counts.audit.calls, 1);
        expect_number(&rt, counts.audit.left, 1);
    }
}

// Returns whether the two visitors were sent these two texts, in either order.
fn are_sent<R: Wait>(
    rt: &R,
    first: &Mutex<Received>,
    second: &Mutex<Received>,
    one: &[u8],
    other: &[u8],
) -> bool {
    let first = first.lock(rt);
    let second = second.lock(rt);
    let (first, second) = (first.text.as_slice(), second.text.as_slice());
    first == one && second == other || first == other && second == one
}

// Serves two visitors that take, and one that makes two offers once both takes wait. Asserts that each
// taker was sent an element of its own.
fn expect_own<R: Threads + Wait + time::Clock + Abort + Sync>(
    rt: &R,
    alloc: Global,
    delivery: Delivery,
) {
    let (turns, others, last) = (AtomicU64::new(0), AtomicU64::new(0), AtomicU64::new(0));
    let (first, second) = (Received::none(alloc), Received::none(alloc));
    let third = Received::none(alloc);
    let takes = at_once(b"TAKE\nDONE 0\nDONE 1\nQUIT\n");
    let offers = after(b"OFFER 0 a\nOFFER 0 b\nQUIT\n", &turns, &others);
    let plans = [
        planned(takes, &first, &turns),
        planned(takes, &second, &others),
        planned(offers, &third, &last),
    ];
    let counts = served(rt, alloc, delivery, &plans, 3);
    let got_first = b"ITEM 0 7 1 a\nDONE 0\nERR 5 not-held\nBYE\n";
    let got_second = b"ITEM 1 7 1 b\nERR 5 not-held\nDONE 1\nBYE\n";
    expect(rt, are_sent(rt, &first, &second, got_first, got_second));
    expect_text(rt, &third, b"OFFERED 0 7\nOFFERED 1 7\nBYE\n");
    expect_counts(rt, counts, 3, 0, 0);
    expect_audit_line(rt, alloc, &counts.audit, TWO_GIVEN);
}

#[test]
fn each_taker_gets_its_own(rt: HostRuntime) {
    for delivery in DELIVERIES {
        expect_own(&rt, rt.alloc(), delivery);
    }
}

// Serves a refused visit and a visit whose first read fails. Asserts that they are two faults, and make
// no call.
fn expect_faults<R: Threads + Wait + time::Clock + Abort + Sync>(
    rt: &R,
    alloc: Global,
    delivery: Delivery,
) {
    let turns = AtomicU64::new(0);
    let text = Received::none(alloc);
    let plans = [
        planned(None, &text, &turns),
        planned(Some(Sends::Nothing), &text, &turns),
    ];
    let counts = served(rt, alloc, delivery, &plans, 1);
    expect_counts(rt, counts, 2, 2, 0);
    expect_text(rt, &text, b"");
    expect_audit(rt, counts.audit, all_given(0));
}

#[test]
fn faults_are_counted(rt: HostRuntime) {
    for delivery in DELIVERIES {
        expect_faults(&rt, rt.alloc(), delivery);
    }
}

// Serves two faulty visits, and asserts that the one worker goes on serving after both.
fn expect_going_on<R: Threads + Wait + time::Clock + Abort + Sync>(
    rt: &R,
    alloc: Global,
    delivery: Delivery,
) {
    let turns = AtomicU64::new(0);
    let (faulty, text) = (Received::none(alloc), Received::none(alloc));
    let plans = [
        planned(Some(Sends::Nothing), &faulty, &turns),
        planned(None, &faulty, &turns),
        planned(at_once(b"OFFER 0 a\nQUIT\n"), &text, &turns),
    ];
    let counts = served(rt, alloc, delivery, &plans, 1);
    expect_counts(rt, counts, 3, 2, 0);
    expect_text(rt, &text, b"OFFERED 0 7\nBYE\n");
}

#[test]
fn faults_end_no_other_visit(rt: HostRuntime) {
    for delivery in DELIVERIES {
        expect_going_on(&rt, rt.alloc(), delivery);
    }
}

// Each take waits before the next one begins, and the fifth visit makes the offers for all four. So
// none of the five workers may be idle.
#[test]
fn each_worker_serves(rt: HostRuntime) {
    let alloc = rt.alloc();
    let (first, second) = (AtomicU64::new(0), AtomicU64::new(0));
    let (third, fourth) = (AtomicU64::new(0), AtomicU64::new(0));
    let last = AtomicU64::new(0);
    let text = Received::none(alloc);
    let offers = b"OFFER 0 a\nOFFER 0 b\nOFFER 0 c\nOFFER 0 d\n";
    let plans = [
        planned(
            at_once(b"TAKE\nDONE 0\nDONE 1\nDONE 2\nDONE 3\n"),
            &text,
            &first,
        ),
        planned(
            after(b"TAKE\nDONE 0\nDONE 1\nDONE 2\nDONE 3\n", &first, &first),
            &text,
            &second,
        ),
        planned(
            after(b"TAKE\nDONE 0\nDONE 1\nDONE 2\nDONE 3\n", &second, &second),
            &text,
            &third,
        ),
        planned(
            after(b"TAKE\nDONE 0\nDONE 1\nDONE 2\nDONE 3\n", &third, &third),
            &text,
            &fourth,
        ),
        planned(after(offers, &fourth, &fourth), &text, &last),
    ];
    let counts = served(&rt, alloc, GATHERED, &plans, 5);
    expect_counts(&rt, counts, 5, 0, 0);
    expect_audit(&rt, counts.audit, all_given(4));
}

// The greatest number of workers of a server, and the number of visitors.
const MOST_WORKERS: u64 = 16;

const COUNTS: &[u8] = b"SIZE\nQUIT\n";

const COUNTED: &[u8] = b"SIZE 0\nBYE\n";

fn nothing_received(rt: &impl Abort, alloc: Global) -> Vec<Mutex<Received>> {
    let mut received = Vec::new(alloc);
    for _ in 0..MOST_WORKERS {
        expect_made(rt, received.push(Received::none(alloc)));
    }
    received
}

// Plans one visit for each of `received`. Each visitor begins once the one after it has been
// served, and the last one at once.
fn last_first<'a>(
    rt: &impl Abort,
    alloc: Global,
    received: &'a [Mutex<Received>],
    turns: &'a AtomicU64,
) -> Vec<Plan<'a>> {
    let mut plans = Vec::new(alloc);
    for (place, own) in received.iter().enumerate() {
        let sends = begins_after(received.get(place.saturating_add(1)));
        expect_made(rt, plans.push(planned(sends, own, turns)));
    }
    plans
}

fn begins_after<'a>(next: Option<&'a Mutex<Received>>) -> Option<Sends<'a>> {
    match next {
        Some(next) => Some(Sends::OnceSent(COUNTS, next, COUNTED)),
        None => at_once(COUNTS),
    }
}

// The visitors are served last first, so none of them is served before all 16 workers run.
#[test]
fn sixteen_workers_run_together(rt: HostRuntime) {
    let alloc = rt.alloc();
    let received = nothing_received(&rt, alloc);
    let turns = AtomicU64::new(0);
    let plans = last_first(&rt, alloc, &received, &turns);
    let counts = served(&rt, alloc, GATHERED, &plans, MOST_WORKERS);
    expect_counts(&rt, counts, MOST_WORKERS, 0, 0);
    expect_number(&rt, counts.audit.calls, MOST_WORKERS);
    for text in &received {
        expect_text(&rt, text, COUNTED);
    }
}

// No client can set the clock that all of them share.
#[test]
fn no_client_sets_the_clock(rt: HostRuntime) {
    let turns = AtomicU64::new(0);
    let text = Received::none(rt.alloc());
    let plans = [planned(
        at_once(b"AT 9\nAT 01\nOFFERAT 8 a\nPOLL\nSIZE"),
        &text,
        &turns,
    )];
    let counts = served(&rt, rt.alloc(), GATHERED, &plans, 1);
    expect_counts(&rt, counts, 1, 0, 0);
    let expected = b"ERR 1 syntax\nERR 2 number\nOFFERED 0 8\nNONE\nERR 8 line\n";
    expect_text(&rt, &text, expected);
}
