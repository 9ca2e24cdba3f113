// While there is memory, an offer is answered, whatever the numbers in it are. A contract lets a
// body say at any time that memory ran out.

use crate::tests::callers::{Caller, FixedClock, with_caller};
use crate::tests::fixtures::{draft, element, expect_same, payload, split_off};
use rb_blocking::{TurnGate, offer_ring, take};
use rb_delayed::{Element, GREATEST_ATTEMPT};
use rb_queue::Draft;
use std::process::Abort;
use std::sync::Wait;
use std::time;

// The number of rounds, each an offer and a take.
const ROUNDS: u64 = 5_000;

// Returns a draft of the last attempt of a job whose first attempt had id 7 and expiry 8.
fn last_attempt(rt: &impl Abort, expiry: u64) -> Draft {
    Draft {
        expiry,
        origin: Some(7),
        first: Some(8),
        attempt: GREATEST_ATTEMPT,
        payload: payload(rt),
    }
}

// Returns the element that this draft becomes, with id `id`.
fn last_element(rt: &impl Abort, id: u64, expiry: u64) -> Element {
    Element {
        id,
        expiry,
        origin: 7,
        first: 8,
        attempt: GREATEST_ATTEMPT,
        payload: payload(rt),
    }
}

// Offers a first and a last attempt at each of several moments. A row has the id of the first
// attempt, of which the last attempt has the next one, the moment of both offers, and the expiry of
// both elements.
fn expect_moments<R: Wait + Abort>(rt: &R, caller: &mut Caller<'_>) {
    for (id, asked, expiry) in [
        (0, 0, 0),
        (2, 1, u64::MAX),
        (4, 1 << 63, 1 << 63),
        (6, u64::MAX - 1, u64::MAX - 1),
        (8, u64::MAX, u64::MAX),
    ] {
        let first = caller.offer(rt, asked, expiry);
        expect_same(rt, first, Ok(element(rt, id, expiry)));
        let last = caller.offer_draft(rt, asked, last_attempt(rt, expiry));
        expect_same(rt, last, Ok(last_element(rt, id.saturating_add(1), expiry)));
    }
    expect_same(rt, caller.pass.calls(), 10);
}

#[test]
fn offers_up_to_the_greatest_moment(rt: HostRuntime) {
    with_caller(&rt, rt.alloc(), 20, expect_moments);
}

// Offers an element in each round, and takes it. The round is also its id, its expiry and the
// moment of both calls.
fn expect_rounds<R: Wait + time::Clock + Abort>(rt: &R, caller: &mut Caller<'_>) {
    for id in 0..ROUNDS {
        expect_same(rt, caller.offer(rt, id, id), Ok(element(rt, id, id)));
        let taken = caller.take(rt, &FixedClock(id), 0);
        expect_same(rt, taken, Ok(element(rt, id, id)));
    }
    expect_same(rt, caller.pass.calls(), 2 * ROUNDS);
}

#[test]
fn offers_after_thousands_of_calls(rt: HostRuntime) {
    with_caller(&rt, rt.alloc(), 2 * ROUNDS, expect_rounds);
}

// Makes such a round with a new pass, and folds it back.
fn expect_pass<R: Wait + time::Clock + Abort>(rt: &R, caller: &mut Caller<'_>, id: u64) {
    let (shared, bell) = (caller.shared, caller.bell);
    let mut other = split_off(rt, shared, &mut caller.pass, id.saturating_add(1));
    let offered = offer_ring(rt, shared, &mut other, id, draft(rt, id), bell);
    let (clock, mut gate) = (FixedClock(id), TurnGate { limit: 0 });
    let taken = take(rt, shared, &mut other, &clock, &mut gate, bell);
    shared.fold(&mut caller.pass, other);
    expect_same(rt, offered, Ok(element(rt, id, id)));
    expect_same(rt, taken, Ok(element(rt, id, id)));
}

fn expect_passes<R: Wait + time::Clock + Abort>(rt: &R, caller: &mut Caller<'_>) {
    for id in 0..ROUNDS {
        expect_pass(rt, caller, id);
    }
    expect_same(rt, caller.pass.calls(), 2 * ROUNDS);
}

#[test]
fn offers_of_each_pass_are_answered(rt: HostRuntime) {
    with_caller(&rt, rt.alloc(), 2 * ROUNDS, expect_passes);
}
