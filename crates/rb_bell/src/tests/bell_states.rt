// The state that a bell keeps under its lock: which resting call it wakes, and which rings a call
// has missed.

use crate::bell_state::{BellState, PLACES};
use crate::tests::fixtures::expect_same;
use std::process::Abort;

fn expect_woken(rt: &impl Abort, state: &BellState, wanted: [bool; 3]) {
    let woken = [state.is_woken(0), state.is_woken(1), state.is_woken(2)];
    expect_same(rt, woken, wanted);
}

fn expect_left(rt: &impl Abort, state: &mut BellState, wanted: [bool; 3]) {
    let woken = [state.leave(0), state.leave(1), state.leave(2)];
    expect_same(rt, woken, wanted);
}

// Adds three resting calls, which look again at moments 10, 30 and 20. Asserts that each has a
// place of its own.
fn three_rest(rt: &impl Abort, state: &mut BellState) {
    let places = [state.enter(10), state.enter(30), state.enter(20)];
    expect_same(rt, places, [0, 1, 2]);
}

#[test]
fn wakes_one_that_looks_after_the_expiry(rt: HostRuntime) {
    let state = &mut BellState::new();
    expect_same(&rt, state.wake_one(0), None);
    three_rest(&rt, state);
    let woken = [state.wake_one(30), state.wake_one(29), state.wake_one(20)];
    expect_same(&rt, woken, [None, Some(1), None]);
    expect_same(&rt, state.wake_one(19), Some(2));
    expect_woken(&rt, state, [false, true, true]);
    expect_same(&rt, [state.wake_one(0), state.wake_one(0)], [Some(0), None]);
    expect_left(&rt, state, [true, true, true]);
    expect_same(&rt, state.wake_one(0), None);
}

#[test]
fn wakes_all_once(rt: HostRuntime) {
    let state = &mut BellState::new();
    three_rest(&rt, state);
    state.wake_all();
    expect_woken(&rt, state, [true, true, true]);
    expect_same(&rt, state.wake_one(0), None);
    expect_left(&rt, state, [true, true, true]);
    three_rest(&rt, state);
    expect_woken(&rt, state, [false, false, false]);
    expect_left(&rt, state, [false, false, false]);
}

// A call that has left does not look again, so its look does not count. An element that expires
// before that look, but not before the look of a resting call, wakes nobody.
#[test]
fn looks_of_calls_that_left_do_not_count(rt: HostRuntime) {
    let state = &mut BellState::new();
    three_rest(&rt, state);
    expect_left(&rt, state, [false, false, false]);
    let _ = state.enter(15);
    expect_same(
        &rt,
        [state.wake_one(15), state.wake_one(14)],
        [None, Some(0)],
    );
}

// More calls rest than there are places, all of which look again at moment 5. Each of them is woken
// once, by a wake for an element that expires at 4.
#[test]
fn wakes_each_of_more_than_there_are_places(rt: HostRuntime) {
    let state = &mut BellState::new();
    for _ in 0..2 * PLACES + 1 {
        let _ = state.enter(5);
    }
    let mut woken: u64 = 0;
    for _ in 0..3 * PLACES {
        woken = woken.saturating_add(u64::from(state.wake_one(4).is_some()));
    }
    expect_same(&rt, woken, 33);
}

#[test]
fn counts_on_from_the_greatest_count(rt: HostRuntime) {
    let state = &mut BellState::new();
    state.count = u64::MAX - 1;
    for wanted in [u64::MAX, 0, 1] {
        state.rise(0);
        expect_same(&rt, state.count, wanted);
    }
}

// Calls have seen the count `seen`, and look again at the moments 10 and 11 and at the greatest
// one.
fn expect_missed(rt: &impl Abort, state: &BellState, seen: u64, wanted: [bool; 3]) {
    let missed = [
        state.has_missed(seen, 10),
        state.has_missed(seen, 11),
        state.has_missed(seen, u64::MAX),
    ];
    expect_same(rt, missed, wanted);
}

// A call misses an element that expires at 10 only if it looks again after 10.
#[test]
fn what_expires_later_is_not_missed(rt: HostRuntime) {
    let state = &mut BellState::new();
    expect_missed(&rt, state, 0, [false; 3]);
    state.rise(10);
    expect_missed(&rt, state, 0, [false, true, true]);
    expect_missed(&rt, state, 1, [false; 3]);
    for _ in 0..15 {
        state.rise(u64::MAX);
    }
    expect_missed(&rt, state, 0, [false, true, true]);
    expect_missed(&rt, state, 1, [false; 3]);
    state.rise(0);
    expect_missed(&rt, state, 16, [true; 3]);
    expect_missed(&rt, state, 0, [true; 3]);
}

// A bell knows what its last 16 rings were for. After more rings than that, a call counts as having
// missed one.
#[test]
fn many_rings_are_missed(rt: HostRuntime) {
    let state = &mut BellState::new();
    state.count = u64::MAX - 7;
    for _ in 0..17 {
        state.rise(u64::MAX);
    }
    expect_missed(&rt, state, u64::MAX - 7, [true; 3]);
    expect_missed(&rt, state, u64::MAX - 6, [false; 3]);
}
