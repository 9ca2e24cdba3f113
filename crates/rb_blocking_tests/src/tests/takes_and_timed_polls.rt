// Takes and timed polls by a clock that stands still, of a queue with at most one element in it.

ghost use Rattle.std.specs.Prelude.{◌≡◌};

use crate::tests::callers::{Caller, FixedClock, with_caller};
use crate::tests::fixtures::{element, expect_same};
use rb_blocking::{Clock, WaitFault};
use std::process::Abort;
use std::sync::Wait;
use std::sync::atomic::{AtomicU64, Ordering};
use std::time;

// Takes at moment 0. The gate allows no turn.
fn expect_rung_and_taken<R: Wait + time::Clock + Abort>(rt: &R, caller: &mut Caller<'_>) {
    let clock = FixedClock(0);
    expect_same(rt, caller.take(rt, &clock, 0), Err(WaitFault::Stopped));
    expect_same(rt, caller.pass.calls(), 0);
    expect_same(rt, caller.offer(rt, 0, 0), Ok(element(rt, 0, 0)));
    expect_same(rt, caller.take(rt, &clock, 0), Ok(element(rt, 0, 0)));
    expect_same(rt, caller.pass.calls(), 2);
    expect_same(rt, caller.bell.count(rt), 1);
}

#[test]
fn takes_what_was_offered(rt: HostRuntime) {
    with_caller(&rt, rt.alloc(), 4, expect_rung_and_taken);
}

// A clock that always reads 7, and counts its readings.
#[derive(Drop)]
struct CountingClock(AtomicU64);

impl Clock for CountingClock {
    ghost gives = { λ clock moment. moment ≡ 7 };

    ghost reads = { λ _ _ _. Unit {0} };

    fn now(&self) -> u64 {
        self.0.fetch_add(1, Ordering::SeqCst);
        7
    }

    fn now_for_try(&self, _tries: u64) -> u64 {
        self.now()
    }
}

// Asserts that the gate is asked once after each try, and that no try follows its no. The takes use
// no name, so the next pass has name 1.
fn expect_one_reading_a_try<R: Wait + time::Clock + Abort>(rt: &R, caller: &mut Caller<'_>) {
    let clock = CountingClock(AtomicU64::new(0));
    for limit in 0..4_u64 {
        let tries = limit.saturating_add(1);
        expect_same(rt, caller.take(rt, &clock, limit), Err(WaitFault::Stopped));
        expect_same(rt, caller.asked(), tries);
        expect_same(rt, clock.0.swap(0, Ordering::SeqCst), tries);
    }
    expect_same(rt, caller.another(rt).pass.name(), 1);
}

#[test]
fn each_try_reads_the_clock_once(rt: HostRuntime) {
    with_caller(&rt, rt.alloc(), 4, expect_one_reading_a_try);
}

// Polls at moment 7: with no timeout, and with one of 5 nanoseconds. The gate allows three turns.
fn expect_polls<R: Wait + time::Clock + Abort>(rt: &R, caller: &mut Caller<'_>) {
    let clock = FixedClock(7);
    expect_same(rt, caller.poll(rt, &clock, 3, 7, 0), Ok(None));
    expect_same(rt, caller.pass.calls(), 1);
    expect_same(rt, caller.asked(), 0);
    let stopped = Err(WaitFault::Stopped);
    expect_same(rt, caller.poll(rt, &clock, 3, 7, 5), stopped);
    expect_same(rt, caller.pass.calls(), 1);
    expect_same(rt, caller.asked(), 4);
}

#[test]
fn polls_until_the_deadline(rt: HostRuntime) {
    with_caller(&rt, rt.alloc(), 4, expect_polls);
}
