// Gates that end a wait after a number of turns, each with its rest.

use crate::tests::callers::{Caller, FixedClock, with_caller};
use crate::tests::fixtures::{expect, expect_same};
use rb_blocking::{Bell, Clock, Gate, MachineClock, Rested, WaitFault};
use rb_lock::Pass;
use rb_timer::Timer;
use std::process::Abort;
use std::sync::Wait;
use std::time;

// More turns than a wait makes in a server that is started without `--turns`.
const TURNS: u64 = 12_000;

// The length of a rest that nothing ends, in nanoseconds.
const REST: u64 = 20_000_000;

// A gate that rings the bell at each turn, so that no rest lasts. It ends the wait after `TURNS`
// turns, or at a turn whose number is not the next one.
#[derive(Drop)]
struct RingingGate<'a, R> {
    rt: &'a R,
    bell: &'a Bell,
    next: u64,
}

impl<'a, R: Wait> Gate for RingingGate<'a, R> {
    ghost answers = { λ _ _ _. Unit {0} };

    ghost has_seen = { λ _ _. Unit {0} };

    fn turn(&mut self, turns: u64) -> bool {
        if turns != self.next {
            return false;
        }
        self.next = turns.saturating_add(1);
        self.bell.ring(self.rt);
        self.next < TURNS
    }

    fn rested<T: Timer>(&mut self, _rested: Rested, _pass: &Pass<T>) {}
}

// Makes a take whose rests don't last. Asserts the number of its turns, counted while each turn has
// the next number.
fn expect_turns<R: Wait + time::Clock + Abort>(rt: &R, caller: &mut Caller<'_>) {
    let bell = caller.bell;
    let mut gate = RingingGate { rt, bell, next: 0 };
    let _ = caller.take_by(rt, &FixedClock(7), &mut gate);
    expect_same(rt, gate.next, TURNS);
}

#[test]
fn each_turn_is_counted(rt: HostRuntime) {
    with_caller(&rt, rt.alloc(), 1, expect_turns);
}

// Makes takes that find nothing, with gates of several limits. Asserts how often each take asked
// its gate, at least how long it lasted, and how it ended.
fn expect_stops<R: Wait + time::Clock + Abort>(rt: &R, caller: &mut Caller<'_>) {
    for limit in 0..6_u64 {
        let watch = MachineClock::new(rt);
        let taken = caller.take(rt, &FixedClock(7), limit);
        let lasted = watch.now();
        expect_same(rt, taken, Err(WaitFault::Stopped));
        expect_same(rt, caller.asked(), limit.saturating_add(1));
        expect(rt, limit.saturating_mul(REST) <= lasted);
    }
    expect_same(rt, caller.pass.calls(), 0);
}

#[test]
fn stops_after_so_many_turns(rt: HostRuntime) {
    with_caller(&rt, rt.alloc(), 1, expect_stops);
}

// A gate that ends a wait after three turns, and counts the rests between its questions.
#[derive(Drop)]
struct RestGate<'a, C> {
    watch: &'a C,
    asked: u64,
    last: u64,
    rests: u64,
}

impl<'a, C: Clock> Gate for RestGate<'a, C> {
    ghost answers = { λ _ _ _. Unit {0} };

    ghost has_seen = { λ _ _. Unit {0} };

    fn turn(&mut self, turns: u64) -> bool {
        let now = self.watch.now();
        if self.asked > 0 && REST <= now.saturating_sub(self.last) {
            self.rests = self.rests.saturating_add(1);
        }
        self.asked = self.asked.saturating_add(1);
        self.last = now;
        turns < 3
    }

    fn rested<T: Timer>(&mut self, _rested: Rested, _pass: &Pass<T>) {}
}

// Polls at moment 7, and asserts that the call rests at least so often between the questions to its
// gate, and ends by the fourth. Returns whether it was seen not to rest after that.
fn expect_rests<R: Wait + time::Clock + Abort>(
    rt: &R,
    caller: &mut Caller<'_>,
    timeout: u64,
    rests: u64,
) -> bool {
    let watch = MachineClock::new(rt);
    let mut gate = RestGate {
        watch: &watch,
        asked: 0,
        last: 0,
        rests: 0,
    };
    let polled = caller.poll_by(rt, &FixedClock(7), &mut gate, 7, timeout);
    let since_last = watch.now().saturating_sub(gate.last);
    expect_same(rt, polled, Err(WaitFault::Stopped));
    expect_same(rt, gate.asked, 4);
    expect(rt, rests <= gate.rests);
    since_last < REST
}

// A deadline that is only 5 nanoseconds ahead ends the first rest: by a clock that stands still, the two
// others are whole. On a busy machine a call may be held up as long as a rest takes, but not each of
// twenty.
fn expect_three_rests<R: Wait + time::Clock + Abort>(rt: &R, caller: &mut Caller<'_>) {
    for (timeout, rests) in [(5, 2), (1_000_000_000, 3)] {
        let is_seen = (0..20_u32).any(|_| expect_rests(rt, caller, timeout, rests));
        expect(rt, is_seen);
    }
    expect_same(rt, caller.pass.calls(), 0);
}

#[test]
fn a_timed_poll_rests_between_its_questions(rt: HostRuntime) {
    with_caller(&rt, rt.alloc(), 1, expect_three_rests);
}
