// Two takers that wait for one element.

use crate::tests::callers::{Caller, Counts, FixedClock, in_threads};
use crate::tests::fixtures::{await_more, expect, expect_same};
use rb_blocking::{Gate, Rested, WaitFault};
use rb_lock::Pass;
use rb_timer::Timer;
use std::process::Abort;
use std::sync::Wait;
use std::sync::atomic::Ordering;
use std::time::Clock;

const ROUNDS: u64 = 10;

// A gate that ends a wait `left` turns after another taker was served, in round `round`. `left`
// counts those turns down.
#[derive(Drop)]
struct LosersGate<'a> {
    counts: &'a Counts,
    round: u64,
    left: u64,
}

impl<'a> Gate for LosersGate<'a> {
    ghost answers = { λ _ _ _. Unit {0} };

    ghost has_seen = { λ _ _. Unit {0} };

    fn turn(&mut self, turns: u64) -> bool {
        if turns == 0 {
            self.counts.waits.fetch_add(1, Ordering::SeqCst);
        }
        if self.counts.taken.load(Ordering::SeqCst) > self.round {
            self.left = self.left.saturating_sub(1);
        }
        self.left > 0
    }

    fn rested<T: Timer>(&mut self, _rested: Rested, _pass: &Pass<T>) {}
}

// Takes an element in a round, or is stopped by its gate three turns after the other taker was
// served. Asserts that it was one of both, and tells the other taker which.
fn take<R: Wait + Clock + Abort>(rt: &R, caller: &mut Caller<'_>, round: u64) {
    let counts = caller.counts;
    let mut gate = LosersGate {
        counts,
        round,
        left: 3,
    };
    let ended = caller.take_by(rt, &FixedClock(9), &mut gate).err();
    let served = u64::from(ended.is_none());
    counts.taken.fetch_add(served, Ordering::SeqCst);
    let wanted = if served == 1 {
        (None, 3)
    } else {
        (Some(WaitFault::Stopped), 0)
    };
    expect_same(rt, (ended, gate.left), wanted);
}

// The work of thread `number`. In each round the first two take, and the third offers one element,
// once both wait. Returns the number of calls that were answered.
fn take_or_offer<R: Wait + Clock + Abort>(
    rt: &R,
    caller: &mut Caller<'_>,
    _scene: &(),
    number: usize,
) -> u64 {
    for round in 0..ROUNDS {
        if number == 2 {
            await_more(
                rt,
                &caller.counts.waits,
                round.saturating_mul(2).saturating_add(1),
            );
            let _ = caller.offer(rt, 9, 9);
        } else {
            take(rt, caller, round);
        }
    }
    caller.pass.calls()
}

// One taker is served in each round.
#[test]
fn one_of_two_takers_gets_it_and_the_other_waits_on(rt: HostRuntime) {
    let counts = Counts::new();
    // Room for one more event than is made: a full history would refuse the last taker that waits.
    let calls = in_threads(&rt, 2 * ROUNDS + 1, &counts, 3, &(), take_or_offer);
    expect(&rt, calls.is_ok());
    expect_same(&rt, counts.taken.load(Ordering::SeqCst), ROUNDS);
}
