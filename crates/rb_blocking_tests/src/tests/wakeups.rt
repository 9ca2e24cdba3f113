// One thread waits, and another offers once the first one waits.

use crate::tests::callers::{Caller, Counts, FixedClock, in_threads};
use crate::tests::fixtures::{await_more, expect_given};
use std::process::Abort;
use std::sync::Wait;
use std::time::Clock;

const ROUNDS: u64 = 1_000;

// The work of thread `number`. In each round the first thread takes an element at moment 9. The
// other offers one, which is expired then, once the take has found nothing. Returns the number of
// calls that were answered.
fn take_or_offer<R: Wait + Clock + Abort>(
    rt: &R,
    caller: &mut Caller<'_>,
    _scene: &(),
    number: usize,
) -> u64 {
    for round in 0..ROUNDS {
        if number == 0 {
            let _ = caller.take(rt, &FixedClock(9), u64::MAX);
        } else {
            await_more(rt, &caller.counts.waits, round);
            let _ = caller.offer(rt, 9, 9);
        }
    }
    caller.pass.calls()
}

#[test]
fn waits_then_takes(rt: HostRuntime) {
    let calls = in_threads(&rt, 2 * ROUNDS, &Counts::new(), 2, &(), take_or_offer);
    expect_given(&rt, calls, &[ROUNDS; 2]);
}
