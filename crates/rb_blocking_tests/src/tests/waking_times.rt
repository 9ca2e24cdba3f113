// How soon a resting call gets an element that was due when it was offered.

use crate::tests::callers::{Caller, Counts, SOON, in_threads};
use crate::tests::fixtures::{await_more, expect, expect_given};
use rb_blocking::MachineClock;
use std::process::Abort;
use std::sync::Wait;
use std::thread::sleep;
use std::time;
use std::time::Duration;

// The number of elements that are offered, one by one.
const ELEMENTS: u64 = 200;

// The work of thread `number`: the first takes all elements, and asserts that more than half of
// them come soon after their expiry. The other offers elements that are due, each once the take has
// had time to fall asleep. Returns the number of calls that were answered.
fn take_or_offer<R: Wait + time::Clock + Abort>(
    rt: &R,
    caller: &mut Caller<'_>,
    clock: &MachineClock<'_, R>,
    number: usize,
) -> u64 {
    let mut soon: u64 = 0;
    for element in 0..ELEMENTS {
        if number == 0 {
            soon = soon.saturating_add(u64::from(caller.lateness(rt, clock) < SOON));
        } else {
            await_more(rt, &caller.counts.waits, element);
            sleep(rt, Duration::from_millis(1));
            caller.offer_ahead(rt, clock, 0);
        }
    }
    expect(rt, number > 0 || soon > ELEMENTS / 2);
    caller.pass.calls()
}

// A take that nobody wakes would get nearly every element about 19 ms late.
#[test]
fn a_resting_take_is_woken(rt: HostRuntime) {
    let clock = MachineClock::new(&rt);
    let calls = in_threads(&rt, 2 * ELEMENTS, &Counts::new(), 2, &clock, take_or_offer);
    expect_given(&rt, calls, &[ELEMENTS; 2]);
}
