// A taker that its gate stops as soon as it is woken, beside a second taker that waits on.

use crate::tests::callers::{Caller, Counts, FixedClock, SOON, in_threads};
use crate::tests::fixtures::{await_more, element, expect, expect_given, expect_same};
use rb_blocking::{Clock as _, MachineClock, WaitFault};
use std::process::Abort;
use std::sync::Wait;
use std::sync::atomic::{AtomicU64, Ordering};
use std::thread::sleep;
use std::time::{Clock, Duration};

// When the offer began by the machine's clock, and how late the second taker got its element at
// best, in nanoseconds.
#[derive(Drop)]
struct Times<'a, R: Clock> {
    watch: MachineClock<'a, R>,
    offered: AtomicU64,
    least: AtomicU64,
}

// The work of thread `number`. The first takes by a clock that stands at 7, at which nothing is
// due; the wait has one turn. The second takes by a clock that stands at 10, at which the offered
// element is due; its wait begins after that of the first. The third offers an element that expires
// at 10, once both takers have had time to fall asleep. Returns the number of calls that were
// answered.
fn take_or_offer<R: Wait + Clock + Abort>(
    rt: &R,
    caller: &mut Caller<'_>,
    times: &Times<'_, R>,
    number: usize,
) -> u64 {
    if number == 0 {
        let taken = caller.take(rt, &FixedClock(7), 1);
        expect_same(rt, taken, Err(WaitFault::Stopped));
    } else if number == 1 {
        await_more(rt, &caller.counts.waits, 0);
        let taken = caller.take(rt, &FixedClock(10), u64::MAX);
        let offered = times.offered.load(Ordering::SeqCst);
        let late = times.watch.now().saturating_sub(offered);
        times.least.fetch_min(late, Ordering::SeqCst);
        expect_same(rt, taken, Ok(element(rt, 0, 10)));
    } else {
        await_more(rt, &caller.counts.waits, 1);
        sleep(rt, Duration::from_millis(2));
        times.offered.store(times.watch.now(), Ordering::SeqCst);
        let _ = caller.offer(rt, 7, 10);
    }
    caller.pass.calls()
}

// If nothing were handed on to the second taker, it would look again about 18 ms after the offer.
#[test]
fn what_one_was_woken_for_another_takes_soon(rt: HostRuntime) {
    let times = Times {
        watch: MachineClock::new(&rt),
        offered: AtomicU64::new(0),
        least: AtomicU64::new(u64::MAX),
    };
    for _ in 0..5 {
        let calls = in_threads(&rt, 2, &Counts::new(), 3, &times, take_or_offer);
        expect_given(&rt, calls, &[0, 1, 1]);
    }
    expect(&rt, times.least.load(Ordering::SeqCst) < SOON);
}
