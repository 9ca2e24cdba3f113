// Offers that wake no more calls than may take what is offered. The tests count the turns that the
// waits make.

use crate::tests::callers::{Caller, Counts, in_threads};
use crate::tests::fixtures::{await_more, expect_given};
use rb_blocking::{Clock, MachineClock};
use std::process::Abort;
use std::sync::Wait;
use std::sync::atomic::Ordering;
use std::thread::sleep;
use std::time;
use std::time::Duration;

// The number of elements that are offered one by one.
const ELEMENTS: u64 = 1_000;

// The number of calls that wait for elements that are due.
const TAKERS: u64 = 4;

// An hour, in nanoseconds.
const HOUR: u64 = 3_600_000_000_000;

// The length of a rest that nothing ends, in nanoseconds.
const REST: u64 = 20_000_000;

// The number of last rings of which a bell knows what they were for. A call that gets to its rest
// after more rings than that looks again.
const RECENT: u64 = 16;

// The work of thread `number`, if one thread takes. That takes one element. The other waits until
// it has found nothing, offers elements that expire in an hour, one after the other, and finally
// one that is due. Returns the number of calls that were answered.
fn take_or_offer_far_ahead<R: Wait + time::Clock + Abort>(
    rt: &R,
    caller: &mut Caller<'_>,
    clock: &MachineClock<'_, R>,
    number: usize,
) -> u64 {
    if number == 0 {
        let _ = caller.take(rt, clock, u64::MAX);
    } else {
        await_more(rt, &caller.counts.turns, 0);
        for _ in 0..ELEMENTS {
            caller.offer_ahead(rt, clock, HOUR);
            sleep(rt, Duration::from_micros(50));
        }
        caller.offer_ahead(rt, clock, 0);
    }
    caller.pass.calls()
}

// The work of thread `number`, if four threads take. Each takes a quarter of the elements. The last
// thread offers elements that are due, each once the one before has been taken and its taker has
// had time to rest again. Returns the number of calls that were answered.
fn take_or_offer_due<R: Wait + time::Clock + Abort>(
    rt: &R,
    caller: &mut Caller<'_>,
    clock: &MachineClock<'_, R>,
    number: usize,
) -> u64 {
    let taken = &caller.counts.taken;
    if number < TAKERS as usize {
        for _ in 0..ELEMENTS / TAKERS {
            let _ = caller.take(rt, clock, u64::MAX);
            taken.fetch_add(1, Ordering::SeqCst);
        }
    } else {
        for element in 0..ELEMENTS {
            caller.offer_ahead(rt, clock, 0);
            await_more(rt, taken, element);
            sleep(rt, Duration::from_millis(1));
        }
    }
    caller.pass.calls()
}

// Asserts that the waits of so many takers, which began when the clock was made, made at most
// `more` turns beside those that they may have made by themselves.
fn expect_few_turns<R: time::Clock + Abort>(
    rt: &R,
    counts: &Counts,
    clock: &MachineClock<'_, R>,
    takers: u64,
    more: u64,
) {
    let (turns, rests) = (counts.turns.load(Ordering::SeqCst), clock.now() / REST);
    let most = rests
        .saturating_add(2)
        .saturating_mul(takers)
        .saturating_add(more);
    assert!(rt; turns <= most, "{turns} turns, and not {most} at most");
}

#[test]
fn an_offer_of_what_expires_far_ahead_wakes_nobody(rt: HostRuntime) {
    let (clock, counts) = (MachineClock::new(&rt), Counts::new());
    let calls = in_threads(
        &rt,
        ELEMENTS + 2,
        &counts,
        2,
        &clock,
        take_or_offer_far_ahead,
    );
    expect_few_turns(&rt, &counts, &clock, 1, ELEMENTS / RECENT);
    expect_given(&rt, calls, &[1, ELEMENTS + 1]);
}

// Each take makes a turn when it finds nothing at first, and some make one more. If each offer woke
// all four takers, three of them would make one more each time.
#[test]
fn an_offer_of_what_is_due_wakes_one(rt: HostRuntime) {
    let (clock, counts) = (MachineClock::new(&rt), Counts::new());
    let calls = in_threads(&rt, 2 * ELEMENTS, &counts, 5, &clock, take_or_offer_due);
    expect_few_turns(&rt, &counts, &clock, TAKERS, 2 * ELEMENTS);
    expect_given(&rt, calls, &[250, 250, 250, 250, 1_000]);
}
