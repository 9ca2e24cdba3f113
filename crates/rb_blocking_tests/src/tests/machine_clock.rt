// Waits by the machine's clock, and readings of it.

use crate::tests::callers::{Caller, with_caller};
use crate::tests::fixtures::{expect, expect_same};
use rb_blocking::{Clock, MachineClock};
use std::process::Abort;
use std::sync::Wait;
use std::thread::sleep;
use std::time;
use std::time::Duration;

// Offers an element that expires `ahead` nanoseconds from now, and takes it. Asserts that it comes,
// and not before its expiry.
fn expect_on_time<R: Wait + time::Clock + Abort>(
    rt: &R,
    caller: &mut Caller<'_>,
    clock: &MachineClock<'_, R>,
    ahead: u64,
) {
    let expiry = clock.now().saturating_add(ahead);
    let offered = caller.offer(rt, 0, expiry).ok();
    let taken = caller.take(rt, clock, 1_000).ok();
    expect(rt, taken.is_some());
    expect_same(rt, taken, offered);
    expect(rt, clock.now() >= expiry);
}

fn expect_all_on_time<R: Wait + time::Clock + Abort>(rt: &R, caller: &mut Caller<'_>) {
    let clock = MachineClock::new(rt);
    for ahead in [0, 1, 1_000, 1_000_000, 30_000_000] {
        expect_on_time(rt, caller, &clock, ahead);
    }
    expect_same(rt, caller.pass.calls(), 10);
}

#[test]
fn takes_what_expires_ahead(rt: HostRuntime) {
    with_caller(&rt, rt.alloc(), 20, expect_all_on_time);
}

fn expect_given_up<R: Wait + time::Clock + Abort>(rt: &R, caller: &mut Caller<'_>) {
    let clock = MachineClock::new(rt);
    let start = clock.now();
    let timeout = 5_000_000;
    let polled = caller.poll(rt, &clock, 1_000, start, timeout);
    expect_same(rt, polled, Ok(None));
    expect(rt, clock.now() >= start.saturating_add(timeout));
    expect_same(rt, caller.pass.calls(), 1);
}

#[test]
fn gives_up_at_the_deadline(rt: HostRuntime) {
    with_caller(&rt, rt.alloc(), 20, expect_given_up);
}

// The clock is read twice, with a sleep in between, which nothing may end sooner. The sleep is
// longer than a second, after which some clocks begin again.
#[test]
fn goes_on_past_a_second(rt: HostRuntime) {
    let clock = MachineClock::new(&rt);
    let before = clock.now();
    sleep(&rt, Duration::from_millis(1_200));
    expect(&rt, clock.now().saturating_sub(before) / 1_000_000 >= 1_200);
}
