// Deadlines at the greatest moment.

use crate::tests::callers::{Caller, FixedClock, with_caller};
use crate::tests::fixtures::expect_same;
use rb_blocking::WaitFault;
use std::process::Abort;
use std::sync::Wait;
use std::time;

// Polls with a timeout of 9 nanoseconds from the greatest moment on: before that moment, and at it.
// The gate allows one turn.
fn expect_polls<R: Wait + time::Clock + Abort>(rt: &R, caller: &mut Caller<'_>) {
    let before = FixedClock(u64::MAX - 1);
    let polled = caller.poll(rt, &before, 1, u64::MAX, 9);
    expect_same(rt, polled, Err(WaitFault::Stopped));
    let polled = caller.poll(rt, &FixedClock(u64::MAX), 1, u64::MAX, 9);
    expect_same(rt, polled, Ok(None));
    expect_same(rt, caller.pass.calls(), 1);
}

#[test]
fn waits_until_the_greatest_moment(rt: HostRuntime) {
    with_caller(&rt, rt.alloc(), 4, expect_polls);
}
