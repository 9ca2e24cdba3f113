// A history without room for another call.

use crate::tests::callers::{Caller, FixedClock, with_caller};
use crate::tests::fixtures::{element, expect_same};
use rb_blocking::WaitFault;
use rb_kept::CallFault;
use std::process::Abort;
use std::sync::Wait;
use std::time;

// Makes the two calls for which the history has room, and two more, which find the history full.
fn expect_answers<R: Wait + time::Clock + Abort>(rt: &R, caller: &mut Caller<'_>) {
    let clock = FixedClock(9);
    expect_same(rt, caller.offer(rt, 3, 9), Ok(element(rt, 0, 9)));
    let polled = Ok(Some(element(rt, 0, 9)));
    expect_same(rt, caller.poll(rt, &clock, 5, 3, 6), polled);
    expect_same(rt, caller.offer(rt, 9, 9), Err(CallFault::Full));
    expect_same(rt, caller.take(rt, &clock, 5), Err(WaitFault::Full));
    expect_same(rt, caller.pass.calls(), 2);
    expect_same(rt, caller.bell.count(rt), 1);
}

#[test]
fn answers_with_ample_memory(rt: HostRuntime) {
    with_caller(&rt, rt.alloc(), 2, expect_answers);
}
