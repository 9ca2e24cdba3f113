// Two threads, each with a pass of its own.

use crate::tests::callers::{Caller, Counts, in_threads};
use crate::tests::fixtures::expect_given;
use crate::tests::many_threads::expect_run;
use rb_queue::Ask;
use std::sync::Wait;

#[test]
fn one_offers_and_one_takes(rt: HostRuntime) {
    expect_run(&rt, rt.alloc(), 2, 1);
    expect_run(&rt, rt.alloc(), 2, 999);
}

// The work of each thread: takes that would wait, so that no event is made, and the lock is taken
// and given back. Returns the number of calls that were answered.
fn ask_often<R: Wait>(rt: &R, caller: &mut Caller<'_>, _scene: &(), _number: usize) -> u64 {
    for _ in 0..200_000 {
        let _ = caller.call(rt, 0, Ask::Take);
    }
    caller.pass.calls()
}

// Two threads want the lock all the time. One that finds it taken sleeps, and is woken.
#[test]
fn sleepers_are_woken(rt: HostRuntime) {
    let calls = in_threads(&rt, 1, &Counts::new(), 2, &(), ask_often);
    expect_given(&rt, calls, &[0, 0]);
}
