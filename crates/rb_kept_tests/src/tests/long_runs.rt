// A run of many tries in one call.

use super::fixtures::{done, expect_made, expect_number, expect_step, item, offer, offered, push};
use rb_kept::{Kept, Step, Try};
use rb_ledger::Tally;
use rb_queue::{Ask, Reply};
use rb_timer::{ListTimer, Timer};
use std::alloc::Global;
use std::process::Abort;

// The number of tries. Each odd one polls what the try before it has offered.
const LONG: u64 = 100_000;

fn try_in_turn(rt: &impl Abort, n: u64) -> Try {
    let ask = if n % 2 == 0 {
        offer(rt, n, b"a")
    } else {
        Ask::Poll
    };
    Try {
        seat: n,
        asked: n,
        ask,
    }
}

fn reply_in_turn(rt: &impl Abort, n: u64) -> Reply {
    if n % 2 == 0 {
        offered(rt, n / 2, n, b"a")
    } else {
        item(rt, n / 2, n - 1, b"a")
    }
}

fn tries_in_turn(rt: &impl Abort, alloc: Global) -> Vec<Try> {
    let mut tries = Vec::new(alloc);
    for n in 0..LONG {
        push(rt, &mut tries, try_in_turn(rt, n));
    }
    tries
}

fn expect_turns(rt: &impl Abort, steps: Vec<Step>) {
    let mut n = 0_u64;
    for step in &steps {
        expect_step(rt, step, done(reply_in_turn(rt, n)), n);
        n = n.saturating_add(1);
    }
    expect_number(rt, n, LONG);
    drop(steps);
}

fn expect_counts<T: Timer>(rt: &impl Abort, kept: &Kept<T>, tally: &Tally) {
    let audit = kept.audit();
    expect_number(rt, audit.calls, LONG);
    expect_number(rt, audit.left, 0);
    expect_number(rt, tally.calls(), LONG);
    expect_number(rt, tally.offered(), LONG / 2);
    expect_number(rt, tally.given(), LONG / 2);
    expect_number(rt, kept.history().len() as u64, LONG);
}

// Makes all tries in one run.
fn expect_run<T: Timer>(rt: &impl Abort, alloc: Global) {
    let (mut kept, mut tally) = expect_made(rt, Kept::<T>::new(alloc, LONG));
    let steps = kept.run_tries(&mut tally, tries_in_turn(rt, alloc));
    expect_turns(rt, expect_made(rt, steps));
    expect_counts(rt, &kept, &tally);
    drop(kept);
}

#[test]
fn a_run_has_many_thousands_of_tries(rt: HostRuntime) {
    expect_run::<ListTimer>(&rt, rt.alloc());
}
