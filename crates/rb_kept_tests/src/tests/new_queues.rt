// A new kept queue, and a run of it that ends each way in which a try may end.

use super::fixtures::{
    done, expect, expect_made, expect_number, expect_same, expect_step, expect_totals, item, later,
    offer, offered, push,
};
use rb_kept::{CallFault, Kept, NewFault, Step, Try};
use rb_queue::{Ask, Audit, Event, Reply};
use rb_timer::{ListTimer, Timer};
use std::alloc::Global;
use std::process::Abort;

fn expect_bad_capacity<T: Timer>(rt: &impl Abort, alloc: Global, capacity: u64) {
    let fault = Kept::<T>::new(alloc, capacity).err();
    expect_same(rt, fault, Some(NewFault::BadCapacity));
}

fn expect_begun<T: Timer>(rt: &impl Abort, alloc: Global, capacity: u64) {
    let (kept, tally) = expect_made(rt, Kept::<T>::new(alloc, capacity));
    expect(rt, kept.history().is_empty(), "an empty history");
    expect_number(rt, kept.capacity(), capacity);
    expect_totals(rt, tally.totals(), [0, 0, 0]);
    drop(kept);
}

#[test]
fn a_queue_begins_with_its_room_and_nothing_else(rt: HostRuntime) {
    for capacity in [0, 1_000_001, u64::MAX] {
        expect_bad_capacity::<ListTimer>(&rt, rt.alloc(), capacity);
    }
    for capacity in [1, 4, 1_000_000] {
        expect_begun::<ListTimer>(&rt, rt.alloc(), capacity);
    }
}

// Returns six tries, each with its seat and the moment that it asks for.
fn tries(rt: &impl Abort, alloc: Global) -> Vec<Try> {
    let mut tries = Vec::new(alloc);
    let timed = Ask::PollFor {
        start: 3,
        timeout: 4,
    };
    for (seat, asked, ask) in [
        (0, 10, offer(rt, 10, b"a")),
        (1, 5, Ask::Poll),
        (1, 3, timed),
        (0, 11, Ask::Take),
        (0, 11, Ask::Size),
        (0, 12, Ask::Size),
    ] {
        push(rt, &mut tries, Try { seat, asked, ask });
    }
    tries
}

// Returns the step of the try at `place`. The take would wait, and the last try finds the queue
// full.
fn step(rt: &impl Abort, place: u64) -> Step {
    match place {
        0 => done(offered(rt, 0, 10, b"a")),
        1 => done(item(rt, 0, 10, b"a")),
        2 => done(Reply::Nothing),
        3 => later(None),
        4 => done(Reply::Size(0)),
        _ => Err(CallFault::Full),
    }
}

fn expect_steps(rt: &impl Abort, steps: Vec<Step>) {
    let mut place = 0_u64;
    for found in &steps {
        expect_step(rt, found, step(rt, place), place);
        place = place.saturating_add(1);
    }
    expect_number(rt, place, 6);
    drop(steps);
}

fn expect_moments(rt: &impl Abort, history: &[Event], wanted: &[u64]) {
    expect_number(rt, history.len() as u64, wanted.len() as u64);
    for (event, &moment) in history.iter().zip(wanted) {
        expect_number(rt, event.at, moment);
    }
}

fn expect_run<T: Timer>(rt: &impl Abort, alloc: Global) {
    let (mut kept, mut tally) = expect_made(rt, Kept::<T>::new(alloc, 4));
    let steps = kept.run_tries(&mut tally, tries(rt, alloc));
    expect_steps(rt, expect_made(rt, steps));
    expect_moments(rt, kept.history(), &[10, 10, 10, 11]);
    let audit = Audit {
        calls: 4,
        offered: 1,
        given: 1,
        removed: 0,
        cleared: 0,
        left: 0,
        opening: 0,
    };
    expect_same(rt, kept.audit(), audit);
    expect_totals(rt, tally.totals(), [4, 1, 1]);
    drop(kept);
}

#[test]
fn one_run_answers_each_of_its_tries(rt: HostRuntime) {
    expect_run::<ListTimer>(&rt, rt.alloc());
}
