// Waiting calls that rest, and what wakes them. A rest that misses its wake lasts longer than a
// test may.

use crate::Bell;
use crate::tests::fixtures::{await_more, expect, expect_same};
use std::process::Abort;
use std::sync::Wait;
use std::sync::atomic::{AtomicU64, Ordering};
use std::thread::{Threads, join, map_indices, yield_now};
use std::time::{Clock, Duration};

// The length of a rest that misses its wake, in seconds.
const MISSED: u64 = 60;

// The number of things that each of eight threads gives, and that each of eight others takes.
const THINGS: u64 = 12_500;

// Reads the count, raises `looks`, and rests like a call that looks again at moment 10. Then raises
// `ends`. Returns whether the rest was woken.
fn rest_once<R: Wait + Clock>(rt: &R, bell: &Bell, looks: &AtomicU64, ends: &AtomicU64) -> bool {
    let seen = bell.count(rt);
    looks.fetch_add(1, Ordering::SeqCst);
    let rested = bell.rest_until(rt, seen, 10, Duration::from_secs(MISSED));
    ends.fetch_add(1, Ordering::SeqCst);
    rested.is_woken()
}

// Wakes like a call that was woken, found 9 as the least expiry, and gives up. Does so again and
// again until the rest of the other thread is over.
fn wake_often<R: Wait>(rt: &R, bell: &Bell, ends: &AtomicU64) {
    for _ in rt.forever() {
        if ends.load(Ordering::SeqCst) > 0 {
            return;
        }
        bell.wake_one(rt, 9);
        yield_now();
    }
}

// A wake is no ring: the count stays.
fn expect_woken<R: Threads + Wait + Clock + Abort + Sync>(rt: &R) {
    let (bell, looks, ends) = (&Bell::new(), &AtomicU64::new(0), &AtomicU64::new(0));
    let (woken, _) = join(
        rt,
        || rest_once(rt, bell, looks, ends),
        || wake_often(rt, bell, ends),
    );
    expect(rt, woken);
    expect_same(rt, bell.count(rt), 0);
}

#[test]
fn one_that_gives_up_wakes_another(rt: HostRuntime) {
    expect_woken(&rt);
}

// Announces an element that expires at moment 9, once the other thread has read the count.
fn announce_behind<R: Wait>(rt: &R, bell: &Bell, looks: &AtomicU64) {
    await_more(rt, looks, 0);
    bell.announce(rt, 9);
}

// Reads the count and rests in one thread, and announces an element in another. Asserts that the
// rest has ended and that the bell has rung once.
fn expect_announced<R: Threads + Wait + Clock + Abort + Sync>(rt: &R) {
    let (bell, looks, ends) = (&Bell::new(), &AtomicU64::new(0), &AtomicU64::new(0));
    let _ = join(
        rt,
        || rest_once(rt, bell, looks, ends),
        || announce_behind(rt, bell, looks),
    );
    expect_same(rt, ends.load(Ordering::SeqCst), 1);
    expect_same(rt, bell.count(rt), 1);
}

#[test]
fn an_offer_ends_a_rest(rt: HostRuntime) {
    for _ in 0..200 {
        expect_announced(&rt);
    }
}

// Takes one thing, and rests while there is none.
fn take_thing<R: Wait + Clock>(rt: &R, bell: &Bell, things: &AtomicU64) {
    let mut seen = bell.count(rt);
    for _ in rt.forever() {
        let taken = things.fetch_update(Ordering::SeqCst, Ordering::SeqCst, |n| n.checked_sub(1));
        if taken.is_ok() {
            return;
        }
        let rested = bell.rest_until(rt, seen, u64::MAX, Duration::from_secs(MISSED));
        seen = rested.count;
    }
}

// The work of thread `number`: even ones give, odd ones take. Returns the number of things that it
// gave or took.
fn give_or_take<R: Wait + Clock>(rt: &R, bell: &Bell, things: &AtomicU64, number: usize) -> u64 {
    for _ in 0..THINGS {
        if number % 2 == 0 {
            things.fetch_add(1, Ordering::SeqCst);
            bell.announce(rt, 0);
        } else {
            take_thing(rt, bell, things);
        }
    }
    THINGS
}

// Eight threads give and eight take. If a wake were lost, a taker would rest too long.
#[test]
fn no_wake_is_lost_among_many(rt: HostRuntime) {
    let (bell, things) = (&Bell::new(), &AtomicU64::new(0));
    let numbers = map_indices(
        &rt,
        rt.alloc(),
        16,
        &|number| give_or_take(&rt, bell, things, number),
    );
    expect(&rt, numbers.is_ok());
    expect_same(&rt, things.load(Ordering::SeqCst), 0);
    expect_same(&rt, bell.count(&rt), 8 * THINGS);
}
