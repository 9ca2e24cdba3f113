// A bell by itself: its count, rests that a ring ends, and rests that nothing ends.

use crate::Bell;
use crate::tests::fixtures::{await_more, expect, expect_same, instant, is_given, since};
use std::process::Abort;
use std::sync::Wait;
use std::sync::atomic::{AtomicU64, Ordering};
use std::thread::{Threads, join, map_indices, sleep, yield_now};
use std::time::{Clock, Duration};

// The number of times that one thread rings after another's look at the count: before the other's
// rest or during it.
const ROUNDS: u64 = 10_000;

// The length of a rest that misses its ring, in seconds: as long as a test may take.
const MISSED: u64 = 60;

// The number of threads that rest at the same time, two for each place of a bell.
const CROWD: u64 = 32;

// The length of a rest in the crowd, in milliseconds.
const CROWDED: u64 = 100;

// A rest with no ring seen returns the count too.
#[test]
fn counts_its_rings(rt: HostRuntime) {
    let bell = &Bell::new();
    expect_same(&rt, (bell.count(&rt), bell.rest(&rt, 0)), (0, 0));
    bell.ring(&rt);
    expect_same(&rt, (bell.count(&rt), bell.rest(&rt, 0)), (1, 1));
}

// Rests in one thread and rings in another. `round` is the count before the ring. This rest may end
// before the ring; one that begins after it returns the new count.
fn expect_rung<R: Threads + Wait + Clock + Abort + Sync>(rt: &R, bell: &Bell, round: u64) {
    let (count, _) = join(rt, || bell.rest(rt, round), || bell.ring(rt));
    let rings = round.saturating_add(1);
    expect(rt, count == rings || count == round);
    expect_same(rt, bell.rest(rt, round), rings);
}

// The rest of one thread ends when another rings, whether before the rest or during it.
#[test]
fn a_ring_ends_a_rest(rt: HostRuntime) {
    let bell = &Bell::new();
    for round in 0..200 {
        expect_rung(&rt, bell, round);
    }
}

// The work of thread `number`: two rest, two rest like calls that wait for an element, and the last
// one rings once the others have had time to fall asleep. A thread that rests reads the count, and
// raises `looks` to tell that it is about to rest. Returns the count afterwards.
fn rest_or_ring<R: Wait + Clock>(rt: &R, bell: &Bell, looks: &AtomicU64, number: usize) -> u64 {
    if number == 4 {
        await_more(rt, looks, 3);
        sleep(rt, Duration::from_millis(20));
        bell.ring(rt);
        return bell.count(rt);
    }
    let seen = bell.count(rt);
    looks.fetch_add(1, Ordering::SeqCst);
    let missed = Duration::from_secs(MISSED);
    if number < 2 {
        bell.rest_at_most(rt, seen, missed)
    } else {
        bell.rest_until(rt, seen, u64::MAX, missed).count
    }
}

// The ring wakes each thread. None looks again only because its rest is over.
#[test]
fn one_ring_wakes_all(rt: HostRuntime) {
    let (bell, looks, start) = (&Bell::new(), &AtomicU64::new(0), instant(&rt));
    let counts = map_indices(
        &rt,
        rt.alloc(),
        5,
        &|number| rest_or_ring(&rt, bell, looks, number),
    );
    expect(&rt, is_given(counts, &[1; 5]));
    expect(&rt, since(&rt, start).as_secs() < MISSED / 2);
}

// Of five rests that nothing ends, the shortest counts.
#[test]
fn a_rest_lasts_about_20_milliseconds(rt: HostRuntime) {
    let bell = &Bell::new();
    let mut shortest = u128::MAX;
    for _ in 0..5 {
        let start = instant(&rt);
        bell.rest(&rt, 0);
        shortest = shortest.min(since(&rt, start).as_millis());
    }
    expect(&rt, shortest >= 20);
    expect(&rt, shortest < 60);
}

// Rests like a call that waits for an element, once all others are about to. Returns 1 if the rest was a whole one.
fn rest_in_a_crowd<R: Wait + Clock + Abort>(rt: &R, bell: &Bell, looks: &AtomicU64) -> u64 {
    looks.fetch_add(1, Ordering::SeqCst);
    await_more(rt, looks, CROWD - 1);
    let start = instant(rt);
    let rested = bell.rest_until(rt, 0, u64::MAX, Duration::from_millis(CROWDED));
    let is_whole = since(rt, start).as_millis() >= u128::from(CROWDED);
    u64::from(is_whole && !rested.is_woken())
}

#[test]
fn a_rest_lasts_at_every_place(rt: HostRuntime) {
    let (bell, looks) = (&Bell::new(), &AtomicU64::new(0));
    let whole = map_indices(&rt, rt.alloc(), 32, &|_| rest_in_a_crowd(&rt, bell, looks));
    expect(&rt, is_given(whole, &[1; 32]));
}

// Lets other threads run: a random number of times, at most seven.
fn dawdle(random: &mut u64) {
    *random = random
        .wrapping_mul(6_364_136_223_846_793_005)
        .wrapping_add(1_442_695_040_888_963_407);
    for _ in 0..*random >> 61 {
        yield_now();
    }
}

// The work of thread `number`, once per round: the first looks at the count and then rests. The
// other rings after that look. Returns the number of rests that saw a ring.
fn rest_or_ring_often<R: Wait + Clock>(
    rt: &R,
    bell: &Bell,
    looks: &AtomicU64,
    number: usize,
) -> u64 {
    let mut random = if number == 0 { 1 } else { 2 };
    let mut seen_rings: u64 = 0;
    for round in 0..ROUNDS {
        if number == 0 {
            let seen = bell.count(rt);
            looks.fetch_add(1, Ordering::SeqCst);
            dawdle(&mut random);
            let count = bell.rest_at_most(rt, seen, Duration::from_secs(MISSED));
            seen_rings = seen_rings.saturating_add(u64::from(count != seen));
        } else {
            await_more(rt, looks, round);
            dawdle(&mut random);
            bell.ring(rt);
        }
    }
    seen_rings
}

#[test]
fn a_ring_between_a_look_and_the_rest_is_seen(rt: HostRuntime) {
    let (bell, looks) = (&Bell::new(), &AtomicU64::new(0));
    let seen = map_indices(
        &rt,
        rt.alloc(),
        2,
        &|number| rest_or_ring_often(&rt, bell, looks, number),
    );
    expect(&rt, is_given(seen, &[ROUNDS, 0]));
    expect_same(&rt, bell.count(&rt), ROUNDS);
}
