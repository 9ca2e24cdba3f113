// Threads that offer, and as many that take. Nothing is lost and nothing doubled, and each seat has
// exactly the calls that its thread made.

ghost use Rattle.std.specs.Prelude.{◌≡◌, ◌<◌};
ghost use Rattle.std.specs.Thread.{IsSync};

use crate::tests::fixtures::{all_given, expect_closed, expect_opened, expect_same, offer};
use rb_binary::BinaryTimer;
use rb_kept::Outcome;
use rb_lock::{Pass, Shared};
use rb_queue::{Ask, Audit, Event};
use std::alloc::Global;
use std::process::Abort;
use std::sync::Wait;
use std::thread::{Threads, join};

pub(super) type HeapShared = Shared<BinaryTimer>;

pub(super) type HeapPass = Pass<BinaryTimer>;

// The number of elements that go through the queue in each run.
const ELEMENTS: u64 = 100_000;

// The room for the calls of a run: an offer and a take of each element.
const ROOM: u64 = 2 * ELEMENTS;

// Offers an element that is expired at once.
fn offer_one<R: Wait + Abort>(rt: &R, shared: &HeapShared, pass: &mut HeapPass)
    requires { pass.old.table ≡ shared.now }
    ensures { pass.new.table ≡ pass.old.table }
{
    let _ = shared.call(rt, pass, 9, offer(rt, 9));
}

// Offers `count` such elements. Returns the pass.
fn offer_all<R: Wait + Abort>(
    rt: &R,
    shared: &HeapShared,
    mut pass: HeapPass,
    count: u64,
) -> HeapPass
    requires { pass.table ≡ shared.now }
    ensures { result.table ≡ pass.table }
{
    for _ in 0..count {
        offer_one(rt, shared, &mut pass);
    }
    pass
}

// Takes an element if one is expired. Returns whether one was.
fn has_taken(rt: &impl Wait, shared: &HeapShared, pass: &mut HeapPass) -> bool
    requires { pass.old.table ≡ shared.now }
    ensures { pass.new.table ≡ pass.old.table }
{
    let outcome = shared.call(rt, pass, 9, Ask::Take);
    matches!(outcome, Ok(Outcome::Done(_)))
}

// Takes `wanted` elements, and tries again whenever nothing is expired. Returns the pass.
fn take_all(rt: &impl Wait, shared: &HeapShared, mut pass: HeapPass, mut wanted: u64) -> HeapPass
    requires { pass.table ≡ shared.now }
    ensures { result.table ≡ pass.table }
{
    for _ in rt.forever() {
        if wanted == 0 {
            break;
        }
        if has_taken(rt, shared, &mut pass) {
            wanted -= 1;
        }
    }
    pass
}

// Splits a further pass off, for another thread.
fn another<R: Wait + Abort>(rt: &R, shared: &HeapShared, pass: &mut HeapPass) -> HeapPass
    requires { pass.old.table ≡ shared.now }
    ensures first { pass.new.table ≡ pass.old.table }
    ensures second { result.table ≡ pass.old.table }
{
    shared.split(rt, pass).ok().expect(rt, "a name is left")
}

// Runs so many threads, a power of two. By its number, which counts from `number` on, each second
// one offers `count` elements, and the others take as many. Then their passes meet, and are folded
// into the first one, which is returned.
#[cycle(threads)]
fn run<R: Threads + Wait + Abort + Sync>(
    rt: &R,
    shared: &HeapShared,
    mut pass: HeapPass,
    number: u64,
    threads: u64,
    count: u64,
) -> HeapPass
    requires { pass.table ≡ shared.now }
    ensures { result.table ≡ shared.now }
{
    let half = threads / 2;
    if half == 0 {
        return offer_or_take(rt, shared, pass, number, count);
    }
    let other = another(rt, shared, &mut pass);
    let next = number.saturating_add(half);
    let front = move || -> HeapPass
        requires { IsSync R.row × (0 < half) × (pass.table ≡ shared.now) }
        ensures { result.table ≡ shared.entry.now }
    { run(rt, shared, pass, number, half, count) };
    let back = move || -> HeapPass
        requires { IsSync R.row × (0 < half) × (other.table ≡ shared.now) }
        ensures { result.table ≡ shared.entry.now }
    { run(rt, shared, other, next, half, count) };
    let (mut pass, mut other) = join(rt, front, back);
    shared.meet(&mut pass, &mut other);
    shared.fold(&mut pass, other);
    pass
}

// The work of thread `number`.
fn offer_or_take<R: Wait + Abort>(
    rt: &R,
    shared: &HeapShared,
    pass: HeapPass,
    number: u64,
    count: u64,
) -> HeapPass
    requires { pass.table ≡ shared.now }
    ensures { result.table ≡ pass.table }
{
    if number % 2 == 0 {
        offer_all(rt, shared, pass, count)
    } else {
        take_all(rt, shared, pass, count)
    }
}

// Returns the number of events that seat `seat` has.
fn events_of(history: &[Event], seat: u64) -> u64 {
    history.iter().filter(|event| event.seat == seat).count() as u64
}

// Asserts that `seats` seats each made `count` calls, and that no element is left.
fn expect_shares(rt: &impl Abort, history: &[Event], audit: Audit, seats: u64, count: u64) {
    let calls = seats.saturating_mul(count);
    expect_same(rt, audit, all_given(calls, calls / 2));
    for seat in 0..seats {
        expect_same(rt, events_of(history, seat), count);
    }
}

// Closes the queue with the pass into which all others are folded. Asserts that `seats` seats each
// made `count` calls, and that no element is left.
fn expect_calls<R: Wait + Abort>(
    rt: &R,
    shared: HeapShared,
    folded: HeapPass,
    seats: u64,
    count: u64,
)
    requires { folded.table ≡ shared }
{
    let (kept, _, audit) = expect_closed(rt, shared, folded);
    expect_shares(rt, kept.history(), audit, seats, count);
}

// Has so many threads, a power of two, offer and take `count` elements each.
pub(super) fn expect_run<R: Threads + Wait + Abort + Sync>(
    rt: &R,
    alloc: Global,
    threads: u64,
    count: u64,
) {
    let (shared, first) = expect_opened(rt, alloc, ROOM);
    let folded = run(rt, &shared, first, 0, threads, count);
    expect_calls(rt, shared, folded, threads, count);
}

#[test]
fn one_pair_loses_nothing(rt: HostRuntime) {
    expect_run(&rt, rt.alloc(), 2, ELEMENTS);
}

#[test]
fn two_pairs_lose_nothing(rt: HostRuntime) {
    expect_run(&rt, rt.alloc(), 4, ELEMENTS / 2);
}

#[test]
fn four_pairs_lose_nothing(rt: HostRuntime) {
    expect_run(&rt, rt.alloc(), 8, ELEMENTS / 4);
}
