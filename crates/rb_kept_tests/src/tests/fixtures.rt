// The values that the tests use, and comparisons of them. Comparisons are functions without
// clauses, so tests that call them have nothing to prove. What a function hands over by value, if
// only to `drop`, has no fields to be dropped in its own proof.

use rb_delayed::{Element, Payload};
use rb_kept::{Outcome, Step};
use rb_ledger::Totals;
use rb_queue::{Ask, DelayQueue, Draft, Opening, Reply};
use rb_timer::{Timer, TimerAnswer, TimerCommand, run_timer};
use std::alloc::Global;
use std::fmt::Debug;
use std::process::Abort;

pub fn payload(rt: &impl Abort, bytes: &[u8]) -> Payload {
    Payload::new(bytes).ok().expect(rt, "a payload")
}

/// Returns the element that a first offer becomes.
pub fn element(rt: &impl Abort, id: u64, expiry: u64, bytes: &[u8]) -> Element {
    Element {
        id,
        expiry,
        origin: id,
        first: expiry,
        attempt: 1,
        payload: payload(rt, bytes),
    }
}

/// Returns the ask of a first offer.
pub fn offer(rt: &impl Abort, expiry: u64, bytes: &[u8]) -> Ask {
    Ask::Offer(Draft::first(expiry, payload(rt, bytes)))
}

/// Returns the reply to a first offer.
pub fn offered(rt: &impl Abort, id: u64, expiry: u64, bytes: &[u8]) -> Reply {
    Reply::Offered(element(rt, id, expiry, bytes))
}

/// Returns the reply that gives out an element of a first offer.
pub fn item(rt: &impl Abort, id: u64, expiry: u64, bytes: &[u8]) -> Reply {
    Reply::Item(element(rt, id, expiry, bytes))
}

/// Returns the step of a try that was answered.
pub fn done(reply: Reply) -> Step {
    Ok(Outcome::Done(reply))
}

/// Returns the step of a try that would wait, where `next` is the least expiry, if there is one.
pub fn later(next: Option<u64>) -> Step {
    Ok(Outcome::Later(next))
}

/// Returns what was made. Asserts that it was.
pub fn expect_made<T, E: Drop>(rt: &impl Abort, made: Result<T, E>) -> T {
    made.ok().expect(rt, "what is made")
}

/// Appends a value. Asserts that there was memory for it.
pub fn push<V: Drop>(rt: &impl Abort, values: &mut Vec<V>, value: V) {
    expect_made(rt, values.push(value));
}

/// Inserts an entry at a slot. Returns false if there is no such slot or it is filled.
pub fn puts<T: Timer>(timer: &mut T, slot: usize, expiry: u64) -> bool {
    if timer.room() <= slot || timer.get(slot).is_some() {
        return false;
    }
    timer.insert(slot, expiry);
    true
}

/// Removes the entry at a slot. Returns whether there was one, and it expired at `expiry`.
pub fn takes<T: Timer>(timer: &mut T, slot: usize, expiry: u64) -> bool {
    if timer.get(slot).is_none() {
        return false;
    }
    timer.remove(slot) == expiry
}

/// Returns the answers of a timer that begins with `room` slots.
pub fn answers_of<T: Timer>(
    rt: &impl Abort,
    alloc: Global,
    room: usize,
    commands: &[TimerCommand],
) -> Vec<TimerAnswer> {
    let mut timer = T::new(alloc);
    expect_made(rt, timer.reserve(room));
    expect_made(rt, run_timer(alloc, &mut timer, commands))
}

pub fn expect(rt: &impl Abort, holds: bool, what: &str) {
    assert!(rt; holds, "{what}");
}

/// Asserts that two values are equal. Each comparison is made here, since each function that asserts
/// it by itself costs its proof.
pub fn expect_same<V: PartialEq + Debug + Drop>(rt: &impl Abort, found: V, wanted: V) {
    assert_eq!(rt; found, wanted);
}

pub fn expect_number(rt: &impl Abort, number: u64, wanted: u64) {
    expect_same(rt, number, wanted);
}

pub fn expect_moment(rt: &impl Abort, moment: Option<u64>, wanted: Option<u64>) {
    expect_same(rt, moment, wanted);
}

pub fn expect_entry(rt: &impl Abort, entry: Option<(usize, u64)>, wanted: Option<(usize, u64)>) {
    expect_same(rt, entry, wanted);
}

pub fn expect_element(rt: &impl Abort, element: &Element, wanted: &Element) {
    expect_same(rt, element, wanted);
}

pub fn expect_step(rt: &impl Abort, step: &Step, wanted: Step, asked: u64) {
    assert_eq!(rt; *step, wanted, "at {asked}");
}

pub fn expect_opening(rt: &impl Abort, opening: &Opening, wanted: &Opening) {
    expect_same(rt, opening, wanted);
}

/// Asserts the totals of calls, of elements offered and of elements given.
pub fn expect_totals(rt: &impl Abort, totals: Totals, wanted: [u64; 3]) {
    let [calls, offered, given] = wanted;
    let wanted = Totals {
        calls,
        offered,
        given,
    };
    expect_same(rt, totals, wanted);
}

/// Asserts that a queue can begin with an opening, with how many elements, and with which next id.
pub fn expect_begun<T: Timer>(
    rt: &impl Abort,
    alloc: Global,
    opening: &Opening,
    size: u64,
    next_id: u64,
) {
    let queue = expect_made(rt, DelayQueue::<T>::new_from(alloc, opening));
    expect_number(rt, queue.size(), size);
    expect_number(rt, queue.next_id(), next_id);
    drop(queue);
}
