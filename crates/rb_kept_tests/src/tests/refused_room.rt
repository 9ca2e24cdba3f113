// Only the timer is refused memory, once: when the ninth element is offered to a queue, or by an
// opening of nine elements.

use super::fixtures::{expect, expect_begun, expect_number, expect_same};
use super::memory_refusals::{opening_of, run_through};
use super::queue_refusals::queue_refusals;
use super::refusing_timer::RefusingTimer;
use rb_kept::{Kept, NewFault};
use rb_queue::{DelayQueue, Opening};
use rb_timer::{ListTimer, Timer};
use std::alloc::Global;
use std::process::Abort;

type Refusing = RefusingTimer<ListTimer, 8>;

#[test]
fn an_offer_to_a_queue_refused_by_the_timer_changes_nothing(rt: HostRuntime) {
    let met = queue_refusals::<Refusing>(&rt, rt.alloc());
    expect_number(&rt, u64::from(met), 1);
}

fn is_refused<T: Timer>(alloc: Global, opening: &Opening) -> bool {
    DelayQueue::<T>::new_from(alloc, opening).err().is_some()
}

fn expect_refused(rt: &impl Abort, alloc: Global, opening: &Opening) {
    let is_refused = is_refused::<Refusing>(alloc, opening);
    expect(rt, is_refused, "a refused opening");
    expect_begun::<ListTimer>(rt, alloc, opening, 9, 9);
}

#[test]
fn an_opening_stays_where_the_timer_refuses(rt: HostRuntime) {
    expect_refused(&rt, rt.alloc(), &opening_of(&rt, rt.alloc(), 9));
}

#[test]
fn an_offer_refused_by_the_timer_changes_nothing(rt: HostRuntime) {
    let met = run_through::<Refusing>(&rt, rt.alloc());
    expect_number(&rt, u64::from(met), 1);
}

// Returns what is handed back: the opening with its fault, or nothing.
fn handed_back<T: Timer>(alloc: Global, opening: Opening) -> Option<(Opening, NewFault)> {
    Kept::<T>::new_from(alloc, 1, opening).err()
}

#[test]
fn an_opening_refused_by_the_timer_is_handed_back(rt: HostRuntime) {
    let refused = handed_back::<Refusing>(rt.alloc(), opening_of(&rt, rt.alloc(), 9));
    let opening = opening_of(&rt, rt.alloc(), 9);
    expect_same(&rt, refused, Some((opening, NewFault::Memory)));
}
