use super::fixtures::{
    element, expect, expect_begun, expect_made, expect_number, expect_same, push,
};
use rb_delayed::Element;
use rb_queue::{Items, Opening};
use rb_timer::ListTimer;
use std::alloc::Global;
use std::process::Abort;

fn expect_empty(rt: &impl Abort, opening: &Opening) {
    expect_number(rt, opening.next_id, 0);
    expect_number(rt, opening.last_at, 0);
    expect(rt, opening.elements.as_slice().is_empty(), "no element");
}

fn is_made_empty(alloc: Global, empty: Opening) -> bool {
    Opening::new(Items::new(Vec::new(alloc)), 0, 0) == Some(empty)
}

#[test]
fn an_empty_opening_begins_at_zero(rt: HostRuntime) {
    expect_empty(&rt, &Opening::empty(rt.alloc()));
    let is_made = is_made_empty(rt.alloc(), Opening::empty(rt.alloc()));
    expect(&rt, is_made, "the opening of no element");
}

// Returns elements with the ids and expiries of `entries`, in this order.
fn standing(rt: &impl Abort, alloc: Global, entries: &[(u64, u64)]) -> Items {
    let mut elements = Vec::new(alloc);
    for &(id, expiry) in entries {
        push(rt, &mut elements, element(rt, id, expiry, b"job"));
    }
    Items::new(elements)
}

// Asserts whether these elements and `next_id` make an opening. If so, it must hold what was given.
fn expect_opening(
    rt: &impl Abort,
    alloc: Global,
    entries: &[(u64, u64)],
    next_id: u64,
    is_opening: bool,
) {
    let made = Opening::new(standing(rt, alloc, entries), next_id, 40);
    expect(rt, made.is_some() == is_opening, "whether it is an opening");
    if let Some(opening) = made {
        expect_number(rt, opening.next_id, next_id);
        expect_number(rt, opening.last_at, 40);
        expect_same(rt, opening.elements, standing(rt, alloc, entries));
    }
}

#[test]
fn an_opening_has_rising_ids_below_the_next(rt: HostRuntime) {
    for (entries, next_id, is_opening) in [
        ([(0, 9), (2, 3)].as_slice(), 3, true),
        ([(0, 9), (2, 3)].as_slice(), 2, false),
        ([(0, 9), (2, 3)].as_slice(), 0, false),
        ([(1, 3), (0, 9)].as_slice(), 2, false),
        ([(1, 3), (1, 9)].as_slice(), 2, false),
        ([(0, 1), (2, 1), (1, 1)].as_slice(), 9, false),
        ([].as_slice(), 7, true),
        ([].as_slice(), 1_099_511_627_776, true),
        ([].as_slice(), 1_099_511_627_777, false),
        ([].as_slice(), u64::MAX, false),
        ([(1_099_511_627_775, 1)].as_slice(), 1_099_511_627_776, true),
        (
            [(1_099_511_627_776, 1)].as_slice(),
            1_099_511_627_777,
            false,
        ),
    ] {
        expect_opening(&rt, rt.alloc(), entries, next_id, is_opening);
    }
}

// Returns a million elements of one expiry, in the order of their ids, with room for one more.
fn million(rt: &impl Abort, alloc: Global) -> Vec<Element> {
    let mut elements = expect_made(rt, Vec::with_capacity(alloc, 1_000_001));
    for id in 0..1_000_000_u64 {
        push(rt, &mut elements, element(rt, id, 5, b"job"));
    }
    elements
}

// Asserts that a queue can begin with the most elements and the greatest next id. Returns the
// elements.
fn expect_most(rt: &impl Abort, alloc: Global, elements: Vec<Element>) -> Vec<Element> {
    let opening = Opening::new(Items::new(elements), 1_099_511_627_776, u64::MAX);
    let opening = opening.expect(rt, "an opening");
    expect_begun::<ListTimer>(rt, alloc, &opening, 1_000_000, 1_099_511_627_776);
    opening.elements.into_vec()
}

fn expect_too_many(rt: &impl Abort, elements: Vec<Element>) {
    let opening = Opening::new(Items::new(elements), 1_000_001, 0);
    expect(rt, opening.is_none(), "too many");
}

#[test]
fn an_opening_has_at_most_a_million_elements(rt: HostRuntime) {
    let mut elements = expect_most(&rt, rt.alloc(), million(&rt, rt.alloc()));
    push(&rt, &mut elements, element(&rt, 1_000_000, 5, b"job"));
    expect_too_many(&rt, elements);
}
