use super::fixtures::{element, expect, expect_moment, expect_number, expect_same};
use rb_delayed::{Delayed, Element, GREATEST_MOMENT, add_capped, add_delay, is_expired};
use std::cmp::Ordering;
use std::process::Abort;

fn expect_delay(rt: &impl Abort, element: &Element, now: u64, wanted: i128) {
    expect_same(rt, element.delay(now), wanted);
}

fn expect_expired(rt: &impl Abort, element: &Element, now: u64, wanted: bool) {
    expect(
        rt,
        is_expired(element, now) == wanted,
        "whether it is expired",
    );
}

#[test]
fn a_delay_is_counted_from_a_moment(rt: HostRuntime) {
    let element = element(&rt, 3, 150, b"job");
    expect_number(&rt, element.id(), 3);
    expect_number(&rt, element.expiry(), 150);
    expect_delay(&rt, &element, 100, 50);
    expect_delay(&rt, &element, 150, 0);
    expect_delay(&rt, &element, u64::MAX, 150 - 18446744073709551615);
    expect_expired(&rt, &element, 0, false);
    expect_expired(&rt, &element, 149, false);
    expect_expired(&rt, &element, 150, true);
    expect_expired(&rt, &element, 151, true);
    expect_expired(&rt, &element, u64::MAX, true);
}

fn expect_order(rt: &impl Abort, one: &Element, other: &Element, wanted: Ordering) {
    expect_same(rt, one.delay_order(other), wanted);
}

#[test]
fn delays_are_ordered_as_expiries(rt: HostRuntime) {
    let first = element(&rt, 9, 10, b"job");
    let second = element(&rt, 1, 11, b"job");
    expect_order(&rt, &first, &second, Ordering::Less);
    expect_order(&rt, &second, &first, Ordering::Greater);
    expect_order(&rt, &first, &element(&rt, 2, 10, b"job"), Ordering::Equal);
}

#[test]
fn moments_end(rt: HostRuntime) {
    expect_moment(&rt, add_delay(100, 50), Some(150));
    expect_moment(&rt, add_delay(GREATEST_MOMENT, 0), Some(GREATEST_MOMENT));
    expect_moment(&rt, add_delay(GREATEST_MOMENT, 1), None);
    expect_number(&rt, add_capped(100, 50), 150);
    expect_number(&rt, add_capped(GREATEST_MOMENT - 1, 1), GREATEST_MOMENT);
    expect_number(&rt, add_capped(5, GREATEST_MOMENT), GREATEST_MOMENT);
}
