use crate::tests::replay::fixtures::{
    Deed, EMPTY, NEXT_ID, Row, Start, expect_opening, first, history, one_retry, opened, opening,
    second,
};
use rb_queue::Opening;
use rb_replay::{OpeningFault, Reason};
use std::alloc::Global;
use std::process::Abort;

// Asserts with which opening a run begins where this one ends, or why none can.
fn leads_to(
    rt: &impl Abort,
    alloc: Global,
    start: Start<'_>,
    rows: &[Row],
    wanted: Result<Opening, OpeningFault>,
) {
    let history = history(rt, alloc, start, rows);
    expect_opening(rt, opened(rt, alloc, &history), wanted);
}

#[test]
fn a_run_begins_where_another_ended(rt: HostRuntime) {
    let alloc = rt.alloc();
    let retried = opening(&rt, alloc, Some((&[second(&rt)], NEXT_ID)));
    let rows = one_retry(&rt, second(&rt));
    leads_to(&rt, alloc, EMPTY, &rows, Ok(retried));
    let (index, reason) = (2, Reason::BadId);
    let fault = OpeningFault::At { index, reason };
    let rows = one_retry(&rt, first(&rt, 2, 5));
    leads_to(&rt, alloc, EMPTY, &rows, Err(fault));
}

#[test]
fn an_opening_has_its_limits(rt: HostRuntime) {
    let last = 1_099_511_627_776;
    let rows = [(0, 0, 0, Deed::Offer(first(&rt, last, 0)))];
    let start: Start<'_> = Some((&[], last));
    leads_to(&rt, rt.alloc(), start, &rows, Err(OpeningFault::TooLarge));
}
