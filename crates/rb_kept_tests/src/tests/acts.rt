use super::fixtures::{element, expect, expect_number, expect_same};
use rb_queue::{Act, Ids};
use std::alloc::Global;
use std::process::Abort;

fn ids_of(rt: &impl Abort, alloc: Global, values: &[u64]) -> Ids {
    let values = values.to_vec(alloc);
    Ids::new(values.ok().expect(rt, "memory for numbers"))
}

// Asserts how many elements an act offered, gave and removed, and how many of seven it cleared.
fn expect_counts(rt: &impl Abort, act: Act, counts: [u64; 4]) {
    let [offered, given, removed, cleared] = counts;
    expect_number(rt, act.offered(), offered);
    expect_number(rt, act.given(), given);
    expect_number(rt, act.removed(), removed);
    expect_number(rt, act.cleared(7), cleared);
}

fn timed(got: Option<u64>) -> Act {
    let (start, timeout) = (3, 4);
    Act::PollFor {
        start,
        timeout,
        got,
    }
}

fn removal(found: bool) -> Act {
    Act::Remove { id: 0, found }
}

fn drain(rt: &impl Abort, alloc: Global, max: u64, ids: &[u64]) -> Act {
    Act::Drain {
        max,
        ids: ids_of(rt, alloc, ids),
    }
}

#[test]
fn what_each_act_counts(rt: HostRuntime) {
    expect_counts(&rt, Act::Offer(element(&rt, 0, 3, b"job")), [1, 0, 0, 0]);
    expect_counts(&rt, Act::Poll(Some(0)), [0, 1, 0, 0]);
    expect_counts(&rt, Act::Poll(None), [0, 0, 0, 0]);
    expect_counts(&rt, Act::Take(0), [0, 1, 0, 0]);
    expect_counts(&rt, timed(Some(0)), [0, 1, 0, 0]);
    expect_counts(&rt, timed(None), [0, 0, 0, 0]);
    expect_counts(&rt, Act::Peek(Some(0)), [0, 0, 0, 0]);
    expect_counts(&rt, Act::Peek(None), [0, 0, 0, 0]);
    expect_counts(&rt, removal(true), [0, 0, 1, 0]);
    expect_counts(&rt, removal(false), [0, 0, 0, 0]);
    expect_counts(&rt, Act::Clear, [0, 0, 0, 7]);
    expect_counts(&rt, Act::Size(1), [0, 0, 0, 0]);
    expect_counts(&rt, drain(&rt, rt.alloc(), 9, &[1, 2, 5]), [0, 3, 0, 0]);
    expect_counts(&rt, drain(&rt, rt.alloc(), 0, &[]), [0, 0, 0, 0]);
    expect_number(&rt, Act::Clear.cleared(0), 0);
}

const VALUES: &[u64] = &[4, 1, 1];

fn expect_sequence(rt: &impl Abort, ids: Ids) {
    expect_same(rt, ids.as_slice(), VALUES);
    expect_same(rt, ids.into_vec().as_slice(), VALUES);
}

// Asserts whether a sequence of these values is equal to that of `VALUES`.
fn expect_equality(rt: &impl Abort, alloc: Global, values: &[u64], are_equal: bool) {
    let equal = ids_of(rt, alloc, values) == ids_of(rt, alloc, VALUES);
    expect(rt, equal == are_equal, "whether two are equal");
}

#[test]
fn a_sequence_is_its_values_in_order(rt: HostRuntime) {
    expect_sequence(&rt, ids_of(&rt, rt.alloc(), VALUES));
    for (values, are_equal) in [
        ([4, 1, 1].as_slice(), true),
        ([1, 4, 1].as_slice(), false),
        ([4, 1].as_slice(), false),
        ([4, 1, 1, 0].as_slice(), false),
    ] {
        expect_equality(&rt, rt.alloc(), values, are_equal);
    }
}
