use crate::tests::replay::fixtures::{
    Deed, EMPTY, NEXT_ID, Row, Start, attempt, expect_read, first, history, next_run, one_retry,
    second, two_seats,
};
use rb_replay::read_history;
use std::alloc::Global;
use std::process::Abort;

// Asserts that the text is read as the history of `start` and `rows`.
fn read_as(rt: &impl Abort, alloc: Global, text: &[u8], start: Start<'_>, rows: &[Row]) {
    let wanted = Ok(history(rt, alloc, start, rows));
    expect_read(rt, read_history(alloc, text), wanted);
}

#[test]
fn first_texts_are_read(rt: HostRuntime) {
    let alloc = rt.alloc();
    read_as(&rt, alloc, b"history 1\nend 0\n", EMPTY, &[]);
    let text = b"history 1\n0 5 4 size 0\nend 1\n";
    read_as(&rt, alloc, text, EMPTY, &[(0, 5, 4, Deed::Size(0))]);
    let text =
        b"history 1\n0 10 10 offer 0 10 0 1 a\n1 5 10 poll 0\n1 3 10 pollfor 3 4 none\n0 11 11 size 0\nend 4\n";
    read_as(&rt, alloc, text, EMPTY, &two_seats(&rt));
}

#[test]
fn offers_of_first_texts_are_read(rt: HostRuntime) {
    let alloc = rt.alloc();
    let rows = [
        (0, 0, 0, Deed::Offer(first(&rt, 0, 10))),
        (0, 0, 0, Deed::PollFor(0, 0, None)),
    ];
    let text = b"history 1\n0 0 0 offer 0 10 0 1 a\n0 0 0 pollfor 0 0 none\nend 2\n";
    read_as(&rt, alloc, text, EMPTY, &rows);
    let rows = [
        (0, 0, 0, Deed::Offer(first(&rt, 0, 5))),
        (0, 0, 0, Deed::Offer(first(&rt, 1, 7))),
        (0, 10, 10, Deed::Poll(Some(1))),
    ];
    let text = b"history 1\n0 0 0 offer 0 5 0 1 a\n0 0 0 offer 1 7 1 1 b\n0 10 10 poll 1\nend 3\n";
    read_as(&rt, alloc, text, EMPTY, &rows);
}

#[test]
fn a_retry_is_read_in_each_version(rt: HostRuntime) {
    let alloc = rt.alloc();
    let rows = one_retry(&rt, second(&rt));
    let text = b"history 1\n0 0 0 offer 0 0 0 1 a\n0 0 0 poll 0\n0 0 0 offer 1 1000 0 2 a\nend 3\n";
    read_as(&rt, alloc, text, EMPTY, &rows);
    let text =
        b"history 3\nopen 0 0 0\n0 0 0 offer 0 0 0 0 1 a\n0 0 0 poll 0\n0 0 0 offer 1 1000 0 0 2 a\nend 3\n";
    read_as(&rt, alloc, text, EMPTY, &rows);
    let mut other = second(&rt);
    other.first = 1;
    let text =
        b"history 3\nopen 0 0 0\n0 0 0 offer 0 0 0 0 1 a\n0 0 0 poll 0\n0 0 0 offer 1 1000 0 1 2 a\nend 3\n";
    read_as(&rt, alloc, text, EMPTY, &one_retry(&rt, other));
}

// The acts that no other text of this file has.
#[test]
fn each_act_is_read(rt: HostRuntime) {
    let rows = [
        (0, 0, 0, Deed::Poll(None)),
        (0, 0, 0, Deed::Take(18_446_744_073_709_551_615)),
        (0, 0, 0, Deed::Peek(None)),
        (0, 0, 0, Deed::Peek(Some(3))),
        (0, 0, 0, Deed::Remove(3, false)),
        (0, 0, 0, Deed::Drain(9, [Some(4), Some(5), None])),
        (0, 0, 0, Deed::Drain(0, [None, None, None])),
        (0, 0, 0, Deed::Clear),
    ];
    let text = b"history 1\n0 0 0 poll none\n0 0 0 take 18446744073709551615\n0 0 0 peek none\n\
        0 0 0 peek 3\n0 0 0 remove 3 no\n0 0 0 drain 9 4 5\n0 0 0 drain 0\n0 0 0 clear\nend 8\n";
    read_as(&rt, rt.alloc(), text, EMPTY, &rows);
}

#[test]
fn an_opening_is_read(rt: HostRuntime) {
    let alloc = rt.alloc();
    let (kept, rows) = (second(&rt), next_run(&rt));
    let text = b"history 3\nopen 2 0 1\nkeep 1 1000 0 0 2 a\n0 0 0 size 1\n0 1000 1000 poll 1\n\
        0 1000 1000 offer 2 1000 2 1000 1 b\nend 3\n";
    read_as(&rt, alloc, text, Some((&[kept], NEXT_ID)), &rows);
    let text = b"history 2\nopen 2 0 1\nkeep 1 1000 0 2 a\n0 0 0 size 1\n0 1000 1000 poll 1\n\
        0 1000 1000 offer 2 1000 2 1 b\nend 3\n";
    let mut settled = second(&rt);
    settled.first = 1000;
    read_as(&rt, alloc, text, Some((&[settled], NEXT_ID)), &rows);
}

#[test]
fn the_greatest_next_id_is_read(rt: HostRuntime) {
    let next_id = 1_099_511_627_776;
    let mut element = first(&rt, 0, 0);
    element.id = next_id;
    element.origin = next_id;
    let rows = [(0, 0, 0, Deed::Offer(element))];
    let text =
        b"history 2\nopen 1099511627776 0 0\n0 0 0 offer 1099511627776 0 1099511627776 1 a\nend 1\n";
    read_as(&rt, rt.alloc(), text, Some((&[], next_id)), &rows);
}

#[test]
fn the_earliest_line_tells_the_first_expiry(rt: HostRuntime) {
    let text = b"history 2\nopen 9 0 3\nkeep 3 70 1 1 a\nkeep 4 60 2 1 a\nkeep 5 90 1 2 a\n\
        0 0 0 offer 9 50 1 3 a\n0 0 0 offer 10 40 10 1 b\n0 0 0 offer 11 30 10 2 b\nend 3\n";
    let kept = [
        attempt(&rt, [3, 70, 1, 70], 1, b"a"),
        attempt(&rt, [4, 60, 2, 60], 1, b"a"),
        attempt(&rt, [5, 90, 1, 70], 2, b"a"),
    ];
    let rows = [
        (0, 0, 0, Deed::Offer(attempt(&rt, [9, 50, 1, 70], 3, b"a"))),
        (
            0,
            0,
            0,
            Deed::Offer(attempt(&rt, [10, 40, 10, 40], 1, b"b")),
        ),
        (
            0,
            0,
            0,
            Deed::Offer(attempt(&rt, [11, 30, 10, 40], 2, b"b")),
        ),
    ];
    read_as(&rt, rt.alloc(), text, Some((&kept, 9)), &rows);
}
