//! The totals of a run, and the shares that add up to them.

use super::fixtures::{expect_number, expect_totals};
use rb_ledger::{Books, GREATEST_COUNT, Tally};
use std::process::Abort;

// The three numbers of a `wanted` are those of calls, of elements offered and of elements given.

fn expect_share(rt: &impl Abort, tally: &Tally, wanted: [u64; 3]) {
    let [calls, offered, given] = wanted;
    expect_number(rt, tally.calls(), calls);
    expect_number(rt, tally.offered(), offered);
    expect_number(rt, tally.given(), given);
}

fn expect_whole(rt: &impl Abort, books: &Books, wanted: [u64; 3]) {
    let [calls, offered, given] = wanted;
    expect_number(rt, books.calls(), calls);
    expect_number(rt, books.offered(), offered);
    expect_number(rt, books.given(), given);
}

#[test]
fn a_call_is_in_the_books_and_in_its_share(rt: HostRuntime) {
    let (mut books, mut first) = Books::new();
    let mut second = first.split();
    books.note(&mut first, 1, 0);
    books.note(&mut second, 0, 3);
    books.note(&mut second, 2, 4);
    expect_share(&rt, &first, [1, 1, 0]);
    expect_share(&rt, &second, [2, 2, 7]);
    expect_whole(&rt, &books, [3, 3, 7]);
    first.join(second);
    expect_totals(&rt, first.totals(), [3, 3, 7]);
    expect_totals(&rt, books.totals(), [3, 3, 7]);
}

#[test]
fn counts_stay_at_the_greatest(rt: HostRuntime) {
    let (mut books, mut first) = Books::new();
    let mut second = first.split();
    books.note(&mut first, GREATEST_COUNT, GREATEST_COUNT - 1);
    books.note(&mut second, 1, 1);
    expect_whole(&rt, &books, [2, GREATEST_COUNT, GREATEST_COUNT]);
    books.note(&mut second, 0, 1);
    expect_whole(&rt, &books, [3, GREATEST_COUNT, GREATEST_COUNT]);
    first.join(second);
    expect_share(&rt, &first, [3, GREATEST_COUNT, GREATEST_COUNT]);
}
