use crate::tests::replay::devices::{
    Device, NEVER, expect_bytes, expect_read_again, expect_written, write_to,
};
use crate::tests::replay::fixtures::{EMPTY, NEXT_ID, history, next_run, second, two_seats};
use rb_replay::{
    History, HistoryFault, no_fault_of_text, no_text_of_two, one_fault, one_text_each,
};
use std::alloc::Global;
use std::process::Abort;

const EMPTY_RUN: &[u8] = b"history 3\nopen 0 0 0\nend 0\n";

const TWO_SEATS: &[u8] =
    b"history 3\nopen 0 0 0\n0 10 10 offer 0 10 0 10 1 a\n1 5 10 poll 0\n1 3 10 pollfor 3 4 none\n\
        0 11 11 size 0\nend 4\n";

const NEXT_RUN: &[u8] =
    b"history 3\nopen 2 0 1\nkeep 1 1000 0 0 2 a\n0 0 0 size 1\n0 1000 1000 poll 1\n\
        0 1000 1000 offer 2 1000 2 1000 1 b\nend 3\n";

// Asserts the answer of the call that writes the history, and what a device has received that takes
// at most `most` bytes at a time and fails at call `fails_at`.
fn written_as(
    rt: &impl Abort,
    alloc: Global,
    history: History,
    (most, fails_at): (usize, usize),
    answer: Result<(), HistoryFault>,
    text: &[u8],
) {
    let mut device = Device::new(alloc, most, fails_at);
    let ended = write_to(rt, alloc, history.opening(), history.events(), &mut device);
    expect_written(rt, ended, answer);
    expect_bytes(rt, &device.bytes, text);
}

#[test]
fn an_empty_run_is_written(rt: HostRuntime) {
    let alloc = rt.alloc();
    let run = history(&rt, alloc, EMPTY, &[]);
    written_as(&rt, alloc, run, (99, 99), Ok(()), EMPTY_RUN);
    one_text_each();
    no_text_of_two();
    no_fault_of_text();
    one_fault();
}

#[test]
fn runs_are_written(rt: HostRuntime) {
    let alloc = rt.alloc();
    let (first, second) = (first_run(&rt, alloc), second_run(&rt, alloc));
    written_as(&rt, alloc, first, (999, 99), Ok(()), TWO_SEATS);
    written_as(&rt, alloc, second, (7, 99), Ok(()), NEXT_RUN);
}

fn first_run(rt: &impl Abort, alloc: Global) -> History {
    history(rt, alloc, EMPTY, &two_seats(rt))
}

// Returns the history of a run that follows one in which a job failed once.
fn second_run(rt: &impl Abort, alloc: Global) -> History {
    history(rt, alloc, Some((&[second(rt)], NEXT_ID)), &next_run(rt))
}

#[test]
fn what_was_written_is_read(rt: HostRuntime) {
    let device = Device::new(rt.alloc(), 999, NEVER);
    expect_read_again(&rt, rt.alloc(), &second_run(&rt, rt.alloc()), device);
}

#[test]
fn a_device_that_fails_has_the_first_part(rt: HostRuntime) {
    let alloc = rt.alloc();
    for (most, fails_at, count) in [
        (999, 0, 0),
        (40, 2, 80),
        (999, 1, TWO_SEATS.len()),
        (0, 99, 0),
    ] {
        let text = TWO_SEATS.get(..count).unwrap_or_default();
        let (run, broken) = (first_run(&rt, alloc), Err(HistoryFault::Write));
        written_as(&rt, alloc, run, (most, fails_at), broken, text);
    }
}
