//! Histories with enough events, elements and bytes to make each array and map grow many times.
//!
//! A run has 1,000 rounds of 100 events. Each number in it follows from its round, from 0, and its
//! place in the round, from 0 to 99. It has the same number of digits in each round, except for
//! attempts and sizes.

use crate::tests::fixtures::{expect_made, push};
use crate::tests::replay::devices::{Device, NEVER, expect, expect_count, expect_read_again};
use crate::tests::replay::fixtures::{
    Deed, EMPTY, Start, attempt, checked, expect_audit, expect_linked, expect_opening, history_of,
    is_read_as, linked, opened, opening, opening_at, push_row,
};
use rb_delayed::Element;
use rb_queue::{Act, Audit, Event, Ids, Items, Opening};
use rb_replay::{ChainFault, ChainReason, History, OpeningFault, Reason, ReplayFault};
use rb_retry::Policy;
use std::alloc::Global;
use std::fmt::Write;
use std::process::Abort;

const ROUNDS: u64 = 1_000;

// The round that ends in a clear: the 500th.
const CLEARED_ROUND: u64 = 499;

const FIRST_ID: u64 = 100_000;

// A round offers 50 elements. Of these, 10 are given, 10 are removed, and 30 are left.
const OFFERS_A_ROUND: u64 = 50;

const LEFT_A_ROUND: u64 = 30;

// Returns the moment at which a round begins.
fn begin(round: u64) -> u64 {
    1_000_000_u64.saturating_add(round.saturating_mul(1_000))
}

// Returns the id of the element that is offered at `place`, 0 to 49.
fn id(round: u64, place: u64) -> u64 {
    FIRST_ID
        .saturating_add(round.saturating_mul(OFFERS_A_ROUND))
        .saturating_add(place)
}

// Returns the expiry of what is offered at `place`. It is 10 nanoseconds after the start of the
// round for the retry, 1 to 9 for what else is given, and 30 to 39 for what is removed. For what is
// left it is a moment after the run.
fn expiry(round: u64, place: u64) -> u64 {
    match place {
        0 => begin(round).saturating_add(10),
        1..=9 => begin(round).saturating_add(place),
        10..=19 => begin(round).saturating_add(place).saturating_add(20),
        _ => 2_000_000_u64.saturating_add(id(round, place)),
    }
}

// Returns the element that is offered at `place`. At place 0 it is an attempt of one job that all
// rounds share. This job fails at the start of each round but the first, and its next attempt
// expires 10 nanoseconds later.
fn offered(rt: &impl Abort, round: u64, place: u64) -> Element {
    let retry = place == 0;
    let begun = if retry { 0 } else { round };
    let number = if retry { round.saturating_add(1) } else { 1 };
    let bytes: &[u8] = if retry { b"again" } else { b"j" };
    let (origin, first) = (id(begun, place), expiry(begun, place));
    let expiry = expiry(round, place);
    attempt(rt, [id(round, place), expiry, origin, first], number, bytes)
}

// Returns the number of elements that are left of the rounds up to `round`, or, after the clear, of
// the rounds since it.
fn left(round: u64) -> u64 {
    let rounds = if round > CLEARED_ROUND {
        round.saturating_sub(CLEARED_ROUND)
    } else {
        round.saturating_add(1)
    };
    rounds.saturating_mul(LEFT_A_ROUND)
}

// Returns the id of the element of least expiry among those that are left.
fn least_left(round: u64) -> u64 {
    if round > CLEARED_ROUND {
        id(CLEARED_ROUND.saturating_add(1), 20)
    } else {
        id(0, 20)
    }
}

// Returns the act at `place`, 50 to 60, which gives, shows or counts.
fn giving(round: u64, place: u64) -> Deed {
    let begin = begin(round);
    match place {
        50 => Deed::Peek(Some(id(round, 1))),
        51 => Deed::Poll(None),
        52 => Deed::Poll(Some(id(round, 1))),
        53 => Deed::Take(id(round, 2)),
        54 => Deed::PollFor(begin, 3, Some(id(round, 3))),
        55 => Deed::PollFor(begin.saturating_add(3), 0, None),
        56 => Deed::Drain(
            9,
            [Some(id(round, 4)), Some(id(round, 5)), Some(id(round, 6))],
        ),
        57 => Deed::Drain(2, [Some(id(round, 7)), Some(id(round, 8)), None]),
        58 => Deed::Poll(Some(id(round, 9))),
        59 => Deed::Size(left(round).saturating_add(11)),
        _ => Deed::Take(id(round, 0)),
    }
}

// Returns the act at `place`, 61 to 99, which removes, shows or counts. At place 99 it clears in
// the round that ends in a clear, and drains nothing in any other.
fn closing(round: u64, place: u64) -> Deed {
    match place {
        61..=70 => Deed::Remove(id(round, place.saturating_sub(51)), true),
        71..=80 => Deed::Remove(id(round, place.saturating_sub(61)), false),
        81 => Deed::Peek(Some(least_left(round))),
        82..=98 => Deed::Size(left(round)),
        _ if round == CLEARED_ROUND => Deed::Clear,
        _ => Deed::Drain(0, [None, None, None]),
    }
}

// Returns the moment that the event at `place` asked for, in nanoseconds after the start of the
// round.
fn asked(place: u64) -> u64 {
    match place {
        0..=51 => 0,
        52 | 55 => 1,
        53 => 2,
        54 => 3,
        56 => 6,
        57..=59 => 9,
        _ => 10,
    }
}

// Returns the moment at which the event at `place` took place, in nanoseconds after the start of
// the round. At place 55 the moment asked for has already passed.
fn took_place(place: u64) -> u64 {
    if place == 55 { 3 } else { asked(place) }
}

fn deed(rt: &impl Abort, round: u64, place: u64) -> Deed {
    match place {
        0..=49 => Deed::Offer(offered(rt, round, place)),
        50..=60 => giving(round, place),
        _ => closing(round, place),
    }
}

fn push_round(rt: &impl Abort, alloc: Global, events: &mut Vec<Event>, round: u64) {
    for place in 0..100 {
        let asked = begin(round).saturating_add(asked(place));
        let at = begin(round).saturating_add(took_place(place));
        let deed = deed(rt, round, place);
        push_row(rt, alloc, events, (place % 10, asked, at, deed));
    }
}

fn rounds(rt: &impl Abort, alloc: Global, count: u64) -> Vec<Event> {
    let mut events = Vec::new(alloc);
    for round in 0..count {
        push_round(rt, alloc, &mut events, round);
    }
    events
}

// Returns the history of `events` after the opening of all rounds.
fn run_of(rt: &impl Abort, alloc: Global, events: Vec<Event>) -> History {
    history_of(rt, opening(rt, alloc, Some((&[], FIRST_ID))), events)
}

// Returns the history of the first `count` rounds.
fn run(rt: &impl Abort, alloc: Global, count: u64) -> History {
    run_of(rt, alloc, rounds(rt, alloc, count))
}

// Appends the elements that are left of a round.
fn push_left(rt: &impl Abort, elements: &mut Vec<Element>, round: u64) {
    for place in 20..OFFERS_A_ROUND {
        push(rt, elements, offered(rt, round, place));
    }
}

// Returns what is left of the rounds after the clear, in the order of ids and of expiries.
fn all_left(rt: &impl Abort, alloc: Global) -> Items {
    let mut elements = Vec::new(alloc);
    for round in CLEARED_ROUND.saturating_add(1)..ROUNDS {
        push_left(rt, &mut elements, round);
    }
    Items::new(elements)
}

// Returns the opening that all rounds lead to. The last round ends 10 nanoseconds after it begins.
fn end(rt: &impl Abort, alloc: Global) -> Opening {
    opening_at(rt, all_left(rt, alloc), id(ROUNDS, 0), 1_999_010)
}

// A moment at which everything that is left is expired.
const EXPIRED: u64 = 2_200_000;

// Returns the history of a run that polls each of the elements that stand at its start.
fn polls(rt: &impl Abort, alloc: Global, opening: Opening) -> History {
    let polls = polls_of(rt, alloc, opening.elements.as_slice());
    history_of(rt, opening, polls)
}

fn polls_of(rt: &impl Abort, alloc: Global, elements: &[Element]) -> Vec<Event> {
    let mut events = Vec::new(alloc);
    for element in elements {
        let deed = Deed::Poll(Some(element.id));
        push_row(rt, alloc, &mut events, (0, EXPIRED, EXPIRED, deed));
    }
    events
}

// Asserts that the text of the history has `bytes` bytes, and that the history is read from it.
fn is_written_and_read(rt: &impl Abort, alloc: Global, history: &History, bytes: usize) {
    let device = Device::new(alloc, NEVER, NEVER);
    let (written, _) = expect_read_again(rt, alloc, history, device);
    expect_count(rt, written, bytes);
}

// Asserts that each call accepts the history, and that a run that begins where it ends has the
// opening `end`.
fn passes(
    rt: &impl Abort,
    alloc: Global,
    history: History,
    bytes: usize,
    audit: Audit,
    end: Opening,
) {
    is_written_and_read(rt, alloc, &history, bytes);
    expect_audit(rt, checked(rt, alloc, &history), Ok(audit));
    let answer = linked(rt, alloc, &history, Policy::fixed(10, 1_000));
    expect_linked(rt, answer, None);
    expect_opening(rt, opened(rt, alloc, &history), Ok(end));
}

// The number of bytes of the text of all rounds. The lines of a round have these numbers of bytes,
// without the digits of the retry's attempt and of the sizes: 58 for each of 49 offers, and 61 for
// the retry; 30, 28, 30, 30, 43, 41, 47, 40, 30, 24 and 30 at places 50 to 60; 36 for each of ten
// removals that find an element, and 35 for each of ten that do not; 30 for the last peek, 24 for
// each of 17 sizes, and 26 for the drain. That is 4,450 for each round, less 2 in the round that
// has a clear in place of the drain. The attempts have 2,893 digits. The sizes of the 500 rounds up
// to the clear, and those of the 500 rounds after it, have 2,134 digits at place 59, and 17 times
// 2,131 digits at places 82 to 98. The lines around the events have 10, 16 and 11 bytes.
const BYTES: usize = 4_450_000 - 2 + 2_893 + 2 * 2_134 + 34 * 2_131 + 37;

#[test]
fn a_long_history_passes_each_call(rt: HostRuntime) {
    let alloc = rt.alloc();
    let audit = Audit {
        calls: 100_000,
        offered: 50_000,
        given: 10_000,
        removed: 10_000,
        cleared: 15_000,
        left: 15_000,
        opening: 0,
    };
    let history = run(&rt, alloc, ROUNDS);
    passes(&rt, alloc, history, BYTES, audit, end(&rt, alloc));
}

// A line has 39 bytes for an element and 30 for a poll. The lines around these have 10, 26 and 10
// bytes.
const POLLED_BYTES: usize = 15_000 * 39 + 15_000 * 30 + 46;

#[test]
fn a_long_opening_passes_each_call(rt: HostRuntime) {
    let alloc = rt.alloc();
    let audit = Audit {
        calls: 15_000,
        offered: 0,
        given: 15_000,
        removed: 0,
        cleared: 0,
        left: 0,
        opening: 15_000,
    };
    let history = polls(&rt, alloc, end(&rt, alloc));
    let nothing = nothing_left(&rt, alloc);
    passes(&rt, alloc, history, POLLED_BYTES, audit, nothing);
}

// Returns the opening that the polls lead to.
fn nothing_left(rt: &impl Abort, alloc: Global) -> Opening {
    opening_at(rt, Items::new(Vec::new(alloc)), id(ROUNDS, 0), EXPIRED)
}

// The index of the last event.
const LAST: u64 = 99_999;

// Returns the history of all rounds, except that its last event counts 0 elements where 15,000
// stand.
fn forged(rt: &impl Abort, alloc: Global) -> History {
    let mut events = rounds(rt, alloc, ROUNDS);
    if let Some(event) = events.last_mut() {
        event.act = Act::Size(0);
    }
    run_of(rt, alloc, events)
}

fn expect_late_faults(rt: &impl Abort, alloc: Global, history: History) {
    let (index, reason) = (LAST, Reason::WrongSize);
    let fault = ReplayFault::At { index, reason };
    expect_audit(rt, checked(rt, alloc, &history), Err(fault));
    let fault = OpeningFault::At { index, reason };
    expect_opening(rt, opened(rt, alloc, &history), Err(fault));
}

#[test]
fn a_late_fault_is_told(rt: HostRuntime) {
    expect_late_faults(&rt, rt.alloc(), forged(&rt, rt.alloc()));
}

fn expect_late_attempt(rt: &impl Abort, alloc: Global, history: History) {
    let answer = linked(rt, alloc, &history, Policy::fixed(10, 999));
    let (index, reason) = (99_900, ChainReason::TooMany);
    expect_linked(rt, answer, Some(ChainFault::At { index, reason }));
}

// The last attempt is offered by the first event of the last round.
#[test]
fn a_late_attempt_too_many_is_told(rt: HostRuntime) {
    expect_late_attempt(&rt, rt.alloc(), run(&rt, rt.alloc(), ROUNDS));
}

// The number of elements in the texts of the first two versions.
const TOLD: u64 = 100_000;

// Returns element `id`. Each job has two elements, of which the first expires at 5 and the second
// at 6.
fn told(rt: &impl Abort, id: u64) -> Element {
    attempt(rt, [id, 5 + id % 2, id / 2, 5], 1, b"j")
}

// Appends a line for each of the elements, which begins with `front`.
fn push_lines(rt: &impl Abort, text: &mut String, front: &str) {
    for id in 0..TOLD {
        push_line(rt, text, front, id);
    }
}

fn push_line(rt: &impl Abort, text: &mut String, front: &str, id: u64) {
    let (expiry, origin) = (5 + id % 2, id / 2);
    expect_made(rt, writeln!(text, "{front} {id} {expiry} {origin} 1 j"));
}

// Returns a text with the lines of the opening, if it lists the elements, and of the events, which
// offer them.
fn text_of(rt: &impl Abort, alloc: Global, opening: &str, keeps: bool) -> String {
    let mut text = String::new(alloc);
    expect_made(rt, text.push_str(opening));
    if keeps {
        push_lines(rt, &mut text, "keep");
    }
    push_lines(rt, &mut text, "0 0 0 offer");
    expect_made(rt, text.push_str("end 100000\n"));
    text
}

fn told_elements(rt: &impl Abort, alloc: Global) -> Vec<Element> {
    let mut elements = Vec::new(alloc);
    for id in 0..TOLD {
        push(rt, &mut elements, told(rt, id));
    }
    elements
}

// Returns the history that begins with `start` and offers all of the elements.
fn told_history(rt: &impl Abort, alloc: Global, start: Start<'_>) -> History {
    let mut events = Vec::new(alloc);
    for id in 0..TOLD {
        let deed = Deed::Offer(told(rt, id));
        push_row(rt, alloc, &mut events, (0, 0, 0, deed));
    }
    history_of(rt, opening(rt, alloc, start), events)
}

fn expect_told(rt: &impl Abort, alloc: Global, text: String, start: Start<'_>) {
    let wanted = told_history(rt, alloc, start);
    expect(rt, is_read_as(alloc, text.as_bytes(), &wanted));
}

#[test]
fn a_long_text_of_the_first_version_is_read(rt: HostRuntime) {
    let text = text_of(&rt, rt.alloc(), "history 1\n", false);
    expect_told(&rt, rt.alloc(), text, EMPTY);
}

// The opening lists the elements, and the events offer them again.
#[test]
fn a_long_text_of_the_second_version_is_read(rt: HostRuntime) {
    let opening = "history 2\nopen 100000 0 100000\n";
    let text = text_of(&rt, rt.alloc(), opening, true);
    let kept = told_elements(&rt, rt.alloc());
    expect_told(&rt, rt.alloc(), text, Some((&kept, TOLD)));
}

// A number of rounds whose text has more than 100,000 bytes. Their attempts have 41 digits. Their
// sizes have 73 digits at place 59, and 17 times 72 at places 82 to 98. The lines around the events
// have 10, 16 and 9 bytes.
const FEW_ROUNDS: u64 = 25;

const FEW_BYTES: usize = 25 * 4_450 + 41 + 73 + 17 * 72 + 35;

// Asserts that a device gets the whole text of few rounds. Returns the number of its calls.
fn is_written_to(rt: &impl Abort, alloc: Global, device: Device) -> usize {
    let history = run(rt, alloc, FEW_ROUNDS);
    let (bytes, calls) = expect_read_again(rt, alloc, &history, device);
    expect_count(rt, bytes, FEW_BYTES);
    calls
}

// Each byte is one write, and one flush follows them.
#[test]
fn a_device_may_take_a_byte_at_a_time(rt: HostRuntime) {
    let device = Device::new(rt.alloc(), 1, NEVER);
    let calls = is_written_to(&rt, rt.alloc(), device);
    expect_count(&rt, calls, FEW_BYTES.saturating_add(1));
}

// The device is interrupted at two of three writes, and takes at most `most` bytes at the third.
#[test]
fn a_write_that_is_interrupted_is_made_again(rt: HostRuntime) {
    let alloc = rt.alloc();
    for most in [1, 1_000, NEVER] {
        let mut device = Device::new(alloc, most, NEVER);
        device.is_restless = true;
        is_written_to(&rt, alloc, device);
    }
}

// Returns 100,000 ids of 20 digits.
fn long_ids(rt: &impl Abort, alloc: Global) -> Ids {
    let mut ids = Vec::new(alloc);
    for number in 0..100_000 {
        let id = 10_000_000_000_000_000_000_u64.saturating_add(number);
        push(rt, &mut ids, id);
    }
    Ids::new(ids)
}

fn long_drain(rt: &impl Abort, alloc: Global) -> Event {
    let (max, ids) = (100_000, long_ids(rt, alloc));
    Event {
        seat: 0,
        asked: 0,
        at: 0,
        act: Act::Drain { max, ids },
    }
}

// Returns the history of 50 drains of 100,000 ids each.
fn drains(rt: &impl Abort, alloc: Global) -> History {
    let mut events = Vec::new(alloc);
    for _ in 0..50 {
        push(rt, &mut events, long_drain(rt, alloc));
    }
    history_of(rt, Opening::empty(alloc), events)
}

// A drain's line has 19 bytes, and 21 more for each id. The lines around the drains have 10, 11 and
// 7 bytes.
const DRAINED_BYTES: usize = 50 * (19 + 100_000 * 21) + 28;

#[test]
fn a_text_of_a_hundred_megabytes_is_written_and_read(rt: HostRuntime) {
    let alloc = rt.alloc();
    is_written_and_read(&rt, alloc, &drains(&rt, alloc), DRAINED_BYTES);
}
