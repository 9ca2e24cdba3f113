use crate::tests::fixtures::{element, expect_made, expect_same, payload, push};
use rb_delayed::Element;
use rb_queue::{Act, Audit, Event, Ids, Items, Opening, Sequence};
use rb_replay::{
    ChainFault, History, OpeningFault, ReplayFault, TextFault, chains, check, opening_of,
    read_history,
};
use rb_retry::Policy;
use std::alloc::Global;
use std::process::Abort;

/// What an event did, as a row states it. It owns nothing, so a row can be copied.
#[derive(Clone, Copy)]
pub enum Deed {
    Offer(Element),
    Poll(Option<u64>),
    Take(u64),
    /// The start, the timeout, and the id of the element that came, if one did.
    PollFor(u64, u64, Option<u64>),
    Peek(Option<u64>),
    /// The id, and whether it was found.
    Remove(u64, bool),
    /// The greatest number of elements to take, and the ids of those taken, at most three.
    Drain(u64, [Option<u64>; 3]),
    Clear,
    Size(u64),
}

/// An event: its seat, the moment asked for, the moment at which it took place, and what it did.
pub type Row = (u64, u64, u64, Deed);

/// What a run begins with: its elements and the next id, or `None` for the empty opening. Moments
/// begin at 0.
pub type Start<'a> = Option<(&'a [Element], u64)>;

pub const EMPTY: Start<'static> = None;

/// The next id after a run of one job that failed once.
pub const NEXT_ID: u64 = 2;

/// Returns the attempt of number `attempt`.
pub fn attempt(
    rt: &impl Abort,
    [id, expiry, origin, first]: [u64; 4],
    attempt: u64,
    bytes: &[u8],
) -> Element {
    assert!(rt; attempt >= 1 && attempt <= 1_000);
    Element {
        id,
        expiry,
        origin,
        first,
        attempt: attempt as u32,
        payload: payload(rt, bytes),
    }
}

/// Returns element `id` of a run: the first attempt of its job. The payload is `a` for element 0,
/// and `b` for any other.
pub fn first(rt: &impl Abort, id: u64, expiry: u64) -> Element {
    let bytes: &[u8] = if id == 0 { b"a" } else { b"b" };
    element(rt, id, expiry, bytes)
}

/// Returns the second attempt of job 0, offered as element 1.
pub fn second(rt: &impl Abort) -> Element {
    attempt(rt, [1, 1000, 0, 0], 2, b"a")
}

/// Returns a run of two seats: an offer, its poll, a timed poll that gives up, and a count.
pub fn two_seats(rt: &impl Abort) -> [Row; 4] {
    [
        (0, 10, 10, Deed::Offer(first(rt, 0, 10))),
        (1, 5, 10, Deed::Poll(Some(0))),
        (1, 3, 10, Deed::PollFor(3, 4, None)),
        (0, 11, 11, Deed::Size(0)),
    ]
}

/// Returns a run in which a job is offered, polled, fails at once, and is offered again as `again`.
pub fn one_retry(rt: &impl Abort, again: Element) -> [Row; 3] {
    [
        (0, 0, 0, Deed::Offer(first(rt, 0, 0))),
        (0, 0, 0, Deed::Poll(Some(0))),
        (0, 0, 0, Deed::Offer(again)),
    ]
}

/// Returns a run that follows one in which a job failed once: a count, the poll of that job, and
/// the offer of another.
pub fn next_run(rt: &impl Abort) -> [Row; 3] {
    let mut offered = first(rt, 1, 1000);
    offered.id = 2;
    offered.origin = 2;
    [
        (0, 0, 0, Deed::Size(1)),
        (0, 1000, 1000, Deed::Poll(Some(1))),
        (0, 1000, 1000, Deed::Offer(offered)),
    ]
}

fn drained(rt: &impl Abort, alloc: Global, given: [Option<u64>; 3]) -> Ids {
    let mut ids = Vec::new(alloc);
    for id in given {
        if let Some(id) = id {
            push(rt, &mut ids, id);
        }
    }
    Ids::new(ids)
}

fn act(rt: &impl Abort, alloc: Global, deed: Deed) -> Act {
    match deed {
        Deed::Offer(element) => Act::Offer(element),
        Deed::Poll(given) => Act::Poll(given),
        Deed::Take(id) => Act::Take(id),
        Deed::PollFor(start, timeout, got) => {
            Act::PollFor {
                start,
                timeout,
                got,
            }
        }
        Deed::Peek(shown) => Act::Peek(shown),
        Deed::Remove(id, found) => Act::Remove { id, found },
        Deed::Drain(max, given) => {
            Act::Drain {
                max,
                ids: drained(rt, alloc, given),
            }
        }
        Deed::Clear => Act::Clear,
        Deed::Size(count) => Act::Size(count),
    }
}

pub fn push_row(rt: &impl Abort, alloc: Global, events: &mut Vec<Event>, row: Row) {
    let (seat, asked, at, deed) = row;
    let act = act(rt, alloc, deed);
    let event = Event {
        seat,
        asked,
        at,
        act,
    };
    push(rt, events, event);
}

fn events(rt: &impl Abort, alloc: Global, rows: &[Row]) -> Vec<Event> {
    let mut events = Vec::new(alloc);
    for row in rows {
        push_row(rt, alloc, &mut events, *row);
    }
    events
}

pub fn opening_at(rt: &impl Abort, elements: Items, next_id: u64, last_at: u64) -> Opening {
    Opening::new(elements, next_id, last_at).expect(rt, "an opening")
}

pub fn opening(rt: &impl Abort, alloc: Global, start: Start<'_>) -> Opening {
    match start {
        Some((elements, next_id)) => {
            let elements = expect_made(rt, Vec::from_slice(alloc, elements));
            opening_at(rt, Items::new(elements), next_id, 0)
        }
        None => Opening::empty(alloc),
    }
}

pub fn history(rt: &impl Abort, alloc: Global, start: Start<'_>, rows: &[Row]) -> History {
    history_of(rt, opening(rt, alloc, start), events(rt, alloc, rows))
}

pub fn history_of(rt: &impl Abort, opening: Opening, events: Vec<Event>) -> History {
    History::new(opening, Sequence::new(events)).expect(rt, "few enough events")
}

// Calls and comparisons are functions without clauses, so tests that call them have nothing to
// prove.

pub fn checked(rt: &impl Abort, alloc: Global, history: &History) -> Result<Audit, ReplayFault> {
    assert!(rt; history.events().len() <= 1_000_000);
    check(alloc, history.opening(), history.events())
}

/// Asserts that a history is legal, and returns the answer of the check of its retries.
pub fn linked(
    rt: &impl Abort,
    alloc: Global,
    history: &History,
    policy: Option<Policy>,
) -> Result<(), ChainFault> {
    let (opening, events) = (history.opening(), history.events());
    assert!(rt; events.len() <= 1_000_000);
    assert!(rt; check(alloc, opening, events).is_ok());
    chains(alloc, opening, events, &policy.expect(rt, "a policy"))
}

pub fn opened(rt: &impl Abort, alloc: Global, history: &History) -> Result<Opening, OpeningFault> {
    opening_of(alloc, history)
}

pub fn is_read_as(alloc: Global, text: &[u8], history: &History) -> bool {
    match read_history(alloc, text) {
        Ok(found) => found == *history,
        Err(_) => false,
    }
}

pub fn expect_audit(
    rt: &impl Abort,
    answer: Result<Audit, ReplayFault>,
    wanted: Result<Audit, ReplayFault>,
) {
    expect_same(rt, answer, wanted);
}

pub fn expect_linked(rt: &impl Abort, answer: Result<(), ChainFault>, wanted: Option<ChainFault>) {
    expect_same(rt, answer.err(), wanted);
}

pub fn expect_opening(
    rt: &impl Abort,
    answer: Result<Opening, OpeningFault>,
    wanted: Result<Opening, OpeningFault>,
) {
    expect_same(rt, answer, wanted);
}

pub fn expect_read(
    rt: &impl Abort,
    answer: Result<History, TextFault>,
    wanted: Result<History, TextFault>,
) {
    expect_same(rt, answer, wanted);
}
