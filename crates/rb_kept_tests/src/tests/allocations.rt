// Calls that take no memory. Both tests of this file make the same things, and only
// `each_of_the_calls` makes the calls, so both have to allocate equally often.
// `dev/refuse_allocations` counts their allocations. All things are made before the first call, so
// that the tool can also refuse every allocation from that call on.

use crate::tests::fixtures::{
    done, element, expect, expect_made, expect_same, later, offer, payload, puts, takes,
};
use crate::tests::queue_refusals::try_offer;
use rb_binary::BinaryTimer;
use rb_delayed::{Delayed, Element, Payload, add_capped, add_delay, is_expired};
use rb_kept::{CallFault, Kept, Outcome, Step};
use rb_ledger::{Books, Tally};
use rb_pairing::PairingTimer;
use rb_protocol::{ErrWord, LineReply, read_request, write_reply};
use rb_queue::{Act, Ask, DelayQueue, Draft, Items, Opening, Reply};
use rb_replay::{History, read_history};
use rb_timer::{ListTimer, Timer};
use rb_wheel::WheelTimer;
use std::alloc::Global;
use std::process::Abort;

// The number of rounds, in each of which the calls are made.
const ROUNDS: u64 = 100;

// The number of elements of a queue. The calls of a kept queue take all of them out: three by
// fetches and one by a removal in each round.
const ELEMENTS: u64 = 400;

// A moment at which all elements are expired.
const LATE: u64 = 1_000;

// The number of slots of a timer, all of which are filled. A call that asked for room behind the
// last entry would have to allocate it.
const ROOM: usize = 70;

// The number of calls that a kept queue has room for. All are made: its offers, six in each round,
// and two at the end.
const CALLS: u64 = 1_002;

#[test]
fn none_of_the_calls(rt: HostRuntime) {
    expect_answers(&rt, rt.alloc(), 0);
}

#[test]
fn each_of_the_calls(rt: HostRuntime) {
    expect_answers(&rt, rt.alloc(), ROUNDS);
}

// A timer with room, and a queue and a kept queue with elements.
#[derive(Drop)]
struct Over<T: Timer> {
    timer: T,
    queue: DelayQueue<T>,
    kept: Kept<T>,
    tally: Tally,
}

fn made_over<T: Timer>(rt: &impl Abort, alloc: Global) -> Over<T> {
    let (kept, tally) = kept_queue(rt, alloc);
    Over {
        timer: timer(rt, alloc),
        queue: queue(rt, alloc),
        kept,
        tally,
    }
}

fn timer<T: Timer>(rt: &impl Abort, alloc: Global) -> T {
    let mut timer = T::new(alloc);
    expect_made(rt, timer.reserve(ROOM));
    timer
}

// Makes a queue of `ELEMENTS` elements whose expiries are their ids.
fn queue<T: Timer>(rt: &impl Abort, alloc: Global) -> DelayQueue<T> {
    let mut queue = DelayQueue::new(alloc);
    for expiry in 0..ELEMENTS {
        expect_made(rt, try_offer(rt, &mut queue, expiry));
    }
    queue
}

// Makes a kept queue of `ELEMENTS` elements whose expiries are their ids.
fn kept_queue<T: Timer>(rt: &impl Abort, alloc: Global) -> (Kept<T>, Tally) {
    let begun = Kept::new_from(alloc, CALLS, Opening::empty(alloc));
    let (mut kept, mut tally) = expect_made(rt, begun);
    for expiry in 0..ELEMENTS {
        let step = kept.act(&mut tally, 0, 0, offer(rt, expiry, b"a"));
        expect(rt, is_done(step), "an offer");
    }
    (kept, tally)
}

// Makes the calls, and asserts that all are answered as they have to be. What is made is handed on
// to be dropped over any timer: dropped here, each field of each timer would have its own proof.
fn expect_answers(rt: &impl Abort, alloc: Global, rounds: u64) {
    let text = expect_made(rt, Vec::with_capacity(alloc, 128));
    let history = history(rt, alloc);
    let list = made_over::<ListTimer>(rt, alloc);
    let heap = made_over::<BinaryTimer>(rt, alloc);
    let pairing = made_over::<PairingTimer>(rt, alloc);
    let wheel = made_over::<WheelTimer>(rt, alloc);
    expect_without_timers(rt, alloc, text, history, rounds);
    expect_over(rt, alloc, list, rounds);
    expect_over(rt, alloc, heap, rounds);
    expect_over(rt, alloc, pairing, rounds);
    expect_over(rt, alloc, wheel, rounds);
}

fn history(rt: &impl Abort, alloc: Global) -> History {
    let text = b"history 3\nopen 0 0 0\n0 0 0 size 0\nend 1\n";
    expect_made(rt, read_history(alloc, text))
}

fn are_right(answers: &[bool]) -> bool {
    !answers.contains(&false)
}

// Makes the calls that need no timer, in rounds. The text has room for the longest reply.
fn expect_without_timers(
    rt: &impl Abort,
    alloc: Global,
    mut text: Vec<u8>,
    history: History,
    rounds: u64,
) {
    let element = element(rt, 0, LATE, b"a");
    for round in 0..rounds {
        expect(rt, value_round(&element, round), "a value");
        expect(rt, beginning_round(alloc, &element), "a beginning");
        expect(rt, book_round(), "a book");
        expect(rt, request_round(), "a request");
        reply_round(rt, &mut text);
        expect(rt, history_round(&history), "a history");
    }
}

// Makes the calls of payloads, moments and delays.
fn value_round(element: &Element, round: u64) -> bool {
    are_right(&[
        Payload::new(b"a") == Ok(element.payload) && element.payload.as_bytes() == b"a".as_slice(),
        add_delay(round, 1) == round.checked_add(1),
        add_capped(u64::MAX, round) == u64::MAX,
        !is_expired(element, round),
        element.id() == 0 && element.expiry() == LATE,
        element.delay(LATE) == 0,
        element.delay_order(element).is_eq(),
    ])
}

// Makes a draft, and openings with which a queue or a run begins, and asks what acts came to.
fn beginning_round(alloc: Global, element: &Element) -> bool {
    are_right(&[
        Draft::first(LATE, element.payload).expiry == LATE,
        Opening::empty(alloc).next_id == 0,
        Opening::new(Items::new(Vec::new(alloc)), 7, LATE).is_some(),
        Act::Clear.cleared(3) == 3 && Act::Take(0).given() == 1,
    ])
}

// Makes the calls of books and of their shares.
fn book_round() -> bool {
    let (mut books, mut tally) = Books::new();
    let mut other = tally.split();
    books.note(&mut tally, 1, 0);
    books.note(&mut other, 0, 2);
    tally.join(other);
    are_right(&[
        books.calls() == 2 && tally.calls() == 2,
        books.offered() == 1 && tally.offered() == 1,
        books.totals() == tally.totals() && tally.given() == 2,
    ])
}

// Reads lines of each form and with each fault.
fn request_round() -> bool {
    are_right(&[
        read_request(b"OFFER 18446744073709551615 job").is_ok(),
        read_request(b"OFFERAT 5 job").is_ok(),
        read_request(b"FAIL 7").is_ok(),
        read_request(b"QUIT").is_ok(),
        read_request(b"offer").is_err(),
        read_request(b"FAIL 07").is_err(),
        read_request(b"OFFER 5 \x7F").is_err(),
        read_request(&[b'x'; 257]).is_err(),
    ])
}

// Returns the element whose line is the longest.
fn longest(rt: &impl Abort) -> Element {
    Element {
        id: u64::MAX,
        expiry: u64::MAX,
        origin: u64::MAX,
        first: u64::MAX,
        attempt: 1_000,
        payload: payload(rt, &[b'z'; 64]),
    }
}

// Writes each kind of reply.
fn reply_round(rt: &impl Abort, text: &mut Vec<u8>) {
    let (id, expiry) = (u64::MAX, u64::MAX);
    for reply in &[
        LineReply::Offered { id, expiry },
        LineReply::Item(longest(rt)),
        LineReply::Head(longest(rt)),
        LineReply::Nothing,
        LineReply::Removed(false),
        LineReply::Drained(id),
        LineReply::Cleared,
        LineReply::Size(id),
        LineReply::Done(id),
        LineReply::Again { id, expiry },
        LineReply::Dead(id),
        LineReply::Now(expiry),
        LineReply::Stopped,
        LineReply::Bye,
        LineReply::Err(ErrWord::NotHeld),
    ] {
        text.clear();
        expect(rt, write_reply(reply, text).is_ok(), "a reply");
    }
}

// Looks at the one event of a history that was read, and at its opening.
fn history_round(history: &History) -> bool {
    history.events().len() == 1 && history.opening().next_id == 0
}

// Makes the calls over a timer, in rounds. The queue is cleared and the history filled after them.
fn expect_over<T: Timer>(rt: &impl Abort, alloc: Global, mut over: Over<T>, rounds: u64) {
    for round in 0..rounds {
        expect(rt, timer_round(alloc, &mut over.timer, round), "a timer");
        expect(rt, queue_round(alloc, &mut over.queue, round), "a queue");
        let is_right = kept_round(&mut over.kept, &mut over.tally, round);
        expect(rt, is_right, "a kept queue");
    }
    if rounds > 0 {
        over.queue.clear();
        clears(rt, &mut over.kept, &mut over.tally);
    }
    drop(over);
}

// Makes the calls of a timer except `reserve`. Puts in an entry at the round's moment and one far
// after it, takes each out when it is due, and then fills each slot. Clears the timer at the end.
fn timer_round<T: Timer>(alloc: Global, timer: &mut T, round: u64) -> bool {
    let far = round.saturating_add(1_000_000);
    let answers = [
        T::new(alloc).len() == 0,
        puts(timer, 64, far),
        puts(timer, 1, round),
        timer.least() == Some((1, round)),
        timer.due(round) == Some((1, round)),
        takes(timer, 1, round),
        timer.due(far) == Some((64, far)) && timer.len() == 1,
        takes(timer, 64, far) && fills(timer, round),
    ];
    timer.clear();
    are_right(&answers)
}

fn fills<T: Timer>(timer: &mut T, expiry: u64) -> bool {
    let mut is_right = true;
    for slot in 0..ROOM {
        is_right = puts(timer, slot, expiry) && is_right;
    }
    is_right && timer.len() == ROOM && timer.room() == ROOM
}

fn has_id(found: Option<Element>, id: u64) -> bool {
    match found {
        Some(element) => element.id == id,
        None => false,
    }
}

// Makes the calls of a queue that take no memory: all but `new_from`, offers and drains.
fn queue_round<T: Timer>(alloc: Global, queue: &mut DelayQueue<T>, round: u64) -> bool {
    let left = ELEMENTS.saturating_sub(round.saturating_mul(2));
    are_right(&[
        DelayQueue::<T>::new(alloc).peek().is_none(),
        queue.next_expiry() == Some(round) && queue.next_id() == ELEMENTS,
        has_id(queue.peek(), round),
        has_id(queue.poll(LATE), round),
        queue.remove(ELEMENTS.saturating_sub(1).saturating_sub(round)),
        queue.size() == left.saturating_sub(2),
    ])
}

fn asks<T: Timer>(kept: &mut Kept<T>, tally: &mut Tally, ask: Ask) -> Step {
    kept.act(tally, 0, LATE, ask)
}

fn is_done(step: Step) -> bool {
    matches!(&step, Ok(Outcome::Done(_)))
}

fn is_item(step: Step) -> bool {
    matches!(&step, Ok(Outcome::Done(Reply::Item(_))))
}

// Makes the calls of a kept queue, except offers, drains and runs, which take memory. `clears`
// makes the last ones.
fn kept_round<T: Timer>(kept: &mut Kept<T>, tally: &mut Tally, round: u64) -> bool {
    let (start, timeout) = (0, 5);
    let last = ELEMENTS.saturating_sub(1).saturating_sub(round);
    let before = kept.history().len();
    are_right(&[
        is_item(asks(kept, tally, Ask::Poll)),
        is_item(asks(kept, tally, Ask::Take)),
        is_item(asks(kept, tally, Ask::PollFor { start, timeout })),
        is_done(asks(kept, tally, Ask::Peek)),
        is_done(asks(kept, tally, Ask::Remove(last))),
        is_done(asks(kept, tally, Ask::Size)),
        kept.history().len() == before.saturating_add(6),
        kept.capacity() == CALLS,
        kept.opening().next_id == 0,
        kept.audit().calls == tally.calls(),
    ])
}

// Clears the queue and fills its history. A take from an empty queue would wait, which is no event.
// A full history refuses each call.
fn clears<T: Timer>(rt: &impl Abort, kept: &mut Kept<T>, tally: &mut Tally) {
    expect_same(rt, asks(kept, tally, Ask::Clear), done(Reply::Cleared));
    expect_same(rt, asks(kept, tally, Ask::Take), later(None));
    expect_same(rt, asks(kept, tally, Ask::Size), done(Reply::Size(0)));
    expect_same(rt, asks(kept, tally, Ask::Size), Err(CallFault::Full));
}
