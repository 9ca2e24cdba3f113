use super::fixtures::{
    done, element, expect, expect_element, expect_made, expect_number, expect_opening, expect_same,
    expect_step, later, offer, offered, push,
};
use super::queue_refusals::queue_refusals;
use super::timer_refusals::timer_refusals;
use rb_delayed::Element;
use rb_kept::{CallFault, Kept, NewFault, Outcome, Step, Try};
use rb_ledger::{Tally, Totals};
use rb_queue::{Act, Ask, Audit, Event, Items, Opening, Reply};
use rb_timer::{ListTimer, Timer};
use std::alloc::{AllocError, Global};
use std::process::Abort;

// The number of refusals that the test meets. `dev/refuse_allocations` sets 1 and refuses each
// allocation of the test in turn.
const REFUSALS: u32 = 0;

// The number of elements, past several growths of slots, timer and directory.
const MANY: u64 = 20;

// Returns the expiry of element `id`. The later the offer, the sooner the element expires. At 95,
// elements 5 to 19 are expired.
fn expiry_of(id: u64) -> u64 {
    100 - id % 100
}

fn numbered(rt: &impl Abort, id: u64) -> Element {
    element(rt, id, expiry_of(id), b"a")
}

// A queue with the tally of its one caller, and the number of refusals that they met.
#[derive(Drop)]
struct Caller<T: Timer> {
    kept: Kept<T>,
    tally: Tally,
    met: u32,
}

// The numbers that a refused call must leave as they were: the audit, the number of events, the
// capacity and the caller's totals.
type Snapshot = (Audit, usize, u64, Totals);

fn snapshot<T: Timer>(caller: &Caller<T>) -> Snapshot {
    let events = caller.kept.history().len();
    let (audit, capacity) = (caller.kept.audit(), caller.kept.capacity());
    (audit, events, capacity, caller.tally.totals())
}

// Asserts that a refused call has left the numbers of `before`, the opening and each event, and
// counts the refusal. The calls after it, up to the last, show the elements.
fn expect_unchanged<T: Timer>(rt: &impl Abort, caller: &mut Caller<T>, before: Snapshot) {
    expect_same(rt, snapshot(caller), before);
    expect_events(rt, caller.kept.opening(), caller.kept.history());
    caller.met = caller.met.saturating_add(1);
}

fn room(rt: &impl Abort, alloc: Global) -> Vec<Element> {
    match Vec::with_capacity(alloc, MANY as usize) {
        Ok(elements) => elements,
        Err(_) => expect_made(rt, Vec::with_capacity(alloc, MANY as usize)),
    }
}

fn elements_of(rt: &impl Abort, alloc: Global, count: u64) -> Items {
    let mut elements = room(rt, alloc);
    for id in 0..count {
        push(rt, &mut elements, numbered(rt, id));
    }
    Items::new(elements)
}

// Makes the opening of the first `count` elements.
pub fn opening_of(rt: &impl Abort, alloc: Global, count: u64) -> Opening {
    let items = elements_of(rt, alloc, count);
    Opening::new(items, count, 0).expect(rt, "an opening")
}

// Makes a queue whose memory was refused once, which is the first refusal met.
fn made_again<T: Timer>(rt: &impl Abort, alloc: Global, fault: NewFault) -> Caller<T> {
    expect_same(rt, fault, NewFault::Memory);
    let (kept, tally) = expect_made(rt, Kept::new(alloc, 30));
    Caller {
        kept,
        tally,
        met: 1,
    }
}

fn made<T: Timer>(rt: &impl Abort, alloc: Global) -> Caller<T> {
    match Kept::new(alloc, 30) {
        Ok((kept, tally)) => Caller {
            kept,
            tally,
            met: 0,
        },
        Err(fault) => made_again(rt, alloc, fault),
    }
}

// Makes a queue from an opening, which the refusal handed back, and asserts that it came back
// unchanged.
fn begun_again<T: Timer>(
    rt: &impl Abort,
    alloc: Global,
    back: Opening,
    fault: NewFault,
) -> Caller<T> {
    expect_same(rt, fault, NewFault::Memory);
    expect_opening(rt, &back, &opening_of(rt, alloc, MANY));
    let (kept, tally) = expect_made(rt, Kept::new_from(alloc, 30, back));
    Caller {
        kept,
        tally,
        met: 1,
    }
}

fn begun<T: Timer>(rt: &impl Abort, alloc: Global) -> Caller<T> {
    match Kept::new_from(alloc, 30, opening_of(rt, alloc, MANY)) {
        Ok((kept, tally)) => Caller {
            kept,
            tally,
            met: 0,
        },
        Err((back, fault)) => begun_again(rt, alloc, back, fault),
    }
}

fn asks<T: Timer>(caller: &mut Caller<T>, ask: Ask) -> Step {
    caller.kept.act(&mut caller.tally, 0, 95, ask)
}

// Asks at 95, and once more after a refusal, which must change nothing. Returns the last step.
fn answered<T: Timer>(rt: &impl Abort, caller: &mut Caller<T>, ask: Ask) -> Step {
    let (before, again) = (snapshot(caller), ask);
    match asks(caller, ask) {
        Ok(outcome) => Ok(outcome),
        Err(fault) => {
            expect(
                rt,
                fault == CallFault::Memory,
                "the fault of a refused call",
            );
            expect_unchanged(rt, caller, before);
            asks(caller, again)
        }
    }
}

// Asks at 95, once more after a refusal, and asserts the answer.
fn expect_answer<T: Timer>(rt: &impl Abort, caller: &mut Caller<T>, ask: Ask, wanted: Step) {
    expect_step(rt, &answered(rt, caller, ask), wanted, 95);
}

// Asserts that elements 19 to 5 are drained, in this order.
fn expect_items(rt: &impl Abort, items: &[Element]) {
    expect_number(rt, items.len() as u64, 15);
    let mut id = MANY;
    for item in items {
        id = id.saturating_sub(1);
        expect_element(rt, item, &numbered(rt, id));
    }
}

// Asserts that the ids of elements 19 to 5 are recorded, in this order.
fn expect_ids(rt: &impl Abort, ids: &[u64]) {
    expect_number(rt, ids.len() as u64, 15);
    let mut wanted = MANY;
    for &id in ids {
        wanted = wanted.saturating_sub(1);
        expect_number(rt, id, wanted);
    }
}

fn expect_drained(rt: &impl Abort, step: Step) {
    match &step {
        Ok(Outcome::Done(Reply::Drained(items))) => expect_items(rt, items.as_slice()),
        _ => expect(rt, false, "the drain gave nothing"),
    }
    drop(step);
}

// Returns the tries of a run: one, which offers element 20.
fn one_try(rt: &impl Abort, alloc: Global) -> Result<Vec<Try>, AllocError> {
    let mut tries = Vec::new(alloc);
    tries.push(Try {
        seat: 0,
        asked: 95,
        ask: offer(rt, expiry_of(20), b"a"),
    })?;
    Ok(tries)
}

fn one_try_at_last(rt: &impl Abort, alloc: Global) -> Result<Vec<Try>, AllocError> {
    match one_try(rt, alloc) {
        Ok(tries) => Ok(tries),
        Err(_) => one_try(rt, alloc),
    }
}

// Returns whether the run's one step offers element 20. Otherwise the step must be a refusal: a
// refused offer is a step too.
fn has_offered(rt: &impl Abort, steps: &[Step]) -> bool {
    match steps {
        [Err(CallFault::Memory)] => false,
        [step] => {
            expect_step(rt, step, done(offered(rt, 20, 80, b"a")), 95);
            true
        }
        _ => rt.abort(),
    }
}

// Returns whether a run was made and offered element 20. A refused offer uses up no id, so a
// further run offers the same element.
fn has_run<T: Timer>(rt: &impl Abort, alloc: Global, caller: &mut Caller<T>) -> bool {
    let tries = one_try_at_last(rt, alloc).ok().expect(rt, "a try");
    match caller.kept.run_tries(&mut caller.tally, tries) {
        Ok(steps) => has_offered(rt, &steps),
        Err(_) => false,
    }
}

fn runs_once<T: Timer>(rt: &impl Abort, alloc: Global, caller: &mut Caller<T>) -> bool {
    let before = snapshot(caller);
    let has_run = has_run(rt, alloc, caller);
    if !has_run {
        expect_unchanged(rt, caller, before);
    }
    has_run
}

// Offers element 20 in a run, and in one more run after a refusal.
fn runs<T: Timer>(rt: &impl Abort, alloc: Global, caller: &mut Caller<T>) {
    let has_run = runs_once(rt, alloc, caller) || runs_once(rt, alloc, caller);
    expect(rt, has_run, "no memory for a run");
}

fn offers<T: Timer>(rt: &impl Abort, caller: &mut Caller<T>, id: u64) {
    let wanted = done(offered(rt, id, expiry_of(id), b"a"));
    expect_answer(rt, caller, offer(rt, expiry_of(id), b"a"), wanted);
}

// Offers elements 0 to 19.
fn offers_many<T: Timer>(rt: &impl Abort, caller: &mut Caller<T>) {
    for id in 0..MANY {
        offers(rt, caller, id);
    }
}

// Asserts that the opening has elements from 0 on and no others. Returns how many.
fn expect_elements(rt: &impl Abort, opening: &Opening) -> u64 {
    let mut count = 0_u64;
    for element in opening.elements.as_slice() {
        expect_element(rt, element, &numbered(rt, count));
        count = count.saturating_add(1);
    }
    expect_number(rt, opening.next_id, count);
    expect_number(rt, opening.last_at, 0);
    count
}

// Asserts that elements 0 to 19 stand in the opening or were offered, as far as there are any, and
// that the events after them are the drain and the offer of element 20.
fn expect_events(rt: &impl Abort, opening: &Opening, history: &[Event]) {
    let mut place = expect_elements(rt, opening);
    for event in history {
        expect_event(rt, event, place);
        place = place.saturating_add(1);
    }
}

// Asserts that `found` is the event at `place`. Places count the opening's elements, and then the
// events.
fn expect_event(rt: &impl Abort, found: &Event, place: u64) {
    expect_number(rt, found.seat, 0);
    expect_number(rt, found.asked, 95);
    expect_number(rt, found.at, 95);
    match &found.act {
        Act::Offer(element) => expect_offer(rt, element, place),
        Act::Drain { max, ids } => {
            expect_number(rt, place, MANY);
            expect_number(rt, *max, MANY);
            expect_ids(rt, ids.as_slice());
        }
        _ => expect(rt, false, "another act"),
    }
}

fn expect_offer(rt: &impl Abort, element: &Element, place: u64) {
    if place < MANY {
        expect_element(rt, element, &numbered(rt, place));
    } else {
        expect_number(rt, place, 21);
        expect_element(rt, element, &numbered(rt, 20));
    }
}

// Drains a queue with elements 0 to 19, offers element 20 in a run, and polls what is left.
fn goes_on<T: Timer>(rt: &impl Abort, alloc: Global, caller: &mut Caller<T>) {
    expect_drained(rt, answered(rt, caller, Ask::Drain(MANY)));
    expect_answer(rt, caller, Ask::Take, later(Some(96)));
    runs(rt, alloc, caller);
    expect_events(rt, caller.kept.opening(), caller.kept.history());
    polls_the_rest(rt, caller);
}

fn polls<T: Timer>(rt: &impl Abort, caller: &mut Caller<T>, reply: Reply) {
    let polled = caller.kept.act(&mut caller.tally, 0, 100, Ask::Poll);
    expect_step(rt, &polled, done(reply), 100);
}

// Polls what is left: elements 20 and 4 to 0, which expire in this order.
fn polls_the_rest<T: Timer>(rt: &impl Abort, caller: &mut Caller<T>) {
    for id in [20, 4, 3, 2, 1, 0] {
        polls(rt, caller, Reply::Item(numbered(rt, id)));
    }
    polls(rt, caller, Reply::Nothing);
    expect_number(rt, caller.kept.audit().left, 0);
}

// Asserts the number of calls of a queue that began empty, by the audit and by the caller's share.
fn expect_calls(rt: &impl Abort, audit: Audit, totals: Totals) {
    expect_number(rt, audit.calls, 29);
    expect_number(rt, audit.offered, 21);
    expect_number(rt, audit.given, 21);
    expect_number(rt, totals.calls, 29);
    expect_number(rt, totals.offered, 21);
    expect_number(rt, totals.given, 21);
}

// Makes each call that may take memory, and returns the number of refusals.
pub fn run_through<T: Timer>(rt: &impl Abort, alloc: Global) -> u32 {
    let mut caller = made::<T>(rt, alloc);
    offers_many(rt, &mut caller);
    goes_on(rt, alloc, &mut caller);
    expect_calls(rt, caller.kept.audit(), caller.tally.totals());
    let met = caller.met;
    drop(caller);
    met
}

// Does the same for a queue that begins with an opening of elements 0 to 19, which are not offered.
fn run_on<T: Timer>(rt: &impl Abort, alloc: Global) -> u32 {
    let mut caller = begun::<T>(rt, alloc);
    goes_on(rt, alloc, &mut caller);
    let met = caller.met;
    drop(caller);
    met
}

#[test]
fn a_refusal_changes_nothing(rt: HostRuntime) {
    let of_timers = timer_refusals(&rt, rt.alloc());
    let of_queue = queue_refusals::<ListTimer>(&rt, rt.alloc());
    let begun_empty = run_through::<ListTimer>(&rt, rt.alloc());
    let begun_with_elements = run_on::<ListTimer>(&rt, rt.alloc());
    let of_kept = begun_empty.saturating_add(begun_with_elements);
    let below = of_timers.saturating_add(of_queue);
    expect_same(&rt, below.saturating_add(of_kept), REFUSALS);
}
