// A queue that is refused memory when it begins and by its offers and drains. After a refusal
// everything is as before it: what the queue shows then, and each element that it gives until the
// end. The call, made again, finds memory.

use super::fixtures::{element, expect_element, expect_made, expect_number, expect_same, payload};
use rb_delayed::Element;
use rb_queue::{DelayQueue, Draft, Items, Opening};
use rb_timer::Timer;
use std::alloc::{AllocError, Global};
use std::process::Abort;

// The number of elements, past two growths of slots, timer and directory.
const COUNT: u64 = 20;

// Returns the expiry of element `id`. The later the offer, the sooner the element expires: from 100
// down to 81.
fn expiry_of(id: u64) -> u64 {
    100_u64.saturating_sub(id)
}

fn numbered(rt: &impl Abort, id: u64) -> Element {
    element(rt, id, expiry_of(id), b"job")
}

// All that a queue shows of itself: its size, its next id, its head and its least expiry.
type Shown = (u64, u64, Option<Element>, Option<u64>);

fn shown<T: Timer>(queue: &DelayQueue<T>) -> Shown {
    (
        queue.size(),
        queue.next_id(),
        queue.peek(),
        queue.next_expiry(),
    )
}

fn expect_shown<T: Timer>(rt: &impl Abort, queue: &DelayQueue<T>, wanted: Shown) {
    expect_same(rt, shown(queue), wanted);
}

fn five_elements(rt: &impl Abort, alloc: Global) -> Result<Items, AllocError> {
    let mut elements = Vec::new(alloc);
    for id in 0..5_u64 {
        elements.push(numbered(rt, id))?;
    }
    Ok(Items::new(elements))
}

// Makes the opening of elements 0 to 4, and tries once more if memory is refused.
fn five(rt: &impl Abort, alloc: Global) -> Opening {
    let items = match five_elements(rt, alloc) {
        Ok(items) => items,
        Err(_) => expect_made(rt, five_elements(rt, alloc)),
    };
    Opening::new(items, 5, 0).expect(rt, "an opening")
}

// A queue, and the number of refusals when it began.
type Begun<T> = (DelayQueue<T>, u32);

fn begun_again<T: Timer>(rt: &impl Abort, alloc: Global, opening: &Opening) -> Begun<T> {
    match DelayQueue::new_from(alloc, opening) {
        Ok(queue) => (queue, 0),
        Err(_) => (expect_made(rt, DelayQueue::new_from(alloc, opening)), 1),
    }
}

/// Offers an element of payload `job`.
pub fn try_offer<T: Timer>(
    rt: &impl Abort,
    queue: &mut DelayQueue<T>,
    expiry: u64,
) -> Result<Element, AllocError> {
    assert!(rt; queue.next_id() < u64::MAX);
    queue.offer(Draft::first(expiry, payload(rt, b"job")))
}

// Offers an element, and tries once more if memory is refused, which must change nothing. Returns
// the element and the number of refusals.
fn offered_again<T: Timer>(
    rt: &impl Abort,
    queue: &mut DelayQueue<T>,
    expiry: u64,
) -> (Element, u32) {
    let before = shown(queue);
    match try_offer(rt, queue, expiry) {
        Ok(element) => (element, 0),
        Err(_) => {
            expect_shown(rt, queue, before);
            (expect_made(rt, try_offer(rt, queue, expiry)), 1)
        }
    }
}

// Drains at most `max` elements, and tries once more if memory is refused, which must change
// nothing. Returns the elements and the number of refusals.
fn drained_again<T: Timer>(
    rt: &impl Abort,
    queue: &mut DelayQueue<T>,
    now: u64,
    max: u64,
) -> (Items, u32) {
    let before = shown(queue);
    match queue.drain(now, max) {
        Ok(items) => (items, 0),
        Err(_) => {
            expect_shown(rt, queue, before);
            (expect_made(rt, queue.drain(now, max)), 1)
        }
    }
}

// Asserts that there are `count` items, whose ids go down from `last`.
fn expect_down_from(rt: &impl Abort, items: &[Element], last: u64, count: u64) {
    expect_number(rt, items.len() as u64, count);
    let mut id = last;
    for item in items {
        expect_element(rt, item, &numbered(rt, id));
        id = id.saturating_sub(1);
    }
}

// Offers element `id`, once more after a refusal, and returns the number of refusals.
fn offers<T: Timer>(rt: &impl Abort, queue: &mut DelayQueue<T>, id: u64) -> u32 {
    let (offered, refused) = offered_again(rt, queue, expiry_of(id));
    expect_element(rt, &offered, &numbered(rt, id));
    refused
}

// Offers elements 5 to 19, and returns the number of refusals.
fn offers_many<T: Timer>(rt: &impl Abort, queue: &mut DelayQueue<T>) -> u32 {
    let mut refused = 0_u32;
    for id in 5..COUNT {
        refused = refused.saturating_add(offers(rt, queue, id));
    }
    refused
}

// Drains at most `max` elements that are expired at `now`, asserts that they are `count` elements
// from the id `last` down, and returns the number of refusals.
fn drains<T: Timer>(
    rt: &impl Abort,
    queue: &mut DelayQueue<T>,
    (now, max): (u64, u64),
    (last, count): (u64, u64),
) -> u32 {
    let (items, refused) = drained_again(rt, queue, now, max);
    expect_down_from(rt, items.as_slice(), last, count);
    refused
}

// Drains seven elements and then all others, and returns the number of refusals.
fn drains_twice<T: Timer>(rt: &impl Abort, queue: &mut DelayQueue<T>) -> u32 {
    let few = drains(rt, queue, (90, 7), (19, 7));
    let all = drains(rt, queue, (u64::MAX, u64::MAX), (12, 13));
    expect_shown(rt, queue, (0, COUNT, None, None));
    few.saturating_add(all)
}

/// Begins a queue, offers and drains. Each call is made once more after a refusal. Returns the
/// number of refusals.
pub fn queue_refusals<T: Timer>(rt: &impl Abort, alloc: Global) -> u32 {
    let (mut queue, beginning) = begun_again::<T>(rt, alloc, &five(rt, alloc));
    expect_shown(rt, &queue, (5, 5, Some(numbered(rt, 4)), Some(96)));
    let offering = offers_many(rt, &mut queue);
    let draining = drains_twice(rt, &mut queue);
    drop(queue);
    beginning.saturating_add(offering).saturating_add(draining)
}
