// While there is memory, a call is answered, whatever the numbers in it are. A contract lets a body
// say at any time that memory ran out.

ghost use Rattle.std.specs.Prelude.{◌≡◌};

use crate::tests::fixtures::{
    done, element, expect_call, expect_drained, expect_opened, expect_same, offer, offered,
    payload, split_off,
};
use crate::tests::many_threads::{HeapPass, HeapShared};
use rb_delayed::{Element, GREATEST_ATTEMPT};
use rb_kept::{CallFault, Outcome};
use rb_queue::{Ask, Draft, Reply};
use std::alloc::Global;
use std::process::Abort;
use std::sync::Wait;

// The number of rounds of calls that one pass makes: many more than the first growths of anything
// take.
const ROUNDS: u64 = 5_000;

// The number of names, without the first pass's.
const NAMES: u64 = 65_535;

// Opens a queue with room for `capacity` calls, and makes one call.
fn expect_open(rt: &(impl Wait + Abort), alloc: Global, capacity: u64) {
    let (shared, mut pass): (HeapShared, HeapPass) = expect_opened(rt, alloc, capacity);
    expect_call(rt, &shared, &mut pass, 0, offer(rt, 9), offered(rt, 0, 9));
}

#[test]
fn opens_with_room_for_any_number_of_calls(rt: HostRuntime) {
    for capacity in [1, 1_000, 500_000, 500_001, 999_999, 1_000_000] {
        expect_open(&rt, rt.alloc(), capacity);
    }
}

// Returns an offer of the last attempt of a job whose first attempt had id 7 and expiry 8.
fn last_attempt(rt: &impl Abort, expiry: u64) -> Ask {
    Ask::Offer(Draft {
        expiry,
        origin: Some(7),
        first: Some(8),
        attempt: GREATEST_ATTEMPT,
        payload: payload(rt),
    })
}

// Returns how this offer ends, if the element gets id `id`.
fn last_offered(rt: &impl Abort, id: u64, expiry: u64) -> Result<Outcome, CallFault> {
    done(Reply::Offered(Element {
        id,
        expiry,
        origin: 7,
        first: 8,
        attempt: GREATEST_ATTEMPT,
        payload: payload(rt),
    }))
}

fn expect_drain<R: Wait + Abort>(rt: &R, shared: &HeapShared, pass: &mut HeapPass, asked: u64)
    requires { pass.old.table ≡ shared.now }
    ensures { pass.new.table ≡ pass.old.table }
{
    let drained = shared.call(rt, pass, asked, Ask::Drain(u64::MAX));
    expect_drained(rt, drained);
}

// Offers a first and a last attempt, and drains. `moment` pairs the moment of the three calls with
// the expiry of both elements. Their ids are `id` and the next one.
fn expect_moment<R: Wait + Abort>(
    rt: &R,
    shared: &HeapShared,
    pass: &mut HeapPass,
    id: u64,
    moment: (u64, u64),
)
    requires { pass.old.table ≡ shared.now }
    ensures { pass.new.table ≡ pass.old.table }
{
    let (asked, expiry) = moment;
    let last_id = id.saturating_add(1);
    expect_call(
        rt,
        shared,
        pass,
        asked,
        offer(rt, expiry),
        offered(rt, id, expiry),
    );
    let last = last_offered(rt, last_id, expiry);
    expect_call(rt, shared, pass, asked, last_attempt(rt, expiry), last);
    expect_drain(rt, shared, pass, asked);
}

#[test]
fn answers_up_to_the_greatest_moment(rt: HostRuntime) {
    let (shared, mut pass) = expect_opened(&rt, rt.alloc(), 20);
    expect_moment(&rt, &shared, &mut pass, 0, (0, 0));
    expect_moment(&rt, &shared, &mut pass, 2, (1, u64::MAX));
    expect_moment(&rt, &shared, &mut pass, 4, (1 << 63, 1 << 63));
    expect_moment(&rt, &shared, &mut pass, 6, (u64::MAX - 1, u64::MAX - 1));
    expect_moment(&rt, &shared, &mut pass, 8, (u64::MAX, u64::MAX));
    expect_same(&rt, pass.calls(), 15);
}

// Offers the element with id `id`, and drains it. The id is also its expiry and the moment of both
// calls.
fn expect_round<R: Wait + Abort>(rt: &R, shared: &HeapShared, pass: &mut HeapPass, id: u64)
    requires { pass.old.table ≡ shared.now }
    ensures { pass.new.table ≡ pass.old.table }
{
    expect_call(rt, shared, pass, id, offer(rt, id), offered(rt, id, id));
    expect_drain(rt, shared, pass, id);
}

fn expect_rounds<R: Wait + Abort>(rt: &R, shared: &HeapShared, pass: &mut HeapPass)
    requires { pass.old.table ≡ shared.now }
    ensures { pass.new.table ≡ pass.old.table }
{
    for id in 0..ROUNDS {
        expect_round(rt, shared, pass, id);
    }
}

// Offers `ROUNDS` elements that all stand at the same time. Their ids go on from those of the
// rounds.
fn expect_standing<R: Wait + Abort>(rt: &R, shared: &HeapShared, pass: &mut HeapPass)
    requires { pass.old.table ≡ shared.now }
    ensures { pass.new.table ≡ pass.old.table }
{
    for id in ROUNDS..2 * ROUNDS {
        expect_call(rt, shared, pass, id, offer(rt, id), offered(rt, id, id));
    }
}

#[test]
fn answers_after_thousands_of_calls(rt: HostRuntime) {
    let (shared, mut pass) = expect_opened(&rt, rt.alloc(), 4 * ROUNDS);
    expect_rounds(&rt, &shared, &mut pass);
    expect_standing(&rt, &shared, &mut pass);
    let head = Reply::Head(element(&rt, ROUNDS, ROUNDS));
    expect_call(&rt, &shared, &mut pass, 0, Ask::Peek, done(head));
    expect_drain(&rt, &shared, &mut pass, 2 * ROUNDS);
    expect_same(&rt, pass.calls(), 3 * ROUNDS + 2);
}

// Splits off a pass with name `name`, makes a round with it, and folds it back into `first`.
fn expect_pass<R: Wait + Abort>(rt: &R, shared: &HeapShared, first: &mut HeapPass, name: u64)
    requires { first.old.table ≡ shared.now }
    ensures { first.new.table ≡ first.old.table }
{
    let mut other = split_off(rt, shared, first, name);
    expect_round(rt, shared, &mut other, name.saturating_sub(1));
    shared.fold(first, other);
}

fn expect_passes<R: Wait + Abort>(rt: &R, shared: &HeapShared, first: &mut HeapPass)
    requires { first.old.table ≡ shared.now }
    ensures { first.new.table ≡ first.old.table }
{
    for name in 1..=NAMES {
        expect_pass(rt, shared, first, name);
    }
}

#[test]
fn answers_each_pass(rt: HostRuntime) {
    let (shared, mut first) = expect_opened(&rt, rt.alloc(), 2 * NAMES);
    expect_passes(&rt, &shared, &mut first);
    expect_same(&rt, first.calls(), 2 * NAMES);
}
