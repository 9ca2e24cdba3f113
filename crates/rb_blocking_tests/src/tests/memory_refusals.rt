// Each growth that a call may need, refused in turn.

ghost use Rattle.std.specs.Prelude.{◌≡◌, []};
ghost use Rattle.rb_ledger.specs.Totals.{nothing};

use crate::tests::callers::{Caller, Counts, FixedClock};
use crate::tests::fixtures::{
    ListPass, ListShared, element, expect, expect_audit, expect_drained, expect_same,
    expect_shared, offer, offered, split_off, totals,
};
use rb_blocking::Bell;
use rb_delayed::Element;
use rb_kept::{CallFault, Kept, Outcome};
use rb_ledger::Tally;
use rb_lock::Shared;
use rb_queue::{Ask, Audit};
use rb_timer::ListTimer;
use std::alloc::Global;
use std::process::Abort;
use std::sync::Wait;
use std::time;

// The number of refusals that the test meets. `dev/refuse_allocations` sets 1 and refuses each
// allocation of the test in turn.
const REFUSALS: u32 = 0;

// The number of elements: enough for several growths of slots, timer and directory.
const MANY: u64 = 20;

// The number of calls for which a queue has room.
const CAPACITY: u64 = 2 * MANY;

// Makes a kept queue, and tries once more if memory is refused.
fn kept_at_last(rt: &impl Abort, alloc: Global) -> (Kept<ListTimer>, Tally)
    ensures history { result.0.history ≡ [] }
    ensures tally { result.1 ≡ nothing }
{
    match Kept::new(alloc, CAPACITY) {
        Ok(made) => made,
        Err(_) => Kept::new(alloc, CAPACITY).ok().expect(rt, "a kept queue"),
    }
}

fn expect_untouched(rt: &impl Abort, kept: &Kept<ListTimer>, tally: &Tally) {
    expect_same(rt, kept.history().len() as u64, 0);
    expect_same(rt, kept.capacity(), CAPACITY);
    expect_same(rt, tally.totals(), totals(0, 0, 0));
}

// Opens a shared queue. If memory is refused, asserts that what was handed back is untouched, and
// tries once more with it.
fn opened_at_last(rt: &impl Abort, alloc: Global, met: &mut u32) -> (ListShared, ListPass)
    ensures { result.1.table ≡ result.0 }
{
    let (kept, tally) = kept_at_last(rt, alloc);
    match Shared::open(alloc, kept, tally) {
        Ok(opened) => opened,
        Err((kept, tally, _)) => {
            *met = met.saturating_add(1);
            expect_untouched(rt, &kept, &tally);
            expect_shared(rt, alloc, kept, tally)
        }
    }
}

fn is_refused(outcome: &Result<Outcome, CallFault>) -> bool {
    matches!(outcome, Err(CallFault::Memory))
}

// Makes a call, and tries once more if memory is refused. Asserts that a refused call is not
// counted. Returns how the call ended.
fn ended_at_last<R: Wait + Abort>(
    rt: &R,
    shared: &ListShared,
    pass: &mut ListPass,
    ask: Ask,
    met: &mut u32,
) -> Result<Outcome, CallFault>
    requires { pass.old.table ≡ shared.now }
    ensures { pass.new.table ≡ pass.old.table }
{
    let calls = pass.calls();
    let again = ask;
    let outcome = shared.call(rt, pass, 9, ask);
    if !is_refused(&outcome) {
        return outcome;
    }
    *met = met.saturating_add(1);
    expect_same(rt, pass.calls(), calls);
    shared.call(rt, pass, 9, again)
}

fn expect_offer<R: Wait + Abort>(
    rt: &R,
    shared: &ListShared,
    pass: &mut ListPass,
    id: u64,
    met: &mut u32,
)
    requires { pass.old.table ≡ shared.now }
    ensures { pass.new.table ≡ pass.old.table }
{
    let outcome = ended_at_last(rt, shared, pass, offer(rt, 9), met);
    expect_same(rt, outcome, offered(rt, id, 9));
}

// Makes each kind of call that may need memory.
fn expect_growths<R: Wait + Abort>(rt: &R, shared: &ListShared, pass: &mut ListPass, met: &mut u32)
    requires { pass.old.table ≡ shared.now }
    ensures { pass.new.table ≡ pass.old.table }
{
    for id in 0..MANY {
        expect_offer(rt, shared, pass, id, met);
    }
    let drained = ended_at_last(rt, shared, pass, Ask::Drain(5), met);
    expect_drained(rt, drained);
}

fn expect_answer<R: Wait + Abort>(rt: &R, shared: &ListShared, pass: &mut ListPass, ask: Ask)
    requires { pass.old.table ≡ shared.now }
    ensures { pass.new.table ≡ pass.old.table }
{
    let outcome = shared.call(rt, pass, 9, ask);
    expect(rt, matches!(outcome, Ok(Outcome::Done(_))));
}

// Makes each kind of call that takes no memory.
fn expect_answers<R: Wait + Abort>(rt: &R, shared: &ListShared, pass: &mut ListPass)
    requires { pass.old.table ≡ shared.now }
    ensures { pass.new.table ≡ pass.old.table }
{
    expect_answer(rt, shared, pass, Ask::Size);
    expect_answer(rt, shared, pass, Ask::Peek);
    expect_answer(rt, shared, pass, Ask::Poll);
    expect_answer(rt, shared, pass, Ask::Take);
    let timed = Ask::PollFor {
        start: 0,
        timeout: 0,
    };
    expect_answer(rt, shared, pass, timed);
    expect_answer(rt, shared, pass, Ask::Remove(MANY));
    expect_answer(rt, shared, pass, Ask::Clear);
}

// From here on no memory is taken; if an allocation were refused, a call would fail.
fn split_and_fold<R: Wait + Abort>(rt: &R, shared: &ListShared, pass: &mut ListPass)
    requires { pass.old.table ≡ shared.now }
    ensures { pass.new.table ≡ pass.old.table }
{
    let mut other = split_off(rt, shared, pass, 1);
    expect_answers(rt, shared, &mut other);
    shared.meet(pass, &mut other);
    shared.fold(pass, other);
}

fn expect_counts(rt: &impl Abort, audit: Audit) {
    let counts = (audit.calls, audit.offered, audit.given, audit.cleared);
    expect_same(rt, counts, (28, 20, 8, 12));
}

// Makes an offer that rings, and tries once more if memory is refused. Asserts that a refused offer
// counts as no call and does not ring the bell.
fn rung_at_last<R: Wait + Abort>(
    rt: &R,
    caller: &mut Caller<'_>,
    met: &mut u32,
) -> Result<Element, CallFault> {
    let before = (caller.pass.calls(), caller.bell.count(rt));
    let offered = caller.offer(rt, 9, 9);
    if offered.is_ok() {
        return offered;
    }
    *met = met.saturating_add(1);
    expect_same(rt, offered, Err(CallFault::Memory));
    expect_same(rt, (caller.pass.calls(), caller.bell.count(rt)), before);
    caller.offer(rt, 9, 9)
}

// Offers all elements. Then takes them, which takes no memory, and returns the sum of their ids.
fn taken_ids<R: Wait + Abort + time::Clock>(rt: &R, caller: &mut Caller<'_>, met: &mut u32) -> u64 {
    for id in 0..MANY {
        let offered = rung_at_last(rt, caller, met);
        expect_same(rt, offered, Ok(element(rt, id, 9)));
    }
    expect_same(rt, caller.pass.calls(), MANY);
    expect_same(rt, caller.bell.count(rt), MANY);
    let mut sum: u64 = 0;
    for _ in 0..MANY {
        let taken = caller.take(rt, &FixedClock(9), 0);
        let id = taken.ok().expect(rt, "an element is expired").id;
        sum = sum.saturating_add(id);
    }
    expect_same(rt, caller.pass.calls(), 2 * MANY);
    sum
}

// Makes offers that ring, and waits for what was offered, at a queue of its own.
fn expect_rung<R: Wait + Abort + time::Clock>(rt: &R, alloc: Global, met: &mut u32) {
    let (shared, pass) = opened_at_last(rt, alloc, met);
    let (bell, counts) = (Bell::new(), Counts::new());
    let mut caller = Caller::new(&shared, &bell, &counts, pass);
    expect_same(rt, taken_ids(rt, &mut caller, met), 190);
}

#[test]
fn refusals_change_nothing(rt: HostRuntime) {
    let mut met = 0;
    let (shared, mut pass) = opened_at_last(&rt, rt.alloc(), &mut met);
    expect_growths(&rt, &shared, &mut pass, &mut met);
    split_and_fold(&rt, &shared, &mut pass);
    let audit = expect_audit(&rt, shared, pass);
    expect_counts(&rt, audit);
    expect_rung(&rt, rt.alloc(), &mut met);
    expect_same(&rt, met, REFUSALS);
}
