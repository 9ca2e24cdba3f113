ghost use Rattle.std.specs.Prelude.{◌≡◌, []};
ghost use Rattle.rb_ledger.specs.Totals.{nothing};

use rb_delayed::{Element, Payload};
use rb_kept::{CallFault, Kept, Outcome};
use rb_ledger::{Tally, Totals};
use rb_lock::{Pass, Shared};
use rb_queue::{Ask, Audit, Draft, Reply};
use rb_timer::{ListTimer, Timer};
use std::alloc::{AllocError, Global};
use std::fmt::Debug;
use std::process::Abort;
use std::sync::Wait;
use std::sync::atomic::{AtomicU64, Ordering};
use std::thread::yield_now;

pub type ListShared = Shared<ListTimer>;

pub type ListPass = Pass<ListTimer>;

/// Opens a shared queue with room for `capacity` calls, and returns it with its first pass. Asserts
/// that there is memory for it.
pub fn expect_opened<T: Timer>(
    rt: &impl Abort,
    alloc: Global,
    capacity: u64,
) -> (Shared<T>, Pass<T>)
    ensures { result.1.table ≡ result.0 }
{
    let Ok((kept, tally)) = Kept::new(alloc, capacity) else {
        rt.abort()
    };
    expect_shared(rt, alloc, kept, tally)
}

/// Shares a kept queue that has had no calls. Asserts that there is memory for it.
pub fn expect_shared<T: Timer>(
    rt: &impl Abort,
    alloc: Global,
    kept: Kept<T>,
    tally: Tally,
) -> (Shared<T>, Pass<T>)
    requires history { kept.history ≡ [] }
    requires tally { tally ≡ nothing }
    ensures { result.1.table ≡ result.0 }
{
    let Ok(opened) = Shared::open(alloc, kept, tally) else {
        rt.abort()
    };
    opened
}

/// Closes a queue with the pass into which all others are folded. Asserts that this is not refused.
pub fn expect_closed<T: Timer, R: Wait + Abort>(
    rt: &R,
    shared: Shared<T>,
    folded: Pass<T>,
) -> (Kept<T>, Tally, Audit)
    requires { folded.table ≡ shared }
{
    let Ok(closed) = shared.close(rt, folded) else {
        rt.abort()
    };
    closed
}

/// Does the same, and returns the audit of the run alone.
pub fn expect_audit<T: Timer, R: Wait + Abort>(rt: &R, shared: Shared<T>, folded: Pass<T>) -> Audit
    requires { folded.table ≡ shared }
{
    let (_, _, audit) = expect_closed(rt, shared, folded);
    audit
}

/// Makes a call, and asserts how it ends.
pub fn expect_call<T: Timer, R: Wait + Abort>(
    rt: &R,
    shared: &Shared<T>,
    pass: &mut Pass<T>,
    asked: u64,
    ask: Ask,
    wanted: Result<Outcome, CallFault>,
)
    requires { pass.old.table ≡ shared.now }
    ensures { pass.new.table ≡ pass.old.table }
{
    let outcome = shared.call(rt, pass, asked, ask);
    expect_same(rt, outcome, wanted);
}

/// Splits off a new pass, and asserts that its name is `name`.
pub fn split_off<T: Timer, R: Wait + Abort>(
    rt: &R,
    shared: &Shared<T>,
    pass: &mut Pass<T>,
    name: u64,
) -> Pass<T>
    requires { pass.old.table ≡ shared.now }
    ensures first { pass.new.table ≡ pass.old.table }
    ensures second { result.table ≡ pass.old.table }
{
    let split = shared.split(rt, pass).ok().expect(rt, "a name is left");
    expect_same(rt, split.name(), name);
    split
}

// Comparisons are functions without clauses, so tests that call them have nothing to prove.

pub fn expect(rt: &impl Abort, holds: bool) {
    assert!(rt; holds);
}

pub fn expect_same<V: PartialEq + Debug + Drop>(rt: &impl Abort, found: V, wanted: V) {
    assert_eq!(rt; found, wanted);
}

/// Asserts what threads have given.
pub fn expect_given(rt: &impl Abort, given: Result<Vec<u64>, AllocError>, wanted: &[u64]) {
    let given = given.ok().expect(rt, "memory for what threads give");
    assert_eq!(rt; given.as_slice(), wanted);
}

pub fn expect_drained(rt: &impl Abort, outcome: Result<Outcome, CallFault>) {
    assert!(rt; matches!(outcome, Ok(Outcome::Done(Reply::Drained(_)))));
}

pub fn payload(rt: &impl Abort) -> Payload {
    Payload::new(b"a").ok().expect(rt, "a payload")
}

pub fn draft(rt: &impl Abort, expiry: u64) -> Draft {
    Draft::first(expiry, payload(rt))
}

/// Returns a first offer, of an element with expiry `expiry`.
pub fn offer(rt: &impl Abort, expiry: u64) -> Ask {
    Ask::Offer(draft(rt, expiry))
}

/// Returns the element that a first offer becomes.
pub fn element(rt: &impl Abort, id: u64, expiry: u64) -> Element {
    Element {
        id,
        expiry,
        origin: id,
        first: expiry,
        attempt: 1,
        payload: payload(rt),
    }
}

/// Returns how a call ends that is answered with `reply`.
pub fn done(reply: Reply) -> Result<Outcome, CallFault> {
    Ok(Outcome::Done(reply))
}

/// Returns how a first offer ends, if the element gets id `id`.
pub fn offered(rt: &impl Abort, id: u64, expiry: u64) -> Result<Outcome, CallFault> {
    done(Reply::Offered(element(rt, id, expiry)))
}

pub fn totals(calls: u64, offered: u64, given: u64) -> Totals {
    Totals {
        calls,
        offered,
        given,
    }
}

/// Returns the audit of a run that began and ended with an empty queue, and gave all its elements.
pub fn all_given(calls: u64, elements: u64) -> Audit {
    Audit {
        calls,
        offered: elements,
        given: elements,
        removed: 0,
        cleared: 0,
        left: 0,
        opening: 0,
    }
}

pub fn later(expiry: Option<u64>) -> Result<Outcome, CallFault> {
    Ok(Outcome::Later(expiry))
}

/// Waits until `count`, which another thread raises, is more than `than`.
pub fn await_more(rt: &impl Wait, count: &AtomicU64, than: u64) {
    for _ in rt.forever() {
        if count.load(Ordering::SeqCst) > than {
            return;
        }
        yield_now();
    }
    unreachable!()
}
