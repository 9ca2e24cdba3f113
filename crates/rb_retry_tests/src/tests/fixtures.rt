ghost use Rattle.std.specs.Prelude.{◌≡◌, []};
ghost use Rattle.rb_ledger.specs.Totals.{nothing};

use crate::tests::devices::{ListPass, ListShared, expect_holds, expect_same};
use rb_delayed::Payload;
use rb_kept::Kept;
use rb_ledger::Tally;
use rb_lock::Shared;
use rb_queue::{Ask, Draft, Reply};
use rb_retry::{Desk, DeskFault};
use rb_timer::Timer;
use std::alloc::Global;
use std::process::Abort;
use std::sync::Wait;

// Each queue is made once more if memory is refused, since `dev/refuse_allocations` refuses the
// allocations of fixtures too.

/// Makes a kept queue with room for `calls` calls, and tries once more if memory is refused.
/// Returns it with its tally.
pub fn kept<T: Timer>(rt: &impl Abort, alloc: Global, calls: u64) -> (Kept<T>, Tally)
    ensures history { result.0.history ≡ [] }
    ensures tally { result.1 ≡ nothing }
{
    match Kept::new(alloc, calls) {
        Ok(made) => made,
        Err(_) => Kept::new(alloc, calls).ok().expect(rt, "a kept queue"),
    }
}

/// Opens a shared queue with room for `calls` calls, and returns it with its first pass.
pub fn opened(rt: &impl Abort, alloc: Global, calls: u64) -> (ListShared, ListPass)
    ensures { result.1.table ≡ result.0 }
{
    let (kept, tally) = kept(rt, alloc, calls);
    match Shared::open(alloc, kept, tally) {
        Ok(opened) => opened,
        Err((kept, tally, _)) => Shared::open(alloc, kept, tally)
            .ok()
            .expect(rt, "a shared queue"),
    }
}

/// Splits a further pass off.
pub fn split<R: Wait + Abort>(rt: &R, shared: &ListShared, pass: &mut ListPass) -> ListPass
    requires { pass.old.table ≡ shared.now }
    ensures first { pass.new.table ≡ pass.old.table }
    ensures second { result.table ≡ pass.old.table }
{
    let Ok(other) = shared.split(rt, pass) else {
        rt.abort()
    };
    other
}

/// Returns the payload that each element carries.
pub fn payload(rt: &impl Abort) -> Payload {
    Payload::new(b"a").ok().expect(rt, "a payload")
}

/// Offers an element that expires at `expiry`.
pub fn offer<D: Desk>(rt: &impl Abort, desk: &mut D, asked: u64, expiry: u64)
    ensures name { D.name (D.state desk.new) ≡ D.name (D.state desk.old) }
{
    let offered = desk.call(asked, Ask::Offer(Draft::first(expiry, payload(rt))));
    expect_holds(rt, offered.is_ok());
}

/// Returns the outcome of a call in short: the id of an element that was taken, a count, `None` for
/// any other reply, or the fault.
fn number_of(reply: &Result<Reply, DeskFault>) -> Result<Option<u64>, DeskFault> {
    match reply {
        Ok(Reply::Item(element)) => Ok(Some(element.id)),
        Ok(Reply::Size(count)) => Ok(Some(*count)),
        Ok(_) => Ok(None),
        Err(fault) => Err(*fault),
    }
}

/// Makes a call, and asserts its outcome, as `number_of` shortens it.
pub fn expect<D: Desk>(
    rt: &impl Abort,
    desk: &mut D,
    asked: u64,
    ask: Ask,
    number: Result<Option<u64>, DeskFault>,
)
    ensures name { D.name (D.state desk.new) ≡ D.name (D.state desk.old) }
{
    let reply = desk.call(asked, ask);
    expect_same(rt, number_of(&reply), number);
}

/// Sets a desk's clock, and asserts the answer.
pub fn expect_set<D: Desk>(rt: &impl Abort, desk: &mut D, moment: u64, wanted: Option<u64>)
    ensures name { D.name (D.state desk.new) ≡ D.name (D.state desk.old) }
{
    let set = desk.set(moment);
    expect_same(rt, set, wanted);
}
