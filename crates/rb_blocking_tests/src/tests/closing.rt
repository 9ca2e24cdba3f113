// Two passes, one of which offers and the other polls. A first closing is refused, and a second one
// is not.

ghost use Rattle.std.specs.Prelude.{◌≡◌};

use crate::tests::fixtures::{
    ListPass, ListShared, all_given, done, element, expect_call, expect_closed, expect_opened,
    expect_same, offer, offered, split_off, totals,
};
use rb_kept::Kept;
use rb_ledger::Tally;
use rb_lock::CloseFault;
use rb_queue::{Ask, Audit, Reply};
use rb_timer::ListTimer;
use std::process::Abort;
use std::sync::Wait;

// Offers by one pass and polls by the other. Then the two meet.
fn call_and_meet<R: Wait + Abort>(
    rt: &R,
    shared: &ListShared,
    first: &mut ListPass,
    second: &mut ListPass,
)
    requires first { first.old.table ≡ shared.now }
    requires second { second.old.table ≡ shared.now }
    ensures first { first.new.table ≡ first.old.table }
    ensures second { second.new.table ≡ second.old.table }
{
    expect_call(rt, shared, first, 10, offer(rt, 10), offered(rt, 0, 10));
    let item = Reply::Item(element(rt, 0, 10));
    expect_call(rt, shared, second, 5, Ask::Poll, done(item));
    shared.meet(first, second);
}

// Closes with `pass`, which is refused, since a pass with a call is outside. Returns the queue and
// the pass that the closing hands back.
fn handed_back<R: Wait + Abort>(
    rt: &R,
    shared: ListShared,
    pass: ListPass,
) -> (ListShared, ListPass)
    requires { pass.table ≡ shared }
    ensures shared { result.0 ≡ shared }
    ensures pass { result.1.table ≡ shared }
{
    let refused = shared.close(rt, pass).err();
    let (shared, pass, fault) = refused.expect(rt, "a pass is outside");
    let wanted = CloseFault::NotAll(totals(1, 1, 0), totals(2, 1, 1));
    expect_same(rt, fault, wanted);
    (shared, pass)
}

fn expect_run(rt: &impl Abort, kept: &Kept<ListTimer>, tally: &Tally, audit: Audit) {
    expect_same(rt, audit, all_given(2, 1));
    expect_same(rt, tally.totals(), totals(2, 1, 1));
    expect_same(rt, kept.audit(), audit);
}

// Closes while one of the two passes is outside, and again once it has been folded.
fn fold_both<R: Wait + Abort>(rt: &R, shared: ListShared, first: ListPass, second: ListPass)
    requires first { first.table ≡ shared }
    requires second { second.table ≡ shared }
{
    let (shared, mut first) = handed_back(rt, shared, first);
    expect_same(rt, first.name(), 0);
    expect_same(rt, first.calls(), 1);
    expect_same(rt, second.calls(), 1);
    shared.fold(&mut first, second);
    expect_same(rt, first.calls(), 2);
    let (kept, tally, audit) = expect_closed(rt, shared, first);
    expect_run(rt, &kept, &tally, audit);
}

#[test]
fn closes_once_all_are_folded(rt: HostRuntime) {
    let (shared, mut first) = expect_opened(&rt, rt.alloc(), 10);
    let mut second = split_off(&rt, &shared, &mut first, 1);
    expect_same(&rt, first.name(), 0);
    call_and_meet(&rt, &shared, &mut first, &mut second);
    fold_both(&rt, shared, first, second);
}
