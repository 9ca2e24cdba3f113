// Calls that are answered, would wait, or are refused.

ghost use Rattle.std.specs.Prelude.{◌≡◌};

use crate::tests::fixtures::{
    ListPass, ListShared, done, element, expect_call, expect_opened, expect_same, later, offer,
    offered,
};
use rb_kept::CallFault;
use rb_queue::{Ask, Reply};
use std::process::Abort;
use std::sync::Wait;

// Makes the four calls for which the history has room, and one more, which is refused. Also makes
// two takes that would wait, which are not counted as calls.
fn expect_answers<R: Wait + Abort>(rt: &R, shared: &ListShared, pass: &mut ListPass)
    requires { pass.old.table ≡ shared.now }
{
    expect_call(rt, shared, pass, 3, Ask::Take, later(None));
    expect_call(rt, shared, pass, 3, offer(rt, 9), offered(rt, 0, 9));
    expect_call(rt, shared, pass, 8, Ask::Take, later(Some(9)));
    expect_call(rt, shared, pass, 8, Ask::Size, done(Reply::Size(1)));
    let item = Reply::Item(element(rt, 0, 9));
    expect_call(rt, shared, pass, 9, Ask::Take, done(item));
    expect_call(rt, shared, pass, 0, Ask::Clear, done(Reply::Cleared));
    expect_same(rt, pass.calls(), 4);
    expect_call(rt, shared, pass, 0, Ask::Size, Err(CallFault::Full));
    expect_same(rt, pass.calls(), 4);
}

#[test]
fn answers_with_ample_memory(rt: HostRuntime) {
    let (shared, mut pass) = expect_opened(&rt, rt.alloc(), 4);
    expect_answers(&rt, &shared, &mut pass);
}
