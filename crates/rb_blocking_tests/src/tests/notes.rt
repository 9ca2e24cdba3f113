// Two passes, each of which hears a note of what the other has seen.

ghost use Rattle.std.specs.Prelude.{◌≡◌};

use crate::tests::fixtures::{
    ListPass, ListShared, all_given, done, element, expect_audit, expect_call, expect_opened,
    expect_same, offer, offered, split_off,
};
use rb_queue::{Ask, Reply};
use std::process::Abort;
use std::sync::Wait;

// One pass offers, and gives a note. The other hears it, polls, and gives one back.
fn call_and_tell<R: Wait + Abort>(
    rt: &R,
    shared: &ListShared,
    first: &mut ListPass,
    second: &mut ListPass,
)
    requires first { first.old.table ≡ shared.now }
    requires second { second.old.table ≡ shared.now }
    ensures first { first.new.table ≡ first.old.table }
    ensures second { second.new.table ≡ second.old.table }
{
    expect_call(rt, shared, first, 10, offer(rt, 10), offered(rt, 0, 10));
    let told = shared.note(first);
    shared.hear(second, told);
    let item = Reply::Item(element(rt, 0, 10));
    expect_call(rt, shared, second, 5, Ask::Poll, done(item));
    let answer = shared.note(second);
    shared.hear(first, answer);
}

#[test]
fn a_note_is_no_call_and_no_pass(rt: HostRuntime) {
    let (shared, mut first) = expect_opened(&rt, rt.alloc(), 10);
    let mut second = split_off(&rt, &shared, &mut first, 1);
    call_and_tell(&rt, &shared, &mut first, &mut second);
    shared.fold(&mut first, second);
    let audit = expect_audit(&rt, shared, first);
    expect_same(&rt, audit, all_given(2, 1));
}
