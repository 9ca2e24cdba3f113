// Every name, and the split after the last one, which is refused.

ghost use Rattle.std.specs.Prelude.{◌≡◌};

use crate::tests::fixtures::{ListPass, ListShared, expect_opened, expect_same, split_off};
use rb_lock::SplitFault;
use std::process::Abort;
use std::sync::Wait;

// Splits off the pass with name `name`, and folds it back into `first`.
fn expect_name<R: Wait + Abort>(rt: &R, shared: &ListShared, first: &mut ListPass, name: u64)
    requires { first.old.table ≡ shared.now }
    ensures { first.new.table ≡ first.old.table }
{
    let other = split_off(rt, shared, first, name);
    shared.fold(first, other);
}

fn expect_names<R: Wait + Abort>(rt: &R, shared: &ListShared, first: &mut ListPass)
    requires { first.old.table ≡ shared.now }
    ensures { first.new.table ≡ first.old.table }
{
    for name in 1..65_536 {
        expect_name(rt, shared, first, name);
    }
}

fn expect_no_name<R: Wait + Abort>(rt: &R, shared: &ListShared, first: &mut ListPass)
    requires { first.old.table ≡ shared.now }
{
    let refused = shared.split(rt, first).err();
    expect_same(rt, refused, Some(SplitFault::Names));
    expect_same(rt, first.name(), 0);
    expect_same(rt, first.calls(), 0);
}

#[test]
fn gives_each_name_once(rt: HostRuntime) {
    let (shared, mut first) = expect_opened(&rt, rt.alloc(), 1);
    expect_names(&rt, &shared, &mut first);
    expect_no_name(&rt, &shared, &mut first);
}
