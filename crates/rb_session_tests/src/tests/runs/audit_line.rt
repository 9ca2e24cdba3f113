use crate::tests::devices::{expect_made, expect_same};
use rb_ending::audit_line;
use rb_queue::Audit;
use std::alloc::Global;
use std::process::Abort;

fn expect_line(rt: &impl Abort, alloc: Global, audit: &Audit, wanted: &str) {
    let line = expect_made(rt, audit_line(alloc, audit));
    expect_same(rt, line.as_str(), wanted);
}

#[test]
fn the_audit_line_has_each_number(rt: HostRuntime) {
    let audit = Audit {
        calls: 1,
        offered: 20,
        given: 300,
        removed: 4000,
        cleared: 50_000,
        left: 0,
        opening: u64::MAX,
    };
    let wanted = "{\"calls\":1,\"cleared\":50000,\"given\":300,\"left\":0,\"offered\":20,\
        \"opening\":18446744073709551615,\"removed\":4000}\n";
    expect_line(&rt, rt.alloc(), &audit, wanted);
}
