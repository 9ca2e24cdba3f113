// What becomes of jobs that a server's visits fail or leave, with a clock that always reads 7.

ghost use Rattle.std.specs.Prelude.{◌≤◌};

use crate::tests::devices::{
    GATHERED, Received, at_once, counted, expect_counts, expect_number, expect_text, planned,
};
use rb_options::ServerRunOptions;
use rb_retry::Policy;
use std::process::Abort;
use std::sync::atomic::AtomicU64;

fn options(rt: &impl Abort, calls: u64, policy: Option<Policy>) -> ServerRunOptions
    requires some { 1 ≤ calls }
    requires few { calls ≤ 1000000 }
{
    ServerRunOptions {
        workers: 1,
        calls,
        policy: policy.expect(rt, "a policy"),
    }
}

// With a period of 2 the second attempt expires at 5, and there is no third attempt. The second
// visit is given the job that the first visit holds at its end.
#[test]
fn jobs_come_back_by_the_policy(rt: HostRuntime) {
    let alloc = rt.alloc();
    let turns = AtomicU64::new(0);
    let (first, second) = (Received::none(alloc), Received::none(alloc));
    let lines = b"OFFERAT 3 a\nTAKE\nFAIL 0\nTAKE\nFAIL 1\nOFFERAT 4 b\nTAKE\n";
    let plans = [
        planned(at_once(lines), &first, &turns),
        planned(at_once(b"TAKE\nDONE 3\nQUIT\n"), &second, &turns),
    ];
    let options = options(&rt, 100, Policy::fixed_rate(2, 2));
    let counts = counted(&rt, alloc, GATHERED, &plans, &options);
    let replies =
        b"OFFERED 0 3\nITEM 0 3 1 a\nAGAIN 1 5\nITEM 1 5 2 a\nDEAD 1\nOFFERED 2 4\nITEM 2 4 1 b\n";
    expect_text(&rt, &first, replies);
    expect_text(&rt, &second, b"ITEM 3 6 2 b\nDONE 3\nBYE\n");
    expect_counts(&rt, counts, 2, 0, 0);
}

// There is no room for the calls that would offer the jobs again.
#[test]
fn lost_jobs_are_counted(rt: HostRuntime) {
    let alloc = rt.alloc();
    let turns = AtomicU64::new(0);
    let (first, second) = (Received::none(alloc), Received::none(alloc));
    let lines = b"OFFER 0 a\nOFFER 0 b\nTAKE\nTAKE\n";
    let plans = [
        planned(at_once(lines), &first, &turns),
        planned(at_once(b"SIZE\n"), &second, &turns),
    ];
    let options = options(&rt, 4, Policy::fixed(0, 2));
    let counts = counted(&rt, alloc, GATHERED, &plans, &options);
    let replies = b"OFFERED 0 7\nOFFERED 1 7\nITEM 0 7 1 a\nITEM 1 7 1 b\n";
    expect_text(&rt, &first, replies);
    expect_text(&rt, &second, b"ERR 6 full\n");
    expect_counts(&rt, counts, 2, 0, 2);
    expect_number(&rt, counts.audit.given, 2);
    expect_number(&rt, counts.audit.left, 0);
}
