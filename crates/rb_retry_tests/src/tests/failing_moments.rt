// The moment at which a worker's job fails, by a clock that goes on while the job runs.

ghost use Rattle.std.specs.Prelude.{◌≡◌};

use crate::tests::devices::{ListPass, ListShared, expect_same};
use crate::tests::fixtures::{offer, opened};
use rb_blocking::{Bell, Clock, TurnGate};
use rb_delayed::Element;
use rb_queue::{Ask, Reply};
use rb_retry::{Desk, DeskFault, Policy, Work, WorkReport};
use rb_shared_desk::SharedDesk;
use std::process::Abort;
use std::sync::Wait;
use std::sync::atomic::{AtomicU64, Ordering};
use std::time;

// The moment after the run, which begins at 0.
const AFTER: u64 = 100;

// A clock that reads the moment that it refers to.
#[derive(Drop)]
struct MovedClock<'a>(&'a AtomicU64);

impl<'a> Clock for MovedClock<'a> {
    ghost gives = { λ clock moment. Unit {0} };

    ghost reads = { λ _ _ _. Unit {0} };

    fn now(&self) -> u64 {
        self.0.load(Ordering::SeqCst)
    }

    fn now_for_try(&self, _tries: u64) -> u64 {
        self.now()
    }
}

// Work that lasts until the moment after the run, to which it moves the clock, and fails.
#[derive(Drop)]
struct LongWork<'a>(&'a AtomicU64);

impl<'a> Work for LongWork<'a> {
    ghost may = { λ work element answer. Unit {0} };

    fn run(&self, _element: &Element) -> bool {
        self.0.store(AFTER, Ordering::SeqCst);
        false
    }
}

// Returns when the element that a peek showed expires, or `None` if it showed none.
fn expiry_of(peeked: &Result<Reply, DeskFault>) -> Option<u64> {
    match peeked {
        Ok(Reply::Head(element)) => Some(element.expiry),
        _ => None,
    }
}

// Works off one job, whose next attempt expires 10 ns after it failed. Returns the worker's report,
// and when that attempt expires.
fn works_off<D: Desk>(
    rt: &impl Abort,
    desk: &mut D,
    moment: &AtomicU64,
) -> (WorkReport, Option<u64>)
    ensures name { D.name (D.state desk.new) ≡ D.name (D.state desk.old) }
{
    offer(rt, desk, 0, 0);
    let policy = Policy::fixed(10, 2).expect(rt, "a policy");
    let report = rb_retry::work(desk, &policy, &LongWork(moment));
    let peeked = desk.call(AFTER, Ask::Peek);
    (report, expiry_of(&peeked))
}

fn works_off_shared<R: Wait + time::Clock + Abort>(
    rt: &R,
    shared: &ListShared,
    pass: &mut ListPass,
) -> (WorkReport, Option<u64>)
    requires { pass.old.table ≡ shared.now }
{
    let (moment, bell, mut gate) = (AtomicU64::new(0), Bell::new(), TurnGate { limit: 0 });
    let clock = MovedClock(&moment);
    let mut desk = SharedDesk::new(rt, shared, pass, &clock, &mut gate, &bell);
    works_off(rt, &mut desk, &moment)
}

fn expect_again(rt: &impl Abort, found: (WorkReport, Option<u64>)) {
    let report = WorkReport {
        runs: 1,
        dones: 0,
        agains: 1,
        deads: 0,
        lost: 0,
    };
    expect_same(rt, found, (report, Some(AFTER.saturating_add(10))));
}

// If the job failed at the moment before its run, its next attempt would be due at once.
#[test]
fn a_job_fails_at_the_moment_after_its_run(rt: HostRuntime) {
    let (shared, mut pass) = opened(&rt, rt.alloc(), 10);
    expect_again(&rt, works_off_shared(&rt, &shared, &mut pass));
}
