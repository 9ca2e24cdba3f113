ghost use Rattle.std.specs.Prelude.{◌≡◌};

use crate::tests::devices::expect_same;
use crate::tests::fixtures::{kept, offer};
use rb_delayed::Element;
use rb_retry::{Desk, KeptDesk, Policy, Work, WorkReport};
use rb_timer::ListTimer;
use std::alloc::Global;
use std::cell::Cell;
use std::process::Abort;

// Work that gives the same answer for each element.
#[derive(Drop)]
struct Always(bool);

impl Work for Always {
    ghost may = { λ work element answer. answer ≡ work.0 };

    fn run(&self, _element: &Element) -> bool {
        self.0
    }
}

/// The attempt at which each of three jobs is done, or `None` if it never is.
const DONE_AT: [Option<u32>; 3] = [Some(1), None, Some(2)];

// Work that does the three jobs, and counts how often each job and each element was run.
#[derive(Drop)]
struct Counting {
    by_job: Cell<[u64; 3]>,
    by_element: Cell<[u64; 6]>,
}

impl Counting {
    fn new() -> Counting {
        Counting {
            by_job: Cell::new([0; 3]),
            by_element: Cell::new([0; 6]),
        }
    }
}

impl Work for Counting {
    ghost may = { λ work element answer. Unit {0} };

    fn run(&self, element: &Element) -> bool {
        let (mut jobs, mut elements) = (self.by_job.get(), self.by_element.get());
        count(&mut jobs, element.origin);
        count(&mut elements, element.id);
        self.by_job.set(jobs);
        self.by_element.set(elements);
        DONE_AT.get(element.origin as usize) == Some(&Some(element.attempt))
    }
}

// Counts one more for `id`.
fn count(counts: &mut [u64], id: u64) {
    if let Some(count) = counts.get_mut(id as usize) {
        *count = count.saturating_add(1);
    }
}

// `count` jobs at moment 0, and how many attempts each has. No time passes between two attempts.
#[derive(Clone, Copy)]
struct Jobs {
    count: u64,
    attempts: u32,
}

fn policy(rt: &impl Abort, attempts: u32) -> Policy {
    Policy::fixed(0, attempts).expect(rt, "a policy")
}

fn worked_off<D: Desk, W: Work>(rt: &impl Abort, desk: &mut D, jobs: Jobs, work: &W) -> WorkReport {
    for _ in 0..jobs.count {
        offer(rt, desk, 0, 0);
    }
    rb_retry::work(desk, &policy(rt, jobs.attempts), work)
}

// Works the jobs off in a queue with room for `calls` calls, and returns the report.
fn report_of<W: Work>(
    rt: &impl Abort,
    alloc: Global,
    calls: u64,
    jobs: Jobs,
    work: &W,
) -> WorkReport {
    let (mut kept, mut tally) = kept::<ListTimer>(rt, alloc, calls);
    let mut desk = KeptDesk::new(&mut kept, &mut tally);
    worked_off(rt, &mut desk, jobs, work)
}

fn report(runs: u64, dones: u64, agains: u64, deads: u64, lost: u64) -> WorkReport {
    WorkReport {
        runs,
        dones,
        agains,
        deads,
        lost,
    }
}

// Works off one job whose runs all give `answer`, and asserts the report.
fn expect_always(
    rt: &impl Abort,
    alloc: Global,
    calls: u64,
    attempts: u32,
    answer: bool,
    wanted: WorkReport,
) {
    let jobs = Jobs { count: 1, attempts };
    expect_same(
        rt,
        report_of(rt, alloc, calls, jobs, &Always(answer)),
        wanted,
    );
}

#[test]
fn a_worker_counts_its_runs(rt: HostRuntime) {
    let alloc = rt.alloc();
    expect_always(&rt, alloc, 100, 3, false, report(3, 0, 2, 1, 0));
    expect_always(&rt, alloc, 100, 3, true, report(1, 1, 0, 0, 0));
    expect_always(&rt, alloc, 1, 3, true, report(0, 0, 0, 0, 0));
}

fn expect_counts(rt: &impl Abort, work: &Counting) {
    expect_same(rt, work.by_job.get(), [1, 3, 2]);
    expect_same(rt, work.by_element.get(), [1; 6]);
}

// Six elements are taken: those of the three jobs, two more attempts of the second, and one of the
// third.
#[test]
fn each_element_is_run_once(rt: HostRuntime) {
    let work = Counting::new();
    let jobs = Jobs {
        count: 3,
        attempts: 3,
    };
    let found = report_of(&rt, rt.alloc(), 100, jobs, &work);
    expect_same(&rt, found, report(6, 2, 3, 1, 0));
    expect_counts(&rt, &work);
}

// The offer and the take fill the history. If an attempt is left, its offer is then refused. A
// failure at the last attempt needs no event.
#[test]
fn a_refused_failure_is_lost_and_not_dead(rt: HostRuntime) {
    let alloc = rt.alloc();
    expect_always(&rt, alloc, 2, 2, false, report(1, 0, 0, 0, 1));
    expect_always(&rt, alloc, 2, 1, false, report(1, 0, 0, 1, 0));
}
