// Desks over a shared queue, with clocks that stand still.

ghost use Rattle.std.specs.Prelude.{◌≡◌};

use crate::tests::devices::{FixedClock, ListPass, ListShared, expect_holds, expect_same};
use crate::tests::fixtures::{expect, expect_set, offer, opened, split};
use rb_blocking::{Bell, Gate, Rested, TurnGate};
use rb_kept::{CallFault, Kept};
use rb_lock::Pass;
use rb_queue::{Ask, Event};
use rb_retry::{Desk, DeskFault, Job, Policy, Verdict, done, fail, take};
use rb_shared_desk::SharedDesk;
use rb_timer::{ListTimer, Timer};
use std::alloc::Global;
use std::process::Abort;
use std::sync::Wait;
use std::sync::atomic::{AtomicBool, Ordering};
use std::thread::{Threads, join};
use std::time;

// A gate that ends each wait at once, and counts how often it is asked.
#[derive(Drop)]
struct CountingGate {
    asked: u64,
}

impl Gate for CountingGate {
    ghost answers = { λ gate turns goes_on. Unit {0} };

    ghost has_seen = { λ _ _. Unit {0} };

    fn turn(&mut self, _turns: u64) -> bool {
        self.asked = self.asked.saturating_add(1);
        false
    }

    fn rested<T: Timer>(&mut self, _rested: Rested, _pass: &Pass<T>) {}
}

// Makes calls at a desk and asserts their answers. The clock can't be set, and waits are made at
// its readings, whatever moment is handed in.
fn expect_calls<D: Desk>(rt: &impl Abort, desk: &mut D)
    ensures name { D.name (D.state desk.new) ≡ D.name (D.state desk.old) }
{
    expect_set(rt, desk, 9, None);
    expect_same(rt, desk.now(), 7);
    expect(rt, desk, 99, Ask::Take, Err(DeskFault::Stopped));
    offer(rt, desk, 3, 7);
    expect(rt, desk, 99, Ask::Take, Ok(Some(0)));
    let (start, timeout) = (7, 1);
    let ask = Ask::PollFor { start, timeout };
    expect(rt, desk, 99, ask, Err(DeskFault::Stopped));
    let timeout = 0;
    let ask = Ask::PollFor { start, timeout };
    expect(rt, desk, 99, ask, Ok(None));
    expect(rt, desk, 11, Ask::Size, Ok(Some(0)));
    expect(rt, desk, 12, Ask::Take, Err(DeskFault::Full));
    expect(rt, desk, 12, Ask::Clear, Err(DeskFault::Full));
}

// Asserts that the history has four events of seat 0, with their moments.
fn expect_history(rt: &impl Abort, history: &[Event]) {
    let wanted = [(0, 3, 3), (0, 7, 7), (0, 7, 7), (0, 11, 11)];
    expect_same(rt, history.len(), 4);
    for (event, wanted) in history.iter().zip(wanted) {
        expect_same(rt, (event.seat, event.asked, event.at), wanted);
    }
}

// Closes the shared queue and returns the kept one. Aborts unless `pass` made the whole history.
fn closed<R: Wait + Abort>(rt: &R, shared: ListShared, pass: ListPass) -> Kept<ListTimer>
    requires { pass.table ≡ shared }
{
    match shared.close(rt, pass) {
        Ok((kept, _, _)) => kept,
        Err(_) => rt.abort(),
    }
}

// Makes the calls of `expect_calls` at a desk over `pass`.
fn expect_run<R: Wait + time::Clock + Abort>(
    rt: &R,
    shared: &ListShared,
    pass: &mut ListPass,
    gate: &mut CountingGate,
    bell: &Bell,
)
    requires { pass.old.table ≡ shared.now }
    ensures { pass.new.table ≡ pass.old.table }
{
    let clock = FixedClock(7);
    let mut desk = SharedDesk::new(rt, shared, pass, &clock, gate, bell);
    expect_calls(rt, &mut desk);
}

// Only an offer rings. The gate is asked when a wait finds nothing and its time is not up: by the
// first take, and by the timed poll whose timeout is 1.
#[test]
fn a_shared_desk_waits_by_its_gate(rt: HostRuntime) {
    let (shared, mut pass) = opened(&rt, rt.alloc(), 4);
    let bell = Bell::new();
    let mut gate = CountingGate { asked: 0 };
    expect_run(&rt, &shared, &mut pass, &mut gate, &bell);
    expect_same(&rt, (gate.asked, bell.count(&rt), pass.calls()), (2, 1, 4));
    expect_history(&rt, closed(&rt, shared, pass).history());
}

// A gate that lets no wait begin, and would let it go on. It hears whether jobs are held.
#[derive(Drop)]
struct ClosedGate {
    holds: AtomicBool,
}

impl Gate for ClosedGate {
    ghost answers = { λ gate turns goes_on. Unit {0} };

    ghost has_seen = { λ _ _. Unit {0} };

    fn turn(&mut self, _turns: u64) -> bool {
        true
    }

    fn rested<T: Timer>(&mut self, _rested: Rested, _pass: &Pass<T>) {}

    fn begins(&self) -> bool {
        false
    }

    fn hear(&self, holds: bool, has_more: bool) {
        self.holds.store(holds && !has_more, Ordering::SeqCst);
    }
}

// An element that is expired is not taken by calls that may wait, and by others it is.
fn expect_kept_out<D: Desk>(rt: &impl Abort, desk: &mut D) {
    offer(rt, desk, 3, 7);
    expect(rt, desk, 7, Ask::Take, Err(DeskFault::Stopped));
    let (start, timeout) = (7, 0);
    let ask = Ask::PollFor { start, timeout };
    expect(rt, desk, 7, ask, Err(DeskFault::Stopped));
    expect(rt, desk, 7, Ask::Poll, Ok(Some(0)));
    desk.hear(true, false);
}

fn expect_closed<R: Wait + time::Clock + Abort>(
    rt: &R,
    shared: &ListShared,
    pass: &mut ListPass,
    gate: &mut ClosedGate,
    bell: &Bell,
)
    requires { pass.old.table ≡ shared.now }
{
    let clock = FixedClock(7);
    let mut desk = SharedDesk::new(rt, shared, pass, &clock, gate, bell);
    expect_kept_out(rt, &mut desk);
}

#[test]
fn a_gate_lets_no_wait_begin(rt: HostRuntime) {
    let (shared, mut pass) = opened(&rt, rt.alloc(), 4);
    let bell = Bell::new();
    let mut gate = ClosedGate {
        holds: AtomicBool::new(false),
    };
    expect_closed(&rt, &shared, &mut pass, &mut gate, &bell);
    expect_same(&rt, pass.calls(), 2);
    expect_holds(&rt, gate.holds.load(Ordering::SeqCst));
}

// What became of a failed job, in numbers: the id and the expiry of its next attempt, or its own
// id, with the fault if it was refused.
#[derive(Clone, Copy, Debug, PartialEq, Eq)]
enum End {
    Again(u64, u64),
    Dead(u64),
    Refused(u64, CallFault),
}

fn end_of(ended: Result<Verdict, (Job, CallFault)>) -> End {
    match ended {
        Ok(Verdict::Again(again)) => End::Again(again.id, again.expiry),
        Ok(Verdict::Dead(dead)) => End::Dead(dead.id),
        Err((job, fault)) => End::Refused(done(job).id, fault),
    }
}

fn two_attempts(rt: &impl Abort) -> Policy {
    Policy::fixed(10, 2).expect(rt, "a policy")
}

fn taken(rt: &impl Abort, job: Result<Job, DeskFault>) -> Job {
    job.ok().expect(rt, "a job")
}

// Takes a job, lets it fail at `now`, and asserts what became of it.
fn expect_end<D: Desk>(rt: &impl Abort, desk: &mut D, now: u64, wanted: End) {
    let job = taken(rt, take(desk));
    let ended = fail(desk, &two_attempts(rt), job, now);
    expect_same(rt, end_of(ended), wanted);
}

// What a thread or a pass does at its desk.
#[derive(Clone, Copy)]
enum Deed {
    // Offers an element that is expired at moment 7.
    Offer,
    // Takes a job, which is done then.
    Take,
    // Offers a job and lets it fail once.
    Fail,
    // Takes the next attempt of that job, and lets it fail, so that the job is dead.
    FailAgain,
}

fn does<D: Desk>(rt: &impl Abort, desk: &mut D, deed: Deed) {
    match deed {
        Deed::Offer => offer(rt, desk, 7, 7),
        Deed::Take => {
            done(taken(rt, take(desk)));
        }
        Deed::Fail => {
            offer(rt, desk, 0, 0);
            expect_end(rt, desk, 7, End::Again(1, 17));
            expect(rt, desk, 0, Ask::Take, Err(DeskFault::Stopped));
        }
        Deed::FailAgain => expect_end(rt, desk, 17, End::Dead(1)),
    }
}

// Does it at a desk over `pass`, which is returned.
fn does_at<R: Wait + time::Clock + Abort>(
    rt: &R,
    shared: &ListShared,
    mut pass: ListPass,
    clock: FixedClock,
    mut gate: TurnGate,
    bell: &Bell,
    deed: Deed,
) -> ListPass
    requires { pass.table ≡ shared.now }
{
    let mut desk = SharedDesk::new(rt, shared, &mut pass, &clock, &mut gate, bell);
    does(rt, &mut desk, deed);
    drop(desk);
    pass
}

// What one desk offers again, another takes.
#[test]
fn desks_share_their_jobs(rt: HostRuntime) {
    let (shared, mut first) = opened(&rt, rt.alloc(), 4);
    let second = split(&rt, &shared, &mut first);
    let bell = Bell::new();
    let first = does_at(
        &rt,
        &shared,
        first,
        FixedClock(7),
        TurnGate { limit: 0 },
        &bell,
        Deed::Fail,
    );
    let second = does_at(
        &rt,
        &shared,
        second,
        FixedClock(17),
        TurnGate { limit: 0 },
        &bell,
        Deed::FailAgain,
    );
    let counts = (first.calls(), second.calls(), bell.count(&rt));
    expect_same(&rt, counts, (3, 1, 2));
}

// One thread offers, and the other gets what it offers before its gate ends the wait.
fn expect_handed_over<R: Threads + Wait + time::Clock + Abort + Sync>(rt: &R, alloc: Global) {
    let (shared, mut first) = opened(rt, alloc, 2);
    let second = split(rt, &shared, &mut first);
    let (shared, bell) = (&shared, &Bell::new());
    let (clock, gate) = (FixedClock(7), TurnGate { limit: 1_000 });
    join(
        rt,
        || -> ListPass
            requires { second.table ≡ shared.now }
        { does_at(rt, shared, second, clock, gate, bell, Deed::Take) },
        || -> ListPass
            requires { first.table ≡ shared.now }
        { does_at(rt, shared, first, clock, gate, bell, Deed::Offer) },
    );
}

#[test]
fn a_wait_at_a_desk_gets_what_another_offers(rt: HostRuntime) {
    expect_handed_over(&rt, rt.alloc());
}
