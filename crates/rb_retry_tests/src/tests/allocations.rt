// Calls that take no memory, at desks and through passes. Both tests of this file make the same
// things, and only `each_of_the_calls` makes the calls, so both have to allocate equally often.
// `dev/refuse_allocations` counts their allocations.

ghost use Rattle.std.specs.Prelude.{◌≡◌};

use crate::tests::devices::{FixedClock, ListPass, ListShared, expect_same};
use crate::tests::fixtures::{kept, offer, opened, split};
use rb_blocking::{Bell, Clock, MachineClock, TurnGate, WaitFault};
use rb_kept::Kept;
use rb_ledger::Tally;
use rb_lock::CloseFault;
use rb_queue::Ask;
use rb_retry::{Desk, DeskFault, Job, KeptDesk, Policy, Verdict, done, fail, poll, poll_for, take};
use rb_shared_desk::SharedDesk;
use rb_timer::ListTimer;
use std::alloc::Global;
use std::process::Abort;
use std::sync::Wait;
use std::time;

// The number of rounds, in each of which the calls are made.
const ROUNDS: u64 = 20;

// The number of elements of a queue, more than the calls of a desk or of a pass take out.
const ELEMENTS: u64 = 200;

// A moment at which all elements are expired.
const LATE: u64 = 1_000;

#[test]
fn none_of_the_calls(rt: HostRuntime) {
    expect_answers(&rt, rt.alloc(), 0);
}

#[test]
fn each_of_the_calls(rt: HostRuntime) {
    expect_answers(&rt, rt.alloc(), ROUNDS);
}

// The calls of a round at a shared queue: at a desk, by two passes, waits that are answered at
// once, and waits that are stopped.
#[derive(Clone, Copy)]
enum Calls {
    Desk,
    Passes,
    Waits,
    Stops,
}

// Makes the calls, in groups, and asserts that all were answered as they have to be. The things of
// a group are made before its first call. Each round of a group counts the right answers.
fn expect_answers<R: Wait + Abort + time::Clock>(rt: &R, alloc: Global, rounds: u64) {
    expect_same(rt, policies(rounds), rounds.saturating_mul(3));
    expect_same(rt, at_kept(rt, alloc, rounds), rights(rounds, 11));
    for (calls, count) in [
        (Calls::Desk, 11),
        (Calls::Passes, 10),
        (Calls::Waits, 4),
        (Calls::Stops, 3),
    ] {
        expect_same(
            rt,
            at_shared(rt, alloc, calls, rounds),
            rights(rounds, count),
        );
    }
    let (shared, pass) = opened(rt, alloc, 10);
    expect_same(rt, closed(rt, shared, pass, rounds), rounds.min(1));
}

// Returns the number of right answers at a queue: so many in each round, and that of a last clear.
fn rights(rounds: u64, count: u64) -> u64 {
    rounds.saturating_mul(count).saturating_add(rounds.min(1))
}

// Makes the rounds at a kept queue with elements.
fn at_kept<R: Abort>(rt: &R, alloc: Global, rounds: u64) -> u64 {
    let (mut kept, mut tally) = kept::<ListTimer>(rt, alloc, 10_000);
    kept_rounds(rt, &mut kept, &mut tally, rounds)
}

// Makes the rounds at a shared queue with elements, or without any for waits that are stopped.
fn at_shared<R: Wait + Abort + time::Clock>(
    rt: &R,
    alloc: Global,
    calls: Calls,
    rounds: u64,
) -> u64 {
    let (shared, mut pass) = opened(rt, alloc, 10_000);
    if !matches!(calls, Calls::Stops) {
        does_shared(rt, &shared, &mut pass, Deed::Offer);
    }
    shared_rounds(rt, &shared, &mut pass, calls, rounds)
}

fn count(answers: &[bool]) -> u64 {
    answers.iter().filter(|&&answer| answer).count() as u64
}

fn policies(rounds: u64) -> u64 {
    let mut right = 0_u64;
    for _ in 0..rounds {
        right = right.saturating_add(policy_round());
    }
    right
}

fn policy_round() -> u64 {
    count(&[
        Policy::fixed(5, 1).is_some(),
        Policy::fixed_rate(5, 1_000).is_some(),
        Policy::fixed(5, 0).is_none(),
    ])
}

fn offer_all<D: Desk>(rt: &impl Abort, desk: &mut D)
    ensures name { D.name (D.state desk.new) ≡ D.name (D.state desk.old) }
{
    for expiry in 0..ELEMENTS {
        offer(rt, desk, 0, expiry);
    }
}

// What is done at a new desk: all elements are offered, or the calls of a round are made, or what
// they have left is cleared.
#[derive(Clone, Copy)]
enum Deed {
    Offer,
    Round(u64),
    Clear,
}

// Does it at a desk, and returns the number of right answers.
fn does<D: Desk>(rt: &impl Abort, desk: &mut D, deed: Deed) -> u64
    ensures name { D.name (D.state desk.new) ≡ D.name (D.state desk.old) }
{
    match deed {
        Deed::Offer => {
            offer_all(rt, desk);
            0
        }
        Deed::Round(round) => desk_round(rt, desk, round),
        Deed::Clear => u64::from(answers(desk, Ask::Clear)),
    }
}

fn does_kept(rt: &impl Abort, kept: &mut Kept<ListTimer>, tally: &mut Tally, deed: Deed) -> u64 {
    let mut desk = KeptDesk::new(kept, tally);
    desk.set(LATE);
    does(rt, &mut desk, deed)
}

fn does_shared<R: Wait + Abort + time::Clock>(
    rt: &R,
    shared: &ListShared,
    pass: &mut ListPass,
    deed: Deed,
) -> u64
    requires { pass.old.table ≡ shared.now }
    ensures { pass.new.table ≡ pass.old.table }
{
    let (clock, mut gate, bell) = (FixedClock(LATE), TurnGate { limit: 0 }, Bell::new());
    let mut desk = SharedDesk::new(rt, shared, pass, &clock, &mut gate, &bell);
    does(rt, &mut desk, deed)
}

// Makes the calls of each round at a kept queue, and clears it. Returns the number of right
// answers.
fn kept_rounds(rt: &impl Abort, kept: &mut Kept<ListTimer>, tally: &mut Tally, rounds: u64) -> u64 {
    let mut right = does_kept(rt, kept, tally, Deed::Offer);
    for round in 0..rounds {
        right = right.saturating_add(does_kept(rt, kept, tally, Deed::Round(round)));
    }
    if rounds == 0 {
        return right;
    }
    right.saturating_add(does_kept(rt, kept, tally, Deed::Clear))
}

// Makes the calls of each round at a shared queue, and clears it. Returns the number of right
// answers.
fn shared_rounds<R: Wait + Abort + time::Clock>(
    rt: &R,
    shared: &ListShared,
    pass: &mut ListPass,
    calls: Calls,
    rounds: u64,
) -> u64
    requires { pass.old.table ≡ shared.now }
{
    let mut right = 0_u64;
    for round in 0..rounds {
        right = right.saturating_add(shared_round(rt, shared, pass, calls, round));
    }
    if rounds == 0 {
        return right;
    }
    right.saturating_add(does_shared(rt, shared, pass, Deed::Clear))
}

fn shared_round<R: Wait + Abort + time::Clock>(
    rt: &R,
    shared: &ListShared,
    pass: &mut ListPass,
    calls: Calls,
    round: u64,
) -> u64
    requires { pass.old.table ≡ shared.now }
    ensures { pass.new.table ≡ pass.old.table }
{
    match calls {
        Calls::Desk => does_shared(rt, shared, pass, Deed::Round(round)),
        Calls::Passes => pass_calls(rt, shared, pass, round),
        Calls::Waits => wait_calls(rt, shared, pass),
        Calls::Stops => stop_calls(rt, shared, pass),
    }
}

// Makes the calls of one round, and returns the number of right answers. Seven elements leave by
// fetches and calls, and one is removed.
fn desk_round<D: Desk>(rt: &impl Abort, desk: &mut D, round: u64) -> u64
    ensures name { D.name (D.state desk.new) ≡ D.name (D.state desk.old) }
{
    let (start, timeout) = (0, 5);
    let policy = Policy::fixed(5, 1).expect(rt, "a policy");
    let last = ELEMENTS.saturating_sub(1).saturating_sub(round);
    let answers = [
        desk.now() == LATE,
        ends(poll(desk, LATE)),
        ends(take(desk).map(Some)),
        ends(poll_for(desk, start, timeout)),
        dies(desk, &policy),
        answers(desk, Ask::Poll),
        answers(desk, Ask::Take),
        answers(desk, Ask::PollFor { start, timeout }),
        answers(desk, Ask::Peek),
        answers(desk, Ask::Remove(last)),
        answers(desk, Ask::Size),
    ];
    count(&answers)
}

fn answers<D: Desk>(desk: &mut D, ask: Ask) -> bool
    ensures name { D.name (D.state desk.new) ≡ D.name (D.state desk.old) }
{
    desk.call(LATE, ask).is_ok()
}

// Returns whether a job was fetched. If so, the job is done.
fn ends(fetched: Result<Option<Job>, DeskFault>) -> bool {
    match fetched {
        Ok(Some(job)) => {
            let expiry = job.element().expiry;
            done(job).expiry == expiry
        }
        _ => false,
    }
}

// Returns whether a job was fetched that is dead once it fails, since it was at its last attempt.
fn dies<D: Desk>(desk: &mut D, policy: &Policy) -> bool
    ensures name { D.name (D.state desk.new) ≡ D.name (D.state desk.old) }
{
    match poll(desk, LATE) {
        Ok(Some(job)) => is_dead(&fail(desk, policy, job, LATE)),
        _ => false,
    }
}

fn is_dead(failed: &Result<Verdict, (Job, rb_kept::CallFault)>) -> bool {
    matches!(failed, Ok(Verdict::Dead(_)))
}

fn is_answered<R: Wait>(rt: &R, shared: &ListShared, pass: &mut ListPass, ask: Ask) -> bool
    requires { pass.old.table ≡ shared.now }
    ensures { pass.new.table ≡ pass.old.table }
{
    shared.call(rt, pass, LATE, ask).is_ok()
}

// Makes the calls of a pass that is split in two and folded together again.
fn pass_calls<R: Wait + Abort>(rt: &R, shared: &ListShared, pass: &mut ListPass, round: u64) -> u64
    requires { pass.old.table ≡ shared.now }
    ensures { pass.new.table ≡ pass.old.table }
{
    let mut other = split(rt, shared, pass);
    let (start, timeout) = (0, 5);
    let last = ELEMENTS.saturating_sub(1).saturating_sub(round);
    let calls = pass.calls();
    let answers = [
        is_answered(rt, shared, &mut other, Ask::Poll),
        is_answered(rt, shared, pass, Ask::Take),
        is_answered(rt, shared, pass, Ask::PollFor { start, timeout }),
        is_answered(rt, shared, pass, Ask::Peek),
        is_answered(rt, shared, pass, Ask::Remove(last)),
        is_answered(rt, shared, pass, Ask::Size),
        pass.name() == 0 && other.name() > 0,
        other.calls() == 1,
        pass.calls() == calls.saturating_add(5),
    ];
    shared.meet(pass, &mut other);
    shared.fold(pass, other);
    count(&[pass.calls() == calls.saturating_add(6)]).saturating_add(count(&answers))
}

// Makes waits that are answered at once, and calls of a bell and of the machine's clock.
fn wait_calls<R: Wait + Abort + time::Clock>(
    rt: &R,
    shared: &ListShared,
    pass: &mut ListPass,
) -> u64
    requires { pass.old.table ≡ shared.now }
    ensures { pass.new.table ≡ pass.old.table }
{
    let (clock, mut gate, bell) = (FixedClock(LATE), TurnGate { limit: 0 }, Bell::new());
    let machine = MachineClock::new(rt);
    let before = machine.now();
    bell.ring(rt);
    let answers = [
        rb_blocking::take(rt, shared, pass, &clock, &mut gate, &bell).is_ok(),
        rb_blocking::poll_for(rt, shared, pass, &clock, &mut gate, &bell, 0, 5).is_ok(),
        bell.count(rt) == 1 && bell.rest(rt, 0) == 1,
        machine.now() >= before,
    ];
    count(&answers)
}

// Makes waits that are stopped, and a rest that no ring ends.
fn stop_calls<R: Wait + Abort + time::Clock>(
    rt: &R,
    shared: &ListShared,
    pass: &mut ListPass,
) -> u64
    requires { pass.old.table ≡ shared.now }
    ensures { pass.new.table ≡ pass.old.table }
{
    let (clock, mut gate, bell) = (FixedClock(LATE), TurnGate { limit: 1 }, Bell::new());
    let stopped = rb_blocking::take(rt, shared, pass, &clock, &mut gate, &bell);
    let polled = rb_blocking::poll_for(rt, shared, pass, &clock, &mut gate, &bell, LATE, 9);
    count(&[
        stopped == Err(WaitFault::Stopped),
        polled == Err(WaitFault::Stopped),
        bell.rest(rt, 0) == 0,
    ])
}

// Makes a closing that is refused, since a pass with a call is not folded in, and one that is not
// refused, if there are any rounds. Returns 1 if both were answered so, and otherwise 0.
fn closed<R: Wait + Abort>(rt: &R, shared: ListShared, pass: ListPass, rounds: u64) -> u64
    requires { pass.table ≡ shared }
{
    if rounds == 0 {
        return 0;
    }
    u64::from(closes_at_last(rt, shared, pass))
}

fn closes_at_last<R: Wait + Abort>(rt: &R, shared: ListShared, mut pass: ListPass) -> bool
    requires { pass.table ≡ shared }
{
    let mut other = split(rt, &shared, &mut pass);
    let answered = is_answered(rt, &shared, &mut other, Ask::Size);
    let (shared, mut pass) = handed_back(rt, shared, pass);
    shared.fold(&mut pass, other);
    answered && closes(rt, shared, pass)
}

// Makes a closing that is refused, and returns what it hands back.
fn handed_back<R: Wait + Abort>(
    rt: &R,
    shared: ListShared,
    pass: ListPass,
) -> (ListShared, ListPass)
    requires { pass.table ≡ shared }
    ensures shared { result.0 ≡ shared }
    ensures pass { result.1.table ≡ shared }
{
    match shared.close(rt, pass) {
        Err((shared, pass, CloseFault::NotAll(..))) => (shared, pass),
        _ => rt.abort(),
    }
}

fn closes(rt: &impl Wait, shared: ListShared, pass: ListPass) -> bool
    requires { pass.table ≡ shared }
{
    shared.close(rt, pass).is_ok()
}
