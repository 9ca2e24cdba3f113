// Each growth that a call at a desk may need, refused in turn. The deeds of a table are done in
// their order, each at a new desk, over a kept queue and over a shared one. A refused deed leaves
// everything that can be seen of the queue, its caller and the jobs as it was, and is done once
// more.

ghost use Rattle.std.specs.Prelude.{◌≡◌};

use crate::tests::devices::{FixedClock, ListPass, ListShared, expect_holds, expect_same};
use crate::tests::fixtures::{kept, opened, payload, split};
use rb_binary::BinaryTimer;
use rb_blocking::{Bell, TurnGate};
use rb_delayed::Element;
use rb_kept::Kept;
use rb_ledger::{Tally, Totals};
use rb_lock::CloseFault;
use rb_queue::{Act, Ask, Audit, Draft, Event, Reply};
use rb_retry::{
    Desk, DeskFault, Job, KeptDesk, Policy, Verdict, Work, WorkReport, drain, fail, poll,
};
use rb_shared_desk::SharedDesk;
use rb_timer::{ListTimer, Timer};
use std::alloc::Global;
use std::cell::{Cell, RefCell};
use std::iter::Rev;
use std::ops::Range;
use std::process::Abort;
use std::sync::Wait;
use std::time;

// The number of refusals that the test meets. `dev/refuse_allocations` sets 1 and refuses each
// allocation of the test in turn.
const REFUSALS: u32 = 0;

// The number of jobs, past several growths of slots, timer and directory.
const JOBS: u64 = 20;

// The number of calls that a queue has room for, more than are made.
const CALLS: u64 = 200;

// What a row does. A refused deed is answered `Memory`.
#[derive(Clone, Copy)]
enum Deed {
    // Offers the first attempt of a job.
    Offer,
    // Polls an element, which becomes the last job.
    Poll,
    // Lets the last job fail, so that its next attempt is offered.
    Fail,
    // Drains at most 30 elements by the desk's call.
    Drain,
    // Drains at most 50 elements as jobs, behind the one that was polled.
    Fetch,
}

// A deed, its moment, and what it gives: `count` elements with consecutive ids, the highest first and `id` last.
#[derive(Clone, Copy)]
struct Row {
    deed: Deed,
    moment: u64,
    id: u64,
    count: u64,
}

// The number of rows for one queue. The rows after them offer a worker's jobs to another queue.
const ROWS: u64 = 133;

// Returns the row at `place` of the table. Jobs 0 to 19 are fetched, each before the next is
// offered, and then they fail. So the first failure finds no element in the queue, the next finds
// one, and so on. After the next attempts of these jobs, elements 20 to 39, come elements 40 to 89,
// which leave before them.
fn row_of(place: u64) -> Row {
    let behind = place.saturating_sub(JOBS);
    let (deed, moment, id, count) = match place {
        0..40 if place % 2 == 0 => (Deed::Offer, 100, place / 2, 1),
        0..40 => (Deed::Poll, 100, place / 2, 1),
        40..60 => (Deed::Fail, 100, behind, 1),
        60..110 => (Deed::Offer, 100, behind, 1),
        110 => (Deed::Drain, 100, 60, 30),
        111 => (Deed::Poll, 100, 59, 1),
        112 => (Deed::Fetch, 100, 40, 19),
        113..133 => (Deed::Poll, 200, place.saturating_sub(93), 1),
        _ => (Deed::Offer, 100, place.saturating_sub(ROWS), 1),
    };
    Row {
        deed,
        moment,
        id,
        count,
    }
}

// Returns the ids of what a row gives, in their order.
fn ids_of(row: Row) -> Rev<Range<u64>> {
    (row.id..row.id.saturating_add(row.count)).rev()
}

// Returns element `id`. The later an element was first offered, the sooner it expires. Elements 20
// to 39 are the second attempts of jobs 19 to 0.
fn element(rt: &impl Abort, id: u64) -> Element {
    let is_retry = id >= JOBS && id < 2 * JOBS;
    let origin = if is_retry {
        39_u64.saturating_sub(id)
    } else {
        id
    };
    let first = 100_u64.saturating_sub(origin);
    let (expiry, attempt) = if is_retry {
        (first.saturating_add(20), 2)
    } else {
        (first, 1)
    };
    Element {
        id,
        expiry,
        origin,
        first,
        attempt,
        payload: payload(rt),
    }
}

fn first_offer(rt: &impl Abort, expiry: u64) -> Ask {
    Ask::Offer(Draft::first(expiry, payload(rt)))
}

fn expect_element(rt: &impl Abort, found: &Element, id: u64) {
    expect_same(rt, *found, element(rt, id));
}

fn expect_drained(rt: &impl Abort, reply: &Reply, row: Row) {
    match reply {
        Reply::Drained(items) => {
            let wanted = ids_of(row).map(|id| element(rt, id));
            expect_holds(rt, items.as_slice().iter().copied().eq(wanted));
        }
        _ => rt.abort(),
    }
}

// Asserts that the fetched jobs are behind the one that was polled before.
fn expect_jobs(rt: &impl Abort, jobs: &[Job], row: Row) {
    let count = row.count.saturating_add(1);
    let wanted = ids_of(Row { count, ..row }).map(|id| element(rt, id));
    expect_holds(rt, jobs.iter().map(|job| *job.element()).eq(wanted));
}

fn expect_ids(rt: &impl Abort, found: &[u64], row: Row) {
    expect_holds(rt, found.iter().copied().eq(ids_of(row)));
}

fn expect_event(rt: &impl Abort, event: &Event, row: Row) {
    let moments = (event.seat, event.asked, event.at);
    expect_same(rt, moments, (0, row.moment, row.moment));
    match (row.deed, &event.act) {
        (Deed::Offer | Deed::Fail, Act::Offer(found)) => expect_element(rt, found, row.id),
        (Deed::Poll, Act::Poll(found)) => expect_same(rt, *found, Some(row.id)),
        (Deed::Drain, Act::Drain { max: 30, ids }) => expect_ids(rt, ids.as_slice(), row),
        (Deed::Fetch, Act::Drain { max: 50, ids }) => expect_ids(rt, ids.as_slice(), row),
        _ => rt.abort(),
    }
}

// Asserts that the events are those of the rows from `first` on, where this queue begins.
fn expect_history(rt: &impl Abort, history: &[Event], first: u64) {
    let mut place = first;
    for event in history {
        expect_event(rt, event, row_of(place));
        place = place.saturating_add(1);
    }
}

fn two_attempts(rt: &impl Abort) -> Policy {
    Policy::fixed_rate(20, 2).expect(rt, "a policy")
}

fn keep(rt: &impl Abort, job: Job, jobs: &mut Vec<Job>) {
    jobs.push(job).ok().expect(rt, "room for a job");
}

fn last_of(rt: &impl Abort, jobs: &mut Vec<Job>) -> Job {
    jobs.pop().expect(rt, "a job")
}

// Does a row's deed at a desk, and asserts what it gives.
fn does<D: Desk>(
    rt: &impl Abort,
    desk: &mut D,
    row: Row,
    jobs: &mut Vec<Job>,
) -> Result<(), DeskFault>
    ensures name { D.name (D.state desk.new) ≡ D.name (D.state desk.old) }
{
    match row.deed {
        Deed::Offer => offers(rt, desk, row),
        Deed::Poll => polls(rt, desk, row, jobs),
        Deed::Fail => fails(rt, desk, row, jobs),
        Deed::Drain => drains(rt, desk, row),
        Deed::Fetch => fetches(rt, desk, row, jobs),
    }
}

fn offers<D: Desk>(rt: &impl Abort, desk: &mut D, row: Row) -> Result<(), DeskFault>
    ensures name { D.name (D.state desk.new) ≡ D.name (D.state desk.old) }
{
    let reply = desk.call(row.moment, first_offer(rt, element(rt, row.id).expiry))?;
    expect_same(rt, reply, Reply::Offered(element(rt, row.id)));
    Ok(())
}

fn polls<D: Desk>(
    rt: &impl Abort,
    desk: &mut D,
    row: Row,
    jobs: &mut Vec<Job>,
) -> Result<(), DeskFault>
    ensures name { D.name (D.state desk.new) ≡ D.name (D.state desk.old) }
{
    let job = poll(desk, row.moment)?.expect(rt, "a job");
    expect_element(rt, job.element(), row.id);
    keep(rt, job, jobs);
    Ok(())
}

fn drains<D: Desk>(rt: &impl Abort, desk: &mut D, row: Row) -> Result<(), DeskFault>
    ensures name { D.name (D.state desk.new) ≡ D.name (D.state desk.old) }
{
    let reply = desk.call(row.moment, Ask::Drain(30))?;
    expect_drained(rt, &reply, row);
    Ok(())
}

fn fetches<D: Desk>(
    rt: &impl Abort,
    desk: &mut D,
    row: Row,
    jobs: &mut Vec<Job>,
) -> Result<(), DeskFault>
    ensures name { D.name (D.state desk.new) ≡ D.name (D.state desk.old) }
{
    assert!(rt; jobs.len() <= 1 && jobs.capacity() >= 60);
    drain(desk, row.moment, 50, jobs)?;
    expect_jobs(rt, jobs, row);
    Ok(())
}

// Lets the last job fail. A job that is handed back becomes the last one again.
fn fails<D: Desk>(
    rt: &impl Abort,
    desk: &mut D,
    row: Row,
    jobs: &mut Vec<Job>,
) -> Result<(), DeskFault>
    ensures name { D.name (D.state desk.new) ≡ D.name (D.state desk.old) }
{
    match fail(desk, &two_attempts(rt), last_of(rt, jobs), row.moment) {
        Ok(verdict) => {
            expect_same(rt, verdict, Verdict::Again(element(rt, row.id)));
            Ok(())
        }
        Err((back, fault)) => {
            keep(rt, back, jobs);
            Err(DeskFault::from(fault))
        }
    }
}

// What can be seen of a queue and its caller. A refused deed leaves it as it was.
#[derive(Clone, Copy, Debug, PartialEq, Eq)]
enum Seen {
    Kept(Audit, Totals),
    // The number of calls of the pass, and of rings of the bell. The history is seen when the queue
    // is closed.
    Shared(u64, u64),
}

// What can be seen of the jobs, which a refused deed leaves as it was too: how many there are, and
// the element of the last.
type Held = (usize, Option<Element>);

fn held(jobs: &[Job]) -> Held {
    (jobs.len(), jobs.last().map(|job| *job.element()))
}

// A caller, who does each deed at a new desk.
trait Caller {
    fn does(&mut self, row: Row, jobs: &mut Vec<Job>) -> Result<(), DeskFault>;

    fn seen(&self) -> Seen;
}

fn does_kept<T: Timer>(
    rt: &impl Abort,
    kept: &mut Kept<T>,
    tally: &mut Tally,
    row: Row,
    jobs: &mut Vec<Job>,
) -> Result<(), DeskFault> {
    let mut desk = KeptDesk::new(kept, tally);
    does(rt, &mut desk, row, jobs)
}

fn works_off_kept<T: Timer>(rt: &impl Abort, kept: &mut Kept<T>, tally: &mut Tally) -> WorkReport {
    let mut desk = KeptDesk::new(kept, tally);
    expect_same(rt, desk.set(100), Some(100));
    works_off(rt, &mut desk, None::<KeptDesk<'_, T>>)
}

#[derive(Drop)]
struct KeptCaller<'a, R: Abort, T: Timer> {
    rt: &'a R,
    // The first row that is done at this queue.
    first: u64,
    kept: Kept<T>,
    tally: Tally,
}

impl<'a, R: Abort, T: Timer> KeptCaller<'a, R, T> {
    fn works_off(&mut self) -> WorkReport {
        works_off_kept(self.rt, &mut self.kept, &mut self.tally)
    }
}

impl<'a, R: Abort, T: Timer> Caller for KeptCaller<'a, R, T> {
    fn does(&mut self, row: Row, jobs: &mut Vec<Job>) -> Result<(), DeskFault> {
        does_kept(self.rt, &mut self.kept, &mut self.tally, row, jobs)
    }

    fn seen(&self) -> Seen {
        expect_history(self.rt, self.kept.history(), self.first);
        Seen::Kept(self.kept.audit(), self.tally.totals())
    }
}

#[derive(Drop)]
struct SharedCaller<'a, R: Wait + time::Clock + Abort> {
    rt: &'a R,
    shared: ListShared,
    pass: ListPass,
    bell: Bell,
    ghost of: { pass.table ≡ shared },
}

impl<'a, R: Wait + time::Clock + Abort> Caller for SharedCaller<'a, R> {
    fn does(&mut self, row: Row, jobs: &mut Vec<Job>) -> Result<(), DeskFault> {
        let (clock, mut gate) = (FixedClock(100), TurnGate { limit: 0 });
        let (rt, shared, bell) = (self.rt, &self.shared, &self.bell);
        let mut desk = SharedDesk::new(rt, shared, &mut self.pass, &clock, &mut gate, bell);
        does(rt, &mut desk, row, jobs)
    }

    fn seen(&self) -> Seen {
        Seen::Shared(self.pass.calls(), self.bell.count(self.rt))
    }
}

fn kept_caller<T: Timer, R: Abort>(rt: &R, alloc: Global, first: u64) -> KeptCaller<'_, R, T> {
    let (kept, tally) = kept(rt, alloc, CALLS);
    KeptCaller {
        rt,
        first,
        kept,
        tally,
    }
}

fn shared_caller<R: Wait + time::Clock + Abort>(rt: &R, alloc: Global) -> SharedCaller<'_, R> {
    let (shared, pass) = opened(rt, alloc, CALLS);
    let bell = Bell::new();
    SharedCaller {
        rt,
        shared,
        pass,
        bell,
    }
}

// Closes the queue. Returns the kept queue, the caller's share of its calls and the audit, or the
// fault.
fn closed<R: Wait + time::Clock + Abort>(
    caller: SharedCaller<'_, R>,
) -> Result<(Kept<ListTimer>, Tally, Audit), CloseFault> {
    let SharedCaller {
        rt,
        shared,
        pass,
        bell: _,
    } = caller;
    match shared.close(rt, pass) {
        Ok(closed) => Ok(closed),
        Err((_, _, fault)) => Err(fault),
    }
}

// Does a row's deed, and once more if it was refused. Returns the number of refusals.
fn does_at_last<C: Caller>(rt: &impl Abort, caller: &mut C, row: Row, jobs: &mut Vec<Job>) -> u32 {
    let before = (caller.seen(), held(jobs));
    match caller.does(row, jobs) {
        Ok(()) => 0,
        Err(fault) => {
            expect_same(rt, fault, DeskFault::Memory);
            expect_same(rt, (caller.seen(), held(jobs)), before);
            expect_same(rt, caller.does(row, jobs), Ok(()));
            1
        }
    }
}

// Does the deeds of `rows`. Returns the number of refusals.
fn does_all<C: Caller>(
    rt: &impl Abort,
    caller: &mut C,
    rows: Range<u64>,
    jobs: &mut Vec<Job>,
) -> u32 {
    let mut met = 0_u32;
    for place in rows {
        met = met.saturating_add(does_at_last(rt, caller, row_of(place), jobs));
    }
    met
}

// Makes room for the jobs, and tries once more if memory is refused.
fn room(rt: &impl Abort, alloc: Global) -> Vec<Job> {
    match Vec::with_capacity(alloc, 100) {
        Ok(jobs) => jobs,
        Err(_) => Vec::with_capacity(alloc, 100).ok().expect(rt, "room"),
    }
}

// Asserts what the deeds of all `ROWS` rows come to.
fn expect_all(rt: &impl Abort, history: &[Event], audit: Audit, totals: Totals) {
    expect_same(rt, history.len() as u64, ROWS);
    expect_history(rt, history, 0);
    let counts = (audit.calls, audit.offered, audit.given, audit.left);
    expect_same(rt, counts, (ROWS, 90, 90, 0));
    let shares = (totals.calls, totals.offered, totals.given);
    expect_same(rt, shares, (ROWS, 90, 90));
}

fn refused_at_kept<T: Timer>(rt: &impl Abort, alloc: Global) -> u32 {
    let mut caller = kept_caller::<T, _>(rt, alloc, 0);
    let met = does_all(rt, &mut caller, 0..ROWS, &mut room(rt, alloc));
    let (kept, tally) = (&caller.kept, &caller.tally);
    expect_all(rt, kept.history(), kept.audit(), tally.totals());
    met
}

fn refused_at_shared<R: Wait + time::Clock + Abort>(rt: &R, alloc: Global) -> u32 {
    let mut caller = shared_caller(rt, alloc);
    let met = does_all(rt, &mut caller, 0..ROWS, &mut room(rt, alloc));
    expect_same(rt, caller.bell.count(rt), 90);
    let Ok((kept, tally, audit)) = closed(caller) else {
        rt.abort()
    };
    expect_all(rt, kept.history(), audit, tally.totals());
    met
}

// Work that lets each job fail, and counts how often each was run. Before that it offers a filler,
// an element that expires only at the greatest moment, at a desk of its own, if it has one. So the
// next attempt of a job finds one element more in the queue than the job left there.
#[derive(Drop)]
struct Failing<D: Desk> {
    crowd: Option<RefCell<D>>,
    filler: Ask,
    runs: Cell<[u32; JOBS as usize]>,
}

impl<D: Desk> Failing<D> {
    // Offers a filler, and once more after a refusal, which is not counted.
    fn offer_filler(&self) {
        if let Some(crowd) = &self.crowd
            && let Ok(mut desk) = crowd.try_borrow_mut()
            && desk.call(100, self.filler).is_err()
        {
            let _ = desk.call(100, self.filler);
        }
    }
}

impl<D: Desk> Work for Failing<D> {
    ghost may = { λ work element answer. Unit {0} };

    fn run(&self, element: &Element) -> bool {
        self.offer_filler();
        let mut runs = self.runs.get();
        if let Some(count) = runs.get_mut(element.origin as usize) {
            *count = count.saturating_add(1);
        }
        self.runs.set(runs);
        false
    }
}

// Works the jobs off, while fillers are offered at the desk `crowd`, if there is one.
fn works_off<D: Desk, C: Desk + Drop>(rt: &impl Abort, desk: &mut D, crowd: Option<C>) -> WorkReport
    ensures name { D.name (D.state desk.new) ≡ D.name (D.state desk.old) }
{
    let work = Failing {
        crowd: crowd.map(RefCell::new),
        filler: first_offer(rt, u64::MAX),
        runs: Cell::new([0; JOBS as usize]),
    };
    let policy = Policy::fixed(0, 2).expect(rt, "a policy");
    let report = rb_retry::work(desk, &policy, &work);
    expect_report(rt, report, &work.runs.get());
    let fillers = if work.crowd.is_some() { report.runs } else { 0 };
    expect_fillers(rt, desk, fillers);
    report
}

// Asserts that what is left are the fillers, the elements that the work offered.
fn expect_fillers<D: Desk>(rt: &impl Abort, desk: &mut D, fillers: u64)
    ensures name { D.name (D.state desk.new) ≡ D.name (D.state desk.old) }
{
    let polled = desk.call(100, Ask::Poll);
    expect_same(rt, polled, Ok(Reply::Nothing));
    let size = desk.call(100, Ask::Size);
    expect_same(rt, size, Ok(Reply::Size(fillers)));
}

// Asserts that each job whose second attempt was refused was run once, and each other twice.
fn expect_report(rt: &impl Abort, report: WorkReport, runs: &[u32]) {
    let again = JOBS.saturating_sub(report.lost);
    let expected = WorkReport {
        runs: JOBS.saturating_add(again),
        dones: 0,
        agains: again,
        deads: again,
        lost: report.lost,
    };
    expect_same(rt, report, expected);
    expect_holds(rt, runs.iter().all(|&count| count == 1 || count == 2));
    let once = runs.iter().filter(|&&count| count == 1).count();
    expect_same(rt, once as u64, report.lost);
}

// Returns the totals of a run with `report` and `fillers` fillers. A refused offer is not in them.
fn totals_of(report: WorkReport, fillers: u64) -> Totals {
    let offered = JOBS.saturating_add(report.agains).saturating_add(fillers);
    Totals {
        calls: offered.saturating_add(report.runs).saturating_add(2),
        offered,
        given: report.runs,
    }
}

// Works the jobs off at a desk over a queue that is not shared. There are never more elements than
// at first, so no memory is taken and no job is lost. Returns how often an offer of a job was
// refused.
fn works_at_kept<T: Timer>(rt: &impl Abort, alloc: Global) -> u32 {
    let mut caller = kept_caller::<T, _>(rt, alloc, ROWS);
    let met = offers_jobs(rt, alloc, &mut caller);
    let report = caller.works_off();
    expect_same(rt, report.lost, 0);
    expect_same(rt, caller.tally.totals(), totals_of(report, 0));
    met
}

// Works the jobs off at a desk of the caller's pass, while fillers are offered at a desk of another
// pass.
fn worked_off_shared<R: Wait + time::Clock + Abort>(
    rt: &R,
    caller: &mut SharedCaller<'_, R>,
) -> WorkReport {
    let (shared, bell) = (&caller.shared, &caller.bell);
    let mut second = split(rt, shared, &mut caller.pass);
    let clock = FixedClock(100);
    let (mut gate, mut other) = (TurnGate { limit: 0 }, TurnGate { limit: 0 });
    let crowd = SharedDesk::new(rt, shared, &mut second, &clock, &mut other, bell);
    let mut desk = SharedDesk::new(rt, shared, &mut caller.pass, &clock, &mut gate, bell);
    works_off(rt, &mut desk, Some(crowd))
}

// Works the jobs off at a desk over a shared queue, and returns the number of refusals. A refused
// attempt loses its job. The totals of both passes, and those of the first, are those of the
// report.
fn works_at_shared<R: Wait + time::Clock + Abort>(rt: &R, alloc: Global) -> u32 {
    let mut caller = shared_caller(rt, alloc);
    let met = offers_jobs(rt, alloc, &mut caller);
    let report = worked_off_shared(rt, &mut caller);
    let (counted, booked) = (totals_of(report, 0), totals_of(report, report.runs));
    let fault = CloseFault::NotAll(counted, booked);
    expect_same(rt, closed(caller).err(), Some(fault));
    expect_holds(rt, report.lost <= 1);
    met.saturating_add(u32::from(report.lost == 1))
}

// Offers the jobs of a worker. Returns how often an offer was refused.
fn offers_jobs<C: Caller>(rt: &impl Abort, alloc: Global, caller: &mut C) -> u32 {
    let rows = ROWS..ROWS.saturating_add(JOBS);
    does_all(rt, caller, rows, &mut Vec::new(alloc))
}

#[test]
fn a_refusal_changes_nothing(rt: HostRuntime) {
    let alloc = rt.alloc();
    // The workers come first: the tool ends after several runs in a row that meet no refusal, and a
    // refused filler is not counted.
    let kept_worker = works_at_kept::<BinaryTimer>(&rt, alloc);
    let shared_worker = works_at_shared(&rt, alloc);
    let kept = refused_at_kept::<BinaryTimer>(&rt, alloc);
    let shared = refused_at_shared(&rt, alloc);
    let workers = kept_worker.saturating_add(shared_worker);
    expect_same(
        &rt,
        workers.saturating_add(kept).saturating_add(shared),
        REFUSALS,
    );
}
