ghost use Rattle.std.specs.Prelude.{◌≡◌, ◌<◌, [], IfOk, IfErr, OnErr, MatchResult};
ghost use Rattle.rb_lock.specs.Parts.{all_parts};
ghost use Rattle.rb_queue.specs.declared.opening.Opening.{Opening};
ghost use Rattle.rb_serving.specs.DoorSteps.{Gathers, all_steps};
ghost use Rattle.rb_serving.specs.Serving.{EndsRecorded, IsOpened, IsReport, IsServersRun};
ghost use Rattle.rb_serving.specs.Terms.{terms_of};
ghost use Rattle.rb_serving.specs.Visits.{Satisfies};

use crate::beginning::Recording;
use crate::decision::{Decided, Decider, Deciding};
use crate::door::Door;
use crate::serve_report::ServeReport;
use crate::served_queue::ServedQueue;
use crate::service::Service;
use crate::visit_counts::VisitCounts;
use crate::workers::serve_all;
use rb_blocking::{Bell, Clock};
use rb_ending::{BrokerFault, NoRecorder, Recorder};
use rb_lock::{Pass, Shared};
use rb_options::ServerRunOptions;
use rb_protocol::Recipient;
use rb_session::{Delivery, HandsOn};
use rb_timer::Timer;
use std::alloc::Global;
use std::marker::Brand;
use std::sync::ledger::Blank;
use std::sync::{OnceLock, Wait};
use std::thread::Threads;
use std::time;

/// Serves the visits of a door over one queue until it has no more: each worker serves one visit
/// after the other, through a pass of its own.
///
/// All waits read the same clock. Each reply is written when its request is served; after a write
/// that failed, no further line of that visit is served. The history that comes back is legal and
/// has exactly the workers' calls, which are the calls of the sessions that each served until the
/// door had no more; the counts are those of their visits, none counted twice. Each worker takes the
/// memory of its sessions before anybody is let in; later only offers and drains take memory.
pub fn serve_door<
    T: Timer + Send,
    D: Door + Drop + Send,
    C: Clock + Sync,
    R: Threads + Wait + time::Clock + Sync,
>(
    rt: &R,
    alloc: Global,
    door: D,
    clock: &C,
    options: &ServerRunOptions,
    queue: ServedQueue<T>,
) -> (D, Result<ServeReport<T>, BrokerFault>)
where
    D::Writer: Recipient<Pass<T>>,
    requires splits { D.may_split door options.now.workers 0 }
    requires honest { Satisfies
        (terms_of D.Reader.Read D.Writer.Recipient D.Gate.Gate C.Clock clock.now options.now.policy Delivery.AtOnce queue.shared) D.awaits D.demands }
    ensures served { (opening : Opening) → IsOpened opening options.now queue.shared queue.pass → IfOk result.1 (λ report. (run : IsServersRun
        (terms_of D.Reader.Read D.Writer.Recipient D.Gate.Gate C.Clock clock.now options.now.policy Delivery.AtOnce queue.shared)
        opening options.now report) × Gathers D.has_joined door (all_steps run.logs) result.0) }
    ensures unused { OnErr result.1 (Gathers D.has_joined door [] result.0) }
    ensures fault { IfErr result.1 (λ fault. fault ≡ BrokerFault.Worker) }
{
    let at_once = Delivery::AtOnce;
    let (door, _, served) = serve_delivering(
        rt, alloc, door, clock, options, at_once, queue, NoRecorder,
    );
    (door, served)
}

/// Serves the visits of a door like `serve_door`, but gathers the replies of each: its writer gets
/// them before each read, before a request waits, and at the end.
///
/// A write that fails may lose the replies to lines that were served, at most 64 KiB of them. All
/// those lines are in the history.
///
/// The recorder begins once all workers have been started, before anybody is let in. If a worker can't be
/// started, nobody is let in and the recorder is as it was. If it can't begin, nobody is let in, and the
/// fault is `WriteHistory`.
pub fn serve_door_gathered<
    T: Timer + Send,
    D: Door + Drop + Send,
    C: Clock + Sync,
    B: Recorder + Drop,
    R: Threads + Wait + time::Clock + Sync,
>(
    rt: &R,
    alloc: Global,
    door: D,
    clock: &C,
    options: &ServerRunOptions,
    queue: ServedQueue<T>,
    recorder: B,
) -> (D, B, Result<ServeReport<T>, BrokerFault>)
where
    D::Writer: Recipient<Pass<T>>,
    requires splits { D.may_split door options.now.workers 0 }
    requires honest { Satisfies
        (terms_of D.Reader.Read D.Writer.Recipient D.Gate.Gate C.Clock clock.now options.now.policy (Delivery.Gathered HandsOn.BeforeReadsAndWaits) queue.shared) D.awaits D.demands }
    ensures served { (opening : Opening) → IsOpened opening options.now queue.shared queue.pass → IfOk result.2 (λ report. (run : IsServersRun
        (terms_of D.Reader.Read D.Writer.Recipient D.Gate.Gate C.Clock clock.now options.now.policy (Delivery.Gathered HandsOn.BeforeReadsAndWaits) queue.shared)
        opening options.now report) × Gathers D.has_joined door (all_steps run.logs) result.0) }
    ensures unused { OnErr result.2 (Gathers D.has_joined door [] result.0) }
    ensures recorder { MatchResult result.2 (λ _. B.has_begun recorder result.1)
        (EndsRecorded B.has_failed recorder result.1) }
{
    let delivery = Delivery::Gathered(HandsOn::BeforeReadsAndWaits);
    serve_delivering(rt, alloc, door, clock, options, delivery, queue, recorder)
}

// Serves the visits, whose replies are written when `delivery` says so.
fn serve_delivering<
    T: Timer + Send,
    D: Door + Drop + Send,
    C: Clock + Sync,
    B: Recorder + Drop,
    R: Threads + Wait + time::Clock + Sync,
>(
    rt: &R,
    alloc: Global,
    door: D,
    clock: &C,
    options: &ServerRunOptions,
    delivery: Delivery,
    queue: ServedQueue<T>,
    recorder: B,
) -> (D, B, Result<ServeReport<T>, BrokerFault>)
where
    D::Writer: Recipient<Pass<T>>,
    requires splits { D.may_split door options.now.workers 0 }
    requires honest { Satisfies
        (terms_of D.Reader.Read D.Writer.Recipient D.Gate.Gate C.Clock clock.now options.now.policy delivery queue.shared) D.awaits D.demands }
    ensures served { (opening : Opening) → IsOpened opening options.now queue.shared queue.pass → IfOk result.2 (λ report. (run : IsServersRun
        (terms_of D.Reader.Read D.Writer.Recipient D.Gate.Gate C.Clock clock.now options.now.policy delivery queue.shared)
        opening options.now report) × Gathers D.has_joined door (all_steps run.logs) result.0) }
    ensures unused { OnErr result.2 (Gathers D.has_joined door [] result.0) }
    ensures recorder { MatchResult result.2 (λ _. B.has_begun recorder result.1)
        (EndsRecorded B.has_failed recorder result.1) }
{
    decide_and_serve::<Brand, T, D, C, B, R>(
        rt,
        alloc,
        Blank::new(1),
        door,
        clock,
        options,
        delivery,
        queue,
        recorder,
    )
}

// The same, where the blank is that of the ledger by which the server decides whether its workers serve.
fn decide_and_serve<
    L: Deciding + Send + Sync,
    T: Timer + Send,
    D: Door + Drop + Send,
    C: Clock + Sync,
    B: Recorder + Drop,
    R: Threads + Wait + time::Clock + Sync,
>(
    rt: &R,
    alloc: Global,
    blank: Blank,
    door: D,
    clock: &C,
    options: &ServerRunOptions,
    delivery: Delivery,
    queue: ServedQueue<T>,
    recorder: B,
) -> (D, B, Result<ServeReport<T>, BrokerFault>)
where
    D::Writer: Recipient<Pass<T>>,
    requires name { blank.name ≡ L.name }
    requires parts { blank.parts ≡ L.parts }
    requires all { L.all ≡ L.parts }
    requires some { 0 < L.all }
    requires splits { D.may_split door options.now.workers 0 }
    requires honest { Satisfies
        (terms_of D.Reader.Read D.Writer.Recipient D.Gate.Gate C.Clock clock.now options.now.policy delivery queue.shared) D.awaits D.demands }
    ensures served { (opening : Opening) → IsOpened opening options.now queue.shared queue.pass → IfOk result.2 (λ report. (run : IsServersRun
        (terms_of D.Reader.Read D.Writer.Recipient D.Gate.Gate C.Clock clock.now options.now.policy delivery queue.shared)
        opening options.now report) × Gathers D.has_joined door (all_steps run.logs) result.0) }
    ensures unused { OnErr result.2 (Gathers D.has_joined door [] result.0) }
    ensures recorder { MatchResult result.2 (λ _. B.has_begun recorder result.1)
        (EndsRecorded B.has_failed recorder result.1) }
{
    let ServedQueue { shared, pass } = queue;
    let bell = Bell::new();
    let serves = OnceLock::new();
    let service = Service {
        alloc,
        shared: &shared,
        clock,
        bell: &bell,
        serves: &serves,
        policy: &options.policy,
        delivery,
    };
    let decider = Decider::new(blank);
    let start = Recording { decider, recorder };
    let (door, recorder, served) = serve_all::<T, D, C, Decided<L, B::Begun>, Recording<L, B>, R>(
        rt,
        &service,
        start,
        door,
        pass,
        options.workers,
    );
    match served {
        Ok((pass, visits)) => (door, recorder, Ok(report_of(rt, shared, pass, visits))),
        Err(fault) => (door, recorder, Err(fault)),
    }
}

// Ends the sharing by the one pass that is left, and reports what there was.
fn report_of<T: Timer, R: Wait>(
    rt: &R,
    shared: Shared<T>,
    pass: Pass<T>,
    visits: VisitCounts,
) -> ServeReport<T>
    requires pass { pass.table ≡ shared }
    requires whole { pass.parts ≡ all_parts }
    ensures { IsReport pass visits result }
{
    let Ok((kept, _, audit)) = shared.close(rt, pass) else {
        unreachable!()
    };
    ServeReport {
        sessions: visits.sessions,
        faults: visits.faults,
        lost: visits.lost,
        audit,
        kept,
    }
}
