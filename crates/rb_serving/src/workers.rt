ghost use Rattle.std.specs.Prelude.{◌≡◌, ◌≤◌, ℕ, [], List, true, false, is_ok, IfErr, IfOk, OnErr, MatchResult};
ghost use Rattle.rb_serving.specs.DoorSteps.{DoorStep, Gathers};
ghost use Rattle.rb_serving.specs.Serving.{GathersWorkers, IsWorkerResult};
ghost use Rattle.rb_serving.specs.Terms.{service_terms};
ghost use Rattle.rb_serving.specs.Visits.{IsUnused, Satisfies};

use crate::beginning::Begin;
use crate::decision::Decision;
use crate::door::Door;
use crate::service::Service;
use crate::visit_counts::VisitCounts;
use crate::worker::work_with_all;
use rb_blocking::Clock;
use rb_ending::BrokerFault;
use rb_lock::Pass;
use rb_protocol::Recipient;
use rb_session::SessionRoom;
use rb_timer::Timer;
use std::snapshot::Snapshot;
use std::sync::{OnceToken, Wait};
use std::thread::{Promise, PromisedHandle, Scope, Threads};
use std::{thread, time};

// What a worker's thread gives: its pass, which served visits of this service at an entrance and nothing else, their
// counts, and the entrance, at which nothing else happened. If the workers don't serve, as the token shows, then
// the pass as it was given and an entrance at which nothing happened.
#[derive(Drop)]
struct OfWorker<'a, T: Timer, C: Clock, V> {
    service: &'a Service<'a, T, C, V>,
    // The pass that it was given.
    start: Snapshot<Pass<T>>,
}

impl<'a, T: Timer, D: Door, C: Clock, V: Decision> Promise<
    (Pass<T>, VisitCounts, D, OnceToken<'a, V>),
> for OfWorker<'a, T, C, V>
where
    D::Writer: Recipient<Pass<T>>,
{
    ghost kept_by = { λ promise worked. (worked.0.table ≡ promise.service.now.shared.now)
        × (worked.0.parts ≡ promise.start.value.parts)
        × (worked.3.of ≡ promise.service.now.serves.now.id)
        × (V.serves worked.3.value ≡ true → (log : List (DoorStep D.Reader D.Writer D.Gate)) × D.has_seen worked.2 log
        × IsWorkerResult (service_terms D.Reader.Read D.Writer.Recipient D.Gate.Gate C.Clock promise.service.now)
        promise.start.value.capacity promise.start.value.opening log worked.0 worked.1)
        × (V.serves worked.3.value ≡ false → (worked.0 ≡ promise.start.value) × D.has_seen worked.2 []) };
}

/// Runs this many workers at once, and folds the pass of each into this one.
///
/// Each has a pass and an entrance of its own, split off these. Once all have been started, it begins, and then they
/// serve. If one can't be started, or it can't begin, those that were started leave without having served, and it waits
/// for them: nothing happened at any entrance then.
pub(crate) fn serve_all<
    T: Timer + Send,
    D: Door + Drop + Send,
    C: Clock + Sync,
    V: Decision + Send + Sync,
    S: Begin<V> + Drop,
    R: Threads + Wait + time::Clock + Sync,
>(
    rt: &R,
    service: &Service<'_, T, C, V>,
    start: S,
    door: D,
    pass: Pass<T>,
    count: u64,
) -> (D, S::Rest, Result<(Pass<T>, VisitCounts), BrokerFault>)
where
    D::Writer: Recipient<Pass<T>>,
    requires decides { S.may_decide }
    requires pass { pass.table ≡ service.now.shared.now }
    requires splits { (least : ℕ) × D.may_split door count least × (least ≤ pass.noted) }
    requires honest { Satisfies
        (service_terms D.Reader.Read D.Writer.Recipient D.Gate.Gate C.Clock service.now) D.awaits D.demands }
    ensures folds { IfOk result.2 (λ served. GathersWorkers
        (service_terms D.Reader.Read D.Writer.Recipient D.Gate.Gate C.Clock service.now)
        D.has_joined count door pass result.0 served.0 served.1) }
    ensures unused { OnErr result.2 (Gathers D.has_joined door [] result.0) }
    ensures began { MatchResult result.2 (λ _. S.has_begun start result.1) (S.has_failed start result.1) }
{
    thread::scope(
        thread::scope_env(),
        rt,
        move |scope| -> (D, S::Rest, Result<(Pass<T>, VisitCounts), BrokerFault>)
            requires { S.may_decide × (pass.table ≡ service.now.shared.now)
                × ((least : ℕ) × D.may_split door count least × (least ≤ pass.noted)) × Satisfies
                (service_terms D.Reader.Read D.Writer.Recipient D.Gate.Gate C.Clock service.now) D.awaits D.demands }
            ensures { IfOk result.2 (λ served. GathersWorkers
                (service_terms D.Reader.Read D.Writer.Recipient D.Gate.Gate C.Clock service.entry.now)
                D.has_joined count door pass result.0 served.0 served.1)
                × OnErr result.2 (Gathers D.has_joined door [] result.0)
                × MatchResult result.2 (λ _. S.has_begun start result.1) (S.has_failed start result.1) }
        {
            let (door, rest, served, _) = start_all(rt, scope, service, start, door, pass, count);
            (door, rest, served)
        },
    )
}

// Starts this many workers, one after the other, lets them serve, waits for each, and folds its pass into this one.
fn start_all<
    's,
    E,
    T: Timer + Send + 's,
    D: Door + Drop + Send + 's,
    C: Clock + Sync + 's,
    V: Decision + Send + Sync + 's,
    S: Begin<V>,
    R: Threads + Wait + time::Clock + Sync + 's,
>(
    rt: &'s R,
    scope: &'s Scope<'s, E>,
    service: &'s Service<'s, T, C, V>,
    start: S,
    mut door: D,
    mut pass: Pass<T>,
    count: u64,
) -> (
    D,
    S::Rest,
    Result<(Pass<T>, VisitCounts), BrokerFault>,
    OnceToken<'s, V>,
)
where
    D::Writer: Recipient<Pass<T>>,
    requires decides { S.may_decide }
    requires pass { pass.table ≡ service.now.shared.now }
    requires splits { (least : ℕ) × D.may_split door count least × (least ≤ pass.noted) }
    requires honest { Satisfies
        (service_terms D.Reader.Read D.Writer.Recipient D.Gate.Gate C.Clock service.now) D.awaits D.demands }
    ensures folds { IfOk result.2 (λ served. GathersWorkers
        (service_terms D.Reader.Read D.Writer.Recipient D.Gate.Gate C.Clock service.now)
        D.has_joined count door pass result.0 served.0 served.1) }
    ensures unused { OnErr result.2 (Gathers D.has_joined door [] result.0) }
    ensures token { result.3.of ≡ service.now.serves.now.id }
    ensures serve { V.serves result.3.value ≡ is_ok result.2 }
    ensures began { MatchResult result.2 (λ _. S.has_begun start result.1) (S.has_failed start result.1) }
{
    if count == 0 {
        let (begun, token, rest) = start.begin(rt, service.serves);
        if let Err(fault) = begun {
            return (door, rest, Err(fault), token);
        }
        return (door, rest, Ok((pass, VisitCounts::default())), token);
    }
    let Ok(child) = service.shared.split(rt, &mut pass) else {
        let (token, rest) = start.give_up(rt, service.serves);
        return (door, rest, Err(BrokerFault::Worker), token);
    };
    let entrance = door.split(&child);
    let (started, start) = match start_worker(rt, scope, service, start, entrance, child) {
        Ok(started) => started,
        Err((entrance, rest, token)) => {
            door.join(entrance);
            return (door, rest, Err(BrokerFault::Worker), token);
        }
    };
    let (mut door, rest, others, token) = start_all(
        rt,
        scope,
        service,
        start,
        door,
        pass,
        count - 1,
    );
    let (done, counts, entrance, own) = started.join(rt);
    token.agrees(&own);
    door.join(entrance);
    let (mut pass, more) = match others {
        Ok(folded) => folded,
        Err(fault) => return (door, rest, Err(fault), token),
    };
    service.shared.fold(&mut pass, done);
    (door, rest, Ok((pass, more.with(counts))), token)
}

// Starts a worker for this pass at this entrance, with the memory for its sessions. If it can't be started, all leave,
// and the entrance is given back.
fn start_worker<
    's,
    E,
    T: Timer + Send + 's,
    D: Door + Drop + Send + 's,
    C: Clock + Sync + 's,
    V: Decision + Send + Sync + 's,
    S: Begin<V>,
    R: Threads + Wait + time::Clock + Sync + 's,
>(
    rt: &'s R,
    scope: &'s Scope<'s, E>,
    service: &'s Service<'s, T, C, V>,
    start: S,
    entrance: D,
    child: Pass<T>,
) -> Result<
    (
        PromisedHandle<(Pass<T>, VisitCounts, D, OnceToken<'s, V>), OfWorker<'s, T, C, V>>,
        S,
    ),
    (D, S::Rest, OnceToken<'s, V>),
>
where
    D::Writer: Recipient<Pass<T>>,
    requires decides { S.may_decide }
    requires pass { child.table ≡ service.now.shared.now }
    requires unused { IsUnused child }
    requires unseen { D.has_seen entrance [] }
    requires ready { D.is_ready entrance child }
    requires honest { Satisfies
        (service_terms D.Reader.Read D.Writer.Recipient D.Gate.Gate C.Clock service.now) D.awaits D.demands }
    ensures service { IfOk result (λ started. started.0.promise.service.now ≡ service.now) }
    ensures given { IfOk result (λ started. started.0.promise.start.value ≡ child) }
    ensures start { IfOk result (λ started. started.1 ≡ start) }
    ensures unused { IfErr result (λ left. D.has_seen left.0 []) }
    ensures failed { IfErr result (λ left. S.has_failed start left.1 BrokerFault.Worker) }
    ensures token { IfErr result (λ left. left.2.of ≡ service.now.serves.now.id) }
    ensures leave { IfErr result (λ left. V.serves left.2.value ≡ false) }
{
    let Ok(room) = SessionRoom::new(service.alloc, service.delivery) else {
        let (token, rest) = start.give_up(rt, service.serves);
        return Err((entrance, rest, token));
    };
    let promise = OfWorker {
        service,
        start: Snapshot::of(&child),
    };
    match scope.spawn_with(
        promise,
        move || -> (Pass<T>, VisitCounts, D, OnceToken<'_, V>)
            requires { (room.delivery ≡ service.now.delivery) × (child.table ≡ service.now.shared.now) × IsUnused child
                × D.has_seen entrance [] × D.is_ready entrance child × Satisfies
                (service_terms D.Reader.Read D.Writer.Recipient D.Gate.Gate C.Clock service.now) D.awaits D.demands }
            ensures { (result.0.table ≡ service.entry.now.shared.now) × (result.0.parts ≡ child.parts)
                × (result.3.of ≡ service.entry.now.serves.now.id)
                × (V.serves result.3.value ≡ true → (log : List (DoorStep D.Reader D.Writer D.Gate)) × D.has_seen result.2 log
                × IsWorkerResult
                (service_terms D.Reader.Read D.Writer.Recipient D.Gate.Gate C.Clock service.entry.now)
                child.capacity child.opening log result.0 result.1)
                × (V.serves result.3.value ≡ false → (result.0 ≡ child) × D.has_seen result.2 []) }
        { work_with_all(rt, service, room, entrance, child) },
    ) {
        Ok(started) => Ok((started, start)),
        Err(refused) => {
            let (token, rest) = start.give_up(rt, service.serves);
            // What the thread would have done: it leaves, and gives its entrance back.
            let (_, _, entrance, own) = call_here(refused.value);
            token.agrees(&own);
            Err((entrance, rest, token))
        }
    }
}

// Calls in this thread what another would have called.
fn call_here<T, F: FnOnce() -> T + Drop>(f: F) -> T
    requires { F.pre f }
    ensures { F.post f result }
{
    f()
}
