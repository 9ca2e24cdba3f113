ghost use Rattle.std.specs.Prelude.{◌≡◌, List, [], ◌∷◌, ◌++◌, true, false};
ghost use Rattle.rb_serving.specs.DoorSteps.{DoorStep, Left};
ghost use Rattle.rb_serving.specs.Serving.{IsWorked, IsWorkerResult};
ghost use Rattle.rb_serving.specs.Terms.{service_terms};
ghost use Rattle.rb_serving.specs.Visits.{IsUnused, LeftVisit, Satisfies};
ghost use Rattle.rb_session.specs.Served.{Served};

use crate::decision::{Decision, wait_for_decision};
use crate::door::{Door, DoorFault};
use crate::service::Service;
use crate::visit::Visit;
use crate::visit_counts::VisitCounts;
use rb_blocking::Clock;
use rb_lock::Pass;
use rb_protocol::{LimitedReader, LimitedWriter, Recipient, WriterStatus};
use rb_session::{Ended, SessionFault, SessionRoom, run_in};
use rb_shared_desk::SharedDesk;
use rb_timer::Timer;
use std::sync::{OnceToken, Wait};
use std::time;

/// Waits until all workers have been started, and then serves like `work`; or leaves without having served,
/// because one can't be started. The token shows which.
pub(crate) fn work_with_all<'a, T: Timer, D: Door, C: Clock, V: Decision, R: Wait + time::Clock>(
    rt: &R,
    service: &Service<'a, T, C, V>,
    room: SessionRoom,
    door: D,
    pass: Pass<T>,
) -> (Pass<T>, VisitCounts, D, OnceToken<'a, V>)
where
    D::Writer: Recipient<Pass<T>>,
    requires room { room.delivery ≡ service.now.delivery }
    requires pass { pass.table ≡ service.now.shared.now }
    requires unused { IsUnused pass }
    requires unseen { D.has_seen door [] }
    requires ready { D.is_ready door pass }
    requires honest { Satisfies
        (service_terms D.Reader.Read D.Writer.Recipient D.Gate.Gate C.Clock service.now) D.awaits D.demands }
    ensures pass { result.0.table ≡ service.now.shared.now }
    ensures parts { result.0.parts ≡ pass.parts }
    ensures token { result.3.of ≡ service.now.serves.now.id }
    ensures served { V.serves result.3.value ≡ true → (log : List (DoorStep D.Reader D.Writer D.Gate))
        × D.has_seen result.2 log × IsWorkerResult
        (service_terms D.Reader.Read D.Writer.Recipient D.Gate.Gate C.Clock service.now)
        pass.capacity pass.opening log result.0 result.1 }
    ensures left { V.serves result.3.value ≡ false → (result.0 ≡ pass) × D.has_seen result.2 [] }
{
    let token = wait_for_decision(rt, service.serves);
    if service.serves.value(&token).serves() {
        let (pass, counts, door) = work(rt, service, room, door, pass);
        (pass, counts, door, token)
    } else {
        (pass, VisitCounts::default(), door, token)
    }
}

/// Serves one visit after the other at this entrance, until the door has no more, each in the same memory.
///
/// The pass makes all their calls and no others. It waits for visits, and while another pass calls.
pub(crate) fn work<T: Timer, D: Door, C: Clock, V, R: Wait + time::Clock>(
    rt: &R,
    service: &Service<'_, T, C, V>,
    mut room: SessionRoom,
    mut door: D,
    mut pass: Pass<T>,
) -> (Pass<T>, VisitCounts, D)
where
    D::Writer: Recipient<Pass<T>>,
    requires room { room.delivery ≡ service.now.delivery }
    requires pass { pass.table ≡ service.now.shared.now }
    requires unused { IsUnused pass }
    requires unseen { D.has_seen door [] }
    requires ready { D.is_ready door pass }
    requires honest { Satisfies
        (service_terms D.Reader.Read D.Writer.Recipient D.Gate.Gate C.Clock service.now) D.awaits D.demands }
    ensures pass { result.0.table ≡ service.now.shared.now }
    ensures parts { result.0.parts ≡ pass.parts }
    ensures worked { (log : List (DoorStep D.Reader D.Writer D.Gate)) × D.has_seen result.2 log × IsWorkerResult
        (service_terms D.Reader.Read D.Writer.Recipient D.Gate.Gate C.Clock service.now)
        pass.capacity pass.opening log result.0 result.1 }
{
    let mut counts = VisitCounts::default();
    for _ in rt.forever() {
        let visit = match door.next(rt, &pass) {
            None => break,
            Some(Err(DoorFault)) => VisitCounts::of_refusal(),
            Some(Ok(visit)) => {
                let ended = serve_visit(rt, service, &mut room, &mut pass, &mut door, visit);
                VisitCounts::of_session(&ended)
            }
        };
        counts = counts.with(visit);
    }
    (pass, counts, door)
}

// Serves a visit to its end: one session at a desk of the pass, whose waits the visit's gate may end.
// The door gets back the reader and the writer, with what the writer has come to, so what was sent went to this writer,
// and nothing more. It is shown the pass, so the session was one on the served queue.
fn serve_visit<T: Timer, D: Door, C: Clock, V, R: Wait + time::Clock>(
    rt: &R,
    service: &Service<'_, T, C, V>,
    room: &mut SessionRoom,
    pass: &mut Pass<T>,
    door: &mut D,
    visit: Visit<D::Reader, D::Writer, D::Gate>,
) -> Result<Ended, SessionFault>
where
    D::Writer: Recipient<Pass<T>>,
    requires room { room.old.delivery ≡ service.now.delivery }
    requires pass { pass.old.table ≡ service.now.shared.now }
    requires awaited { D.awaits door.old visit pass.old }
    requires honest { Satisfies
        (service_terms D.Reader.Read D.Writer.Recipient D.Gate.Gate C.Clock service.now) D.awaits D.demands }
    ensures ready { D.is_ready door.new pass.new }
    ensures worked { IsWorked pass.old pass.new }
    ensures room { room.new.delivery ≡ service.now.delivery }
    ensures ran { (served : Served) × (served.ended ≡ result) × LeftVisit
        (service_terms D.Reader.Read D.Writer.Recipient D.Gate.Gate C.Clock service.now) D.has_seen
        door.old visit pass.old served pass.new door.new }
{
    let Visit {
        mut reader,
        mut writer,
        mut gate,
    } = visit;
    let mut limited = LimitedReader::new(&mut reader);
    let mut desk = SharedDesk::new(
        rt,
        service.shared,
        pass,
        service.clock,
        &mut gate,
        service.bell,
    );
    let mut status = WriterStatus::of(&writer);
    let outlet = LimitedWriter::new(&mut writer, &mut status);
    let (_, ended) = run_in(room, &mut limited, outlet, &mut desk, service.policy);
    drop(desk);
    door.leave(&limited, &status, writer, pass);
    ended
}
