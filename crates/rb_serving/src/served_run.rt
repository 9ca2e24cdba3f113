ghost use Rattle.std.specs.Prelude.{◌≡◌, ◌⊎◌, IfErr};
ghost use Rattle.atomic_table.specs.Seated.{TableId};
ghost use Rattle.rb_history.specs.declared.history_fault.HistoryFault.TheVariants.{Write};
ghost use Rattle.rb_queue.specs.declared.opening.Opening.{Opening};
ghost use Rattle.rb_serving.specs.Serving.{EndsRun, FailsRun, LacksMemory, IsOpened, RecordsIn};
ghost use Rattle.rb_serving.specs.Terms.{terms_of};
ghost use Rattle.rb_serving.specs.Visits.{Satisfies};

use crate::door::Door;
use crate::serve_clock::ServeClock;
use crate::serve_end::ended;
use crate::serve_report::ServeReport;
use crate::served_queue::ServedQueue;
use crate::server::serve_door_gathered;
use rb_blocking::Clock;
use rb_ending::{BrokerFault, Recorder, write_recording};
use rb_history::{HistoryFault, HistoryRoom};
use rb_lock::Pass;
use rb_options::ServerRunOptions;
use rb_protocol::Recipient;
use rb_queue::Opening;
use rb_session::{Delivery, HandsOn};
use rb_timer::Timer;
use std::alloc::Global;
use std::io::Write;
use std::sync::Wait;
use std::thread::Threads;
use std::time;

/// Serves the visits of a door like `serve_door_gathered`, and then ends the server like `end_server`: it writes the
/// history to the recorder, if that records, and prints the counts, whatever came of that.
///
/// The faults are those of both. Only printing takes memory behind the run: the history is written in the room that was
/// taken for its text.
pub fn serve_run<
    T: Timer + Send,
    D: Door + Drop + Send,
    C: Clock + Sync,
    B: Recorder + Write + Drop,
    W: Write,
    R: Threads + Wait + time::Clock + Sync,
>(
    rt: &R,
    alloc: Global,
    door: D,
    clock: &C,
    options: &ServerRunOptions,
    queue: ServedQueue<T>,
    recorder: B,
    text: HistoryRoom,
    writer: &mut W,
) -> (D, B, Result<(), BrokerFault>)
where
    D::Writer: Recipient<Pass<T>>,
    requires splits { D.may_split door options.now.workers 0 }
    requires honest { Satisfies
        (terms_of D.Reader.Read D.Writer.Recipient D.Gate.Gate C.Clock clock.now options.now.policy (Delivery.Gathered HandsOn.BeforeReadsAndWaits) queue.shared) D.awaits D.demands }
    ensures ended { (opening : Opening) → IsOpened opening options.now queue.shared queue.pass
        → EndsRun (terms_of D.Reader.Read D.Writer.Recipient D.Gate.Gate C.Clock clock.now options.now.policy (Delivery.Gathered HandsOn.BeforeReadsAndWaits) queue.shared)
        T D.has_joined B.has_begun B.keeps B.contents opening options.now door result.0 recorder result.1
        W.contents writer.old writer.new result.2
        ⊎ FailsRun D.has_joined B.has_failed door result.0 recorder result.1 writer.old writer.new result.2 }
{
    let (door, mut recorder, served) = serve_door_gathered(
        rt, alloc, door, clock, options, queue, recorder,
    );
    let report = match served {
        Ok(report) => report,
        Err(fault) => return (door, recorder, Err(fault)),
    };
    let recorded = record(text, &report, &mut recorder);
    let end = ended(alloc, &report, writer, recorded);
    (door, recorder, end.result())
}

/// Runs a server: opens a queue that begins with this opening, serves the visits of a door, and ends like `serve_run`.
/// Its clock reads the opening's last moment, plus what `passed` reads.
///
/// All memory for the history and for its text is taken before anybody is let in. If there is not enough, the fault is
/// `Memory`: nothing was recorded or printed, and nothing happened at the door. The other faults are those of
/// `serve_run`.
pub fn run_server<
    T: Timer + Send,
    D: Door + Drop + Send,
    C: Clock + Sync + Drop,
    B: Recorder + Write + Drop,
    W: Write,
    R: Threads + Wait + time::Clock + Sync,
>(
    rt: &R,
    alloc: Global,
    door: D,
    passed: C,
    options: &ServerRunOptions,
    opening: Opening,
    recorder: B,
    writer: &mut W,
) -> (D, B, Result<(), BrokerFault>)
where
    D::Writer: Recipient<Pass<T>>,
    requires splits { D.may_split door options.now.workers 0 }
    requires honest { (table : TableId) → Satisfies
        (terms_of D.Reader.Read D.Writer.Recipient D.Gate.Gate ⟦<ServeClock<C> as Clock>⟧ (record { first = opening.last_at; passed = passed }) options.now.policy (Delivery.Gathered HandsOn.BeforeReadsAndWaits) table) D.awaits D.demands }
    ensures ended { ((table : TableId) × (EndsRun
        (terms_of D.Reader.Read D.Writer.Recipient D.Gate.Gate ⟦<ServeClock<C> as Clock>⟧ (record { first = opening.last_at; passed = passed }) options.now.policy (Delivery.Gathered HandsOn.BeforeReadsAndWaits) table)
        T D.has_joined B.has_begun B.keeps B.contents opening options.now door result.0 recorder result.1
        W.contents writer.old writer.new result.2
        ⊎ FailsRun D.has_joined B.has_failed door result.0 recorder result.1 writer.old writer.new result.2))
        ⊎ LacksMemory door result.0 recorder result.1 writer.old writer.new result.2 }
{
    let clock = ServeClock::new(opening.last_at, passed);
    let Ok(text) = HistoryRoom::new(alloc) else {
        return (door, recorder, Err(BrokerFault::Memory));
    };
    let Ok(queue) = ServedQueue::<T>::open(alloc, options, opening) else {
        return (door, recorder, Err(BrokerFault::Memory));
    };
    serve_run(
        rt, alloc, door, &clock, options, queue, recorder, text, writer,
    )
}

// Writes the history of a server's run to the recorder, if that records.
fn record<T: Timer, B: Recorder + Write>(
    text: HistoryRoom,
    report: &ServeReport<T>,
    recorder: &mut B,
) -> Result<(), HistoryFault>
    ensures records { RecordsIn B.keeps B.contents report.now.kept result recorder.old recorder.new }
    ensures fault { IfErr result (λ fault. fault ≡ Write) }
{
    if recorder.records() {
        write_recording(text, &report.kept, recorder)
    } else {
        Ok(())
    }
}
