ghost use Rattle.atomic_table.specs.Seated.{TableId};
ghost use Rattle.rb_retry.specs.DeskRules.{desk_rules};
ghost use Rattle.rb_retry.specs.declared.policy.Policy.{Policy};
ghost use Rattle.rb_session.specs.declared.delivery.Delivery.{Delivery};
ghost use Rattle.rb_serving.specs.Terms.{terms_of};
ghost use Rattle.rb_jobs.specs.Events.{MakesByLines, MakesByClosing, HoldsOnce};
ghost use Rattle.rb_jobs.specs.Events.{RecordsByLines, RecordsByClosing};
ghost use Rattle.rb_jobs.specs.RunEvents.{MakesByRun, RecordsByRun};
ghost use Rattle.rb_jobs.specs.ScriptEvents.{RecordsByScript};
ghost use Rattle.rb_jobs.specs.ServerEvents.{CallsByVisit, GathersSessions};

use rb_blocking::Clock;
use rb_lock::Pass;
use rb_protocol::Recipient;
use rb_retry::{Desk, KeptDesk};
use rb_serving::Door;
use rb_timer::Timer;
use std::io::Write;

/// What a session makes at a desk of any kind, in order: at most one event for each line that is
/// served, of which the line's replies tell, and at the end at most one for each job that is still
/// held. Each job that it holds or is given is held on, or one line says that it is done, is dead, or
/// is offered again; at the end it is dead, is offered again, or is lost.
pub fn events_of_session<D: Desk>()
    ensures lines { MakesByLines D.Desk }
    ensures closing { MakesByClosing D.Desk }
{}

/// A session at a desk of any kind never holds two jobs of one id.
pub fn each_id_held_once<D: Desk>()
    ensures { HoldsOnce D.Desk }
{}

/// The history of a kept queue grows by what a session at its desk makes, in order, and by nothing
/// else. The desk's moment is then the latest of its moment before and of those that the served `AT`
/// lines named.
pub fn history_of_session<'a, T: Timer + 'a>()
    ensures lines { RecordsByLines (desk_rules ⟦<KeptDesk<'a, T> as Desk>⟧) }
    ensures closing { RecordsByClosing (desk_rules ⟦<KeptDesk<'a, T> as Desk>⟧) }
{}

/// What a whole run of a session makes at a desk of any kind, however it ends and whichever way its
/// replies go: the events of the lines that were served, which come first in the bytes that came,
/// and then those of the jobs that were still held. It accounts for each job that it was given.
pub fn events_of_run<D: Desk, W: Write>()
    ensures { MakesByRun D.Desk W.contents }
{}

/// The history of a kept queue grows by just these events, each with the reply that the line got, in a run of a
/// session at its desk. The desk's moment is then the latest of its moment before and of those that the served `AT` lines
/// named.
pub fn history_of_run<'a, T: Timer + 'a, W: Write>()
    ensures { RecordsByRun (desk_rules ⟦<KeptDesk<'a, T> as Desk>⟧) W.contents }
{}

/// The history of a script begins with its opening. Its events are those of the lines that were served,
/// and then those of the jobs that the session still held; it has no other. The desk's moment is then the
/// latest of the opening's last event and those that the served `AT` lines named.
pub fn history_of_script<W: Write>()
    ensures { RecordsByScript W.contents }
{}

/// A visit adds to the calls of the pass that serves it just the events of the lines that were served, and
/// then those of the jobs that its session still held.
pub fn calls_of_visit<T: Timer, D: Door, C: Clock>()
where
    D::Writer: Recipient<Pass<T>>,
    ensures { (clock : C) (policy : Policy) (delivery : Delivery) (table : TableId) → CallsByVisit
        (terms_of D.Reader.Read D.Writer.Recipient D.Gate.Gate C.Clock clock policy delivery table) }
{}

/// In the history that a server gives back each worker has a name of its own. Its events are those of the
/// sessions that it served, one after the other, and no event has another name. So each event is of a line
/// that one session served, or of a job that this session still held at its end.
pub fn history_of_server<T: Timer, D: Door, C: Clock>()
where
    D::Writer: Recipient<Pass<T>>,
    ensures { (clock : C) (policy : Policy) (delivery : Delivery) (table : TableId) → GathersSessions
        (terms_of D.Reader.Read D.Writer.Recipient D.Gate.Gate C.Clock clock policy delivery table) T }
{}
