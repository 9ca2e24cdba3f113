ghost use Rattle.atomic_table.specs.Seated.{TableId};
ghost use Rattle.rb_jobs.specs.Places.{JobsAreKept};
ghost use Rattle.rb_jobs.specs.Continued.{JobsAreAccepted, JobsGoOn, NoneAreJobs};
ghost use Rattle.rb_jobs.specs.NextRuns.{ScriptHandsJobsOn, ServerHandsJobsOn};
ghost use Rattle.rb_jobs.specs.JobSums.{ScriptAccounts, ServerAccounts};
ghost use Rattle.rb_jobs.specs.RunJobs.{LinesKeepJobs, ScriptKeepsJobs, ServerKeepsJobs, VisitsKeepJobs};
ghost use Rattle.rb_jobs.specs.SessionHands.{HandlesLines, HandlesClosing, HandlesRun};
ghost use Rattle.rb_retry.specs.declared.policy.Policy.{Policy};
ghost use Rattle.rb_serving.specs.Terms.{terms_of};
ghost use Rattle.rb_session.specs.declared.delivery.Delivery.{Delivery};

use rb_blocking::Clock;
use rb_lock::Pass;
use rb_protocol::Recipient;
use rb_retry::Desk;
use rb_serving::Door;
use rb_timer::Timer;
use std::io::Write;

/// A legal history keeps jobs if it begins with jobs of one element each, and if each seat offers only first
/// attempts, and next attempts of what it was given. Then each offer begins a job or is the next attempt that the
/// policy gives it. At each moment no job is in two places: never both in the queue and with a seat, nor with
/// two seats. What is left is a beginning of jobs again, so the laws hold of the run that continues.
pub fn jobs_are_kept()
    ensures { JobsAreKept }
{}

/// At a desk of any kind a session holds no more than its events allow: after the lines that it serves, once the
/// jobs that it then holds have failed, and after a whole session. That it drops no job uncounted is what
/// `events_of_run` says.
pub fn hands_of_session<D: Desk, W: Write>()
    ensures lines { HandlesLines D.Desk }
    ensures closing { HandlesClosing D.Desk }
    ensures run { HandlesRun D.Desk W.contents }
{}

/// From an opening with one element of each job a script keeps jobs, whatever its input, its replies and its
/// device for the history do: after each line that its session serves, with what the session then holds, and in
/// its whole history.
pub fn script_keeps_jobs<W: Write>()
    ensures lines { LinesKeepJobs }
    ensures run { ScriptKeepsJobs W.contents }
{}

/// From such an opening a server keeps jobs, over all its sessions at once: however the threads of its workers
/// interleave, no job is in two places at any moment of the history that it gives back. Behind each line that one of
/// its sessions serves, that holds no more than the calls of its worker allow.
pub fn server_keeps_jobs<T: Timer, D: Door, C: Clock>()
where
    D::Writer: Recipient<Pass<T>>,
    ensures lines { (clock : C) (policy : Policy) (delivery : Delivery) (table : TableId) → VisitsKeepJobs
        (terms_of D.Reader.Read D.Writer.Recipient D.Gate.Gate C.Clock clock policy delivery table) }
    ensures run { (clock : C) (policy : Policy) (delivery : Delivery) (table : TableId) → ServerKeepsJobs
        (terms_of D.Reader.Read D.Writer.Recipient D.Gate.Gate C.Clock clock policy delivery table) T }
{}

/// Jobs in are jobs out. The jobs of a script's opening and those that its replies accept, sent or not, are done,
/// dead, lost at the session's end, removed, cleared, or left in the queue, each as often as it came in: once, if the
/// opening has one element of each job.
pub fn script_accounts<W: Write>()
    ensures { ScriptAccounts W.contents }
{}

/// The same over all sessions of a server, whose events its history is made of. Replies that a failing write did
/// not send count too.
pub fn server_accounts<T: Timer, D: Door, C: Clock>()
where
    D::Writer: Recipient<Pass<T>>,
    ensures { (clock : C) (policy : Policy) (delivery : Delivery) (table : TableId) → ServerAccounts
        (terms_of D.Reader.Read D.Writer.Recipient D.Gate.Gate C.Clock clock policy delivery table) T }
{}

/// Of a history that keeps jobs `chains` answers `Ok`, or that memory is short. An empty opening begins with
/// jobs of one element each. So does the opening that `opening_in` of `rb_runs` makes of a history that keeps jobs, and
/// its jobs are those that were left. So the laws of jobs hold of each run of a series.
pub fn jobs_go_on()
    ensures accepted { JobsAreAccepted }
    ensures empty { NoneAreJobs }
    ensures next { JobsGoOn }
{}

/// From one run to the next: if the history of a script that began with one element of each job was written whole,
/// then each opening that `opening_in` of `rb_runs` makes of what its device got has one element of each of the jobs
/// that were left, and of no others.
pub fn script_hands_jobs_on<W: Write>()
    ensures { ScriptHandsJobsOn W.contents }
{}

/// The same of a server, over all its sessions.
pub fn server_hands_jobs_on<T: Timer, D: Door, C: Clock>()
where
    D::Writer: Recipient<Pass<T>>,
    ensures { (clock : C) (policy : Policy) (delivery : Delivery) (table : TableId) → ServerHandsJobsOn
        (terms_of D.Reader.Read D.Writer.Recipient D.Gate.Gate C.Clock clock policy delivery table) T }
{}
