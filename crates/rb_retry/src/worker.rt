ghost use Rattle.std.specs.Prelude.{◌≡◌, ◌<◌, Bool, List, Err};
ghost use Rattle.rb_delayed.specs.declared.element.Element.{Element};
ghost use Rattle.rb_queue.specs.declared.ask.Ask.TheVariants as asks;
ghost use Rattle.rb_kept.specs.declared.kept.TheConstants.{MOST_CALLS};
ghost use Rattle.rb_retry.specs.declared.desk_fault.DeskFault.{DeskFault};
ghost use Rattle.rb_retry.specs.DeskRules.{desk_rules};
ghost use Rattle.rb_retry.specs.WorkRuns.{WorkRun, RunEnd, EndsRun, RunsAlong, IsSum, no_runs, counted, report_after};

use crate::desk::Desk;
use crate::fetches::take;
use crate::job::Job;
use crate::job_ends::{done, fail};
use crate::policy::Policy;
use crate::verdict::Verdict;
use crate::work_report::WorkReport;
use rb_delayed::Element;

/// What a worker does with a job.
pub trait Work {
    /// The answers that this work may give for an element.
    ghost may: { Self → Element → Bool → Type 0 };

    /// Runs the job of an element, and returns whether it is done.
    fn run(&self, element: &Element) -> bool
        ensures { may self.now element.now result };
}

/// Takes jobs and runs them, one after the other, until a take is refused, and returns the counts. A job
/// that is not done fails at the present moment of the desk's clock.
///
/// It takes memory only for what is offered again.
pub fn work_off<D: Desk, W: Work>(desk: &mut D, policy: &Policy, work: &W) -> WorkReport
    ensures runs { (runs : List WorkRun) × (last : D.State) × (fault : DeskFault)
        × RunsAlong (desk_rules D.Desk policy.now) (W.may work.now) (D.state desk.old) runs last
        × D.Steps last 0 asks.Take (Err fault) (D.state desk.new)
        × (result ≡ report_after no_runs runs) }
    ensures sum { IsSum result }
{
    let mut report = WorkReport::default();
    while let Ok(job) = take(desk) {
        run_job(desk, policy, work, job, &mut report);
    }
    report
}

// Runs one job to its end, and counts it.
fn run_job<D: Desk, W: Work>(
    desk: &mut D,
    policy: &Policy,
    work: &W,
    job: Job,
    report: &mut WorkReport,
)
    requires few { report.old.runs < MOST_CALLS }
    requires sum { IsSum report.old }
    ensures ends { (end : RunEnd)
        × EndsRun (desk_rules D.Desk policy.now) (W.may work.now) job (D.state desk.old) end (D.state desk.new)
        × (report.new ≡ counted report.old end) }
    ensures sum { IsSum report.new }
{
    report.runs += 1;
    if work.run(job.element()) {
        done(job);
        report.dones += 1;
        return;
    }
    let now = desk.now();
    match fail(desk, policy, job, now) {
        Ok(Verdict::Again(_)) => report.agains += 1,
        Ok(Verdict::Dead(_)) => report.deads += 1,
        Err(_) => report.lost += 1,
    }
}
