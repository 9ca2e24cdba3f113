ghost use Rattle.std.specs.Prelude.{◌≡◌};
ghost use Rattle.rb_retry.specs.DeskRules.{desk_rules};
ghost use Rattle.rb_retry.specs.Jobs.{FailsTo};

use crate::desk::Desk;
use crate::job::Job;
use crate::policy::Policy;
use crate::verdict::Verdict;
use rb_delayed::Element;
use rb_kept::CallFault;

/// Lets the job fail at `now`, in nanoseconds, and offers the policy's next attempt at that moment.
///
/// After the last attempt the job is dead: no call is made, so none can be refused. If the offer is
/// refused, the caller gets the job back, and no event was made. The faults are `Full`, if there is no
/// room for an event, and `Memory`, if there is not enough for the element.
pub fn fail<D: Desk>(
    desk: &mut D,
    policy: &Policy,
    job: Job,
    now: u64,
) -> Result<Verdict, (Job, CallFault)>
    ensures fails { FailsTo (desk_rules D.Desk policy.now) job now (D.state desk.old) result (D.state desk.new) }
{
    match policy.retry_of(job.element(), now) {
        Some(draft) => match desk.offer(now, draft) {
            Ok(again) => Ok(Verdict::Again(again)),
            Err(fault) => Err((job, fault)),
        },
        None => Ok(Verdict::Dead(done(job))),
    }
}

/// Ends the job as done, and returns its element. No call is made.
pub fn done(job: Job) -> Element
    ensures { result ≡ job }
{
    job.into_element()
}
