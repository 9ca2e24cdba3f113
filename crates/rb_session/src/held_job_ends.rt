ghost use Rattle.std.specs.Prelude.{◌≡◌, [], MatchOption, remove};
ghost use Rattle.rb_retry.specs.DeskRules.{desk_rules};
ghost use Rattle.rb_session.specs.Held.{place_of};
ghost use Rattle.rb_session.specs.Turn.{point, AnswersAlone, IsFailure};
ghost use Rattle.rb_session.specs.Closing.{Closes};
ghost use Rattle.rb_session.specs.Progress.{replies_of};

use crate::calls::fault_line;
use crate::held_jobs::HeldJobs;
use rb_delayed::Element;
use rb_protocol::{ErrWord, LineReply};
use rb_retry::{Desk, DeskFault, Policy, Verdict, done, fail};

/// The job of this id is done, if it is held.
pub(crate) fn finish_job(held: &mut HeldJobs, id: u64) -> LineReply
    ensures { MatchOption (place_of held.old id)
        ((result ≡ LineReply.Err ErrWord.NotHeld) × (held.new ≡ held.old))
        (λ place. (result ≡ LineReply.Done id) × (held.new ≡ remove held.old place)) }
{
    let Some(place) = held.place_of(id) else {
        return LineReply::Err(ErrWord::NotHeld);
    };
    done(held.take_out(place));
    LineReply::Done(id)
}

/// Lets the job of this id fail now, if it is held. If its next attempt is refused, it stays held,
/// in its place.
pub(crate) fn fail_job<D: Desk>(
    desk: &mut D,
    held: &mut HeldJobs,
    policy: &Policy,
    now: u64,
    id: u64,
) -> LineReply
    ensures { MatchOption (place_of held.old id)
        (AnswersAlone (LineReply.Err ErrWord.NotHeld)
        (point (D.state desk.old) held.old) (replies_of result held.new) (point (D.state desk.new) held.new))
        (λ place. IsFailure (desk_rules D.Desk policy.now) (point (D.state desk.old) held.old) now place
        (replies_of result held.new) (point (D.state desk.new) held.new)) }
{
    let Some(place) = held.place_of(id) else {
        return LineReply::Err(ErrWord::NotHeld);
    };
    match fail(desk, policy, held.take_out(place), now) {
        Ok(Verdict::Again(Element { id, expiry, .. })) => LineReply::Again { id, expiry },
        Ok(Verdict::Dead(dead)) => LineReply::Dead(dead.id),
        Err((job, fault)) => {
            held.put_back(place, job);
            fault_line(DeskFault::from(fault))
        }
    }
}

/// Lets every job that is held fail at the desk's moment, in the order in which they were fetched.
/// Returns how many are lost, since their next attempt was refused.
pub(crate) fn fail_all<D: Desk>(desk: &mut D, policy: &Policy, held: &mut HeldJobs) -> u64
    ensures closes { Closes (desk_rules D.Desk policy.now) (D.state desk.old) held.old result (D.state desk.new) }
    ensures none { held.new ≡ [] }
{
    let _ = held.free(); // For the proof: there are few, so the count does not overflow.
    let mut lost = 0;
    while let Some(job) = held.take_first() {
        let now = desk.now();
        if fail(desk, policy, job, now).is_err() {
            lost += 1;
        }
    }
    lost
}
