ghost use Rattle.std.specs.Prelude.{◌≡◌, ◌⊎◌, ℕ, [], Option, Result, OnOk, OnErr};
ghost use Rattle.std.specs.Io.KnownBytes.{Keeps};
ghost use Rattle.rb_retry.specs.DeskRules.{desk_rules};
ghost use Rattle.rb_session.specs.Held.{AreGiven};
ghost use Rattle.rb_session.specs.Outlet.{sent_to, Becomes, MayHandOn, Passes, WriterTells};
ghost use Rattle.rb_session.specs.Rules.{IsGathered, WritesBeforeWaits};
ghost use Rattle.rb_session.specs.Turn.{point, moment_line, IsTurn, NeedsNoWait};
ghost use Rattle.rb_session.specs.Progress.{replies_of, AsksToWait};

use crate::calls::{call, offer, offer_at};
use crate::fetches::{drain_jobs, fetch_job, fetch_or_wait};
use crate::held_job_ends::{fail_job, finish_job};
use crate::held_jobs::HeldJobs;
use crate::outlet::Outlet;
use rb_protocol::{ErrWord, LineFault, LineReply, Recipient, Request, WriteFault};
use rb_queue::Ask;
use rb_retry::{Desk, Policy};

/// Answers one line, and puts the first line of its reply in place. If that is a drain's, the elements
/// that it took are the last that are held.
///
/// A request that may wait is tried once. Only if it then has to, is what the outlet holds back handed on before.
/// `Err` means that this failed; then the request was not served. The desk's clock is read once for each
/// request.
// A reply in a `Result` is copied at each `?`, and each copy waits for the writes of the one before.
pub(crate) fn answer<W: Recipient<D::Witness>, D: Desk>(
    outlet: &mut Outlet<'_, W>,
    desk: &mut D,
    held: &mut HeldJobs,
    policy: &Policy,
    reading: &Result<Request, LineFault>,
    reply: &mut LineReply,
) -> Result<(), WriteFault>
    requires given { AreGiven (D.mine (D.state desk.old)) held.old }
    requires due { (missed : D.State) (shown : D.Witness) → D.Misses (D.state desk.old) missed
        → D.shows missed shown → MayHandOn W.Recipient outlet.old shown }
    ensures turn { OnOk result (IsTurn
        (desk_rules D.Desk policy.now) (point (D.state desk.old) held.old)
        reading.now (replies_of reply.new held.new) (point (D.state desk.new) held.new)) }
    ensures waits { OnOk result (NeedsNoWait
        (desk_rules D.Desk policy.now) (point (D.state desk.old) held.old)
        reading.now (replies_of reply.new held.new) (point (D.state desk.new) held.new)
        ⊎ (WritesBeforeWaits outlet.old.delivery → outlet.new.gathered.items ≡ [])) }
    ensures missed { OnErr result (D.Misses (D.state desk.old) (D.state desk.new) × (held.new ≡ held.old)) }
    ensures late { OnErr result (IsGathered outlet.old.delivery) }
    ensures kept { Keeps (sent_to W.Recipient outlet.old) (sent_to W.Recipient outlet.new) }
    ensures passes { OnOk result (Passes W.Recipient outlet.old [] outlet.new) }
    ensures told { WriterTells W.Recipient result outlet.old outlet.new }
    ensures becomes { Becomes W.Recipient outlet.old outlet.new }
{
    match *reading {
        Ok(Request::Take) => {
            let now = desk.now();
            *reply = fetch_or_wait(outlet, desk, held, now, 0, &Ask::Take)?;
        }
        Ok(Request::PollFor(timeout)) => {
            let start = desk.now();
            let ask = Ask::PollFor { start, timeout };
            *reply = fetch_or_wait(outlet, desk, held, start, start, &ask)?;
        }
        _ => *reply = answer_at_once(desk, held, policy, reading),
    }
    Ok(())
}

// Answers a line that never waits.
fn answer_at_once<D: Desk>(
    desk: &mut D,
    held: &mut HeldJobs,
    policy: &Policy,
    reading: &Result<Request, LineFault>,
) -> LineReply
    requires given { AreGiven (D.mine (D.state desk.old)) held.old }
    requires at_once { AsksToWait reading.now → ⊥ }
    ensures { IsTurn (desk_rules D.Desk policy.now) (point (D.state desk.old) held.old)
        reading.now (replies_of result held.new) (point (D.state desk.new) held.new) }
{
    let request = match reading {
        Ok(request) => request,
        Err(fault) => return LineReply::Err(ErrWord::from(*fault)),
    };
    let now = desk.now();
    match *request {
        Request::Offer { delay, payload } => offer(desk, now, delay, payload),
        Request::OfferAt { expiry, payload } => offer_at(desk, now, expiry, payload),
        Request::Poll => fetch_job(desk, held, now, Ask::Poll),
        Request::PollFor(_) | Request::Take => unreachable!(),
        Request::Peek => call(desk, now, Ask::Peek),
        Request::Remove(id) => call(desk, now, Ask::Remove(id)),
        Request::Drain(most) => drain_jobs(desk, held, now, most),
        Request::Clear => call(desk, now, Ask::Clear),
        Request::Size => call(desk, now, Ask::Size),
        Request::Done(id) => finish_job(held, id),
        Request::Fail(id) => fail_job(desk, held, policy, now, id),
        Request::At(moment) => set_moment(desk, moment),
        Request::Quit => LineReply::Bye,
    }
}

// Sets the desk's clock, if it can be set.
fn set_moment<D: Desk>(desk: &mut D, moment: u64) -> LineReply
    ensures { (set_to : Option ℕ) × D.Sets (D.state desk.old) moment set_to (D.state desk.new)
        × (result ≡ moment_line set_to) }
{
    match desk.set(moment) {
        Some(now) => LineReply::Now(now),
        None => LineReply::Err(ErrWord::Syntax),
    }
}
