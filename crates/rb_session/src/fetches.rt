ghost use Rattle.std.specs.Prelude.{◌≡◌, ◌⊎◌, ◌-◌, ◌<◌, min, length, [], IfOk, OnOk, OnErr};
ghost use Rattle.std.specs.Io.KnownBytes.{Keeps};
ghost use Rattle.rb_retry.specs.Asked.{MayWait};
ghost use Rattle.rb_retry.specs.Jobs.{answer_with};
ghost use Rattle.rb_session.specs.Held.{AreGiven, AreNew};
ghost use Rattle.rb_session.specs.Outlet.{sent_to, Becomes, MayHandOn, Passes, WriterTells};
ghost use Rattle.rb_session.specs.Rules.{IsGathered, WritesBeforeWaits};
ghost use Rattle.rb_session.specs.Turn.{point, fetched_by, IsCall, IsFetch};
ghost use Rattle.rb_session.specs.Progress.{replies_of, FetchesOne, IsHolding};

use crate::calls::fault_line;
use crate::held_jobs::{HeldJobs, MOST_HELD};
use crate::outlet::Outlet;
use rb_protocol::{ErrWord, LineReply, Recipient, WriteFault};
use rb_queue::Ask;
use rb_retry::{Desk, DeskFault, Job, poll, poll_for, take, try_fetch};

/// Fetches one job by this ask, which is a poll, a take or a timed poll, if there is room for it.
#[inline(always)]
pub(crate) fn fetch_job<D: Desk>(
    desk: &mut D,
    held: &mut HeldJobs,
    asked: u64,
    ask: Ask,
) -> LineReply
    requires one { FetchesOne asked ask }
    requires given { AreGiven (D.mine (D.state desk.old)) held.old }
    ensures { IsFetch D.Steps (point (D.state desk.old) held.old) asked ask
        (replies_of result held.new) (point (D.state desk.new) held.new) }
{
    if held.free() == 0 {
        return LineReply::Err(ErrWord::Held);
    }
    match ask {
        Ask::Poll => hold(held, poll(desk, asked)),
        Ask::PollFor { start, timeout } => hold(held, poll_for(desk, start, timeout)),
        Ask::Take => hold(held, take(desk).map(Some)),
        _ => unreachable!(),
    }
}

/// Fetches one job like `fetch_job`, by a take or a timed poll that is asked at `now`, a reading of the desk's clock.
///
/// It is tried once. If it then has to wait, what the outlet holds back is handed on before. `Err` means that this
/// failed; then nothing was fetched.
pub(crate) fn fetch_or_wait<W: Recipient<D::Witness>, D: Desk>(
    outlet: &mut Outlet<'_, W>,
    desk: &mut D,
    held: &mut HeldJobs,
    now: u64,
    asked: u64,
    ask: &Ask,
) -> Result<LineReply, WriteFault>
    requires one { FetchesOne asked ask.now }
    requires waits { MayWait ask.now }
    requires read { D.gives (D.state desk.old) now }
    requires given { AreGiven (D.mine (D.state desk.old)) held.old }
    requires due { (missed : D.State) (shown : D.Witness) → D.Misses (D.state desk.old) missed
        → D.shows missed shown → MayHandOn W.Recipient outlet.old shown }
    ensures fetched { IfOk result (λ reply. IsFetch D.Steps (point (D.state desk.old) held.old) asked ask.now
        (replies_of reply held.new) (point (D.state desk.new) held.new)) }
    ensures waits { IfOk result (λ reply. IsFetch D.Tries (point (D.state desk.old) held.old) now ask.now
        (replies_of reply held.new) (point (D.state desk.new) held.new)
        ⊎ (WritesBeforeWaits outlet.old.delivery → outlet.new.gathered.items ≡ [])) }
    ensures missed { OnErr result (D.Misses (D.state desk.old) (D.state desk.new) × (held.new ≡ held.old)) }
    ensures late { OnErr result (IsGathered outlet.old.delivery) }
    ensures kept { Keeps (sent_to W.Recipient outlet.old) (sent_to W.Recipient outlet.new) }
    ensures passes { OnOk result (Passes W.Recipient outlet.old [] outlet.new) }
    ensures told { WriterTells W.Recipient result outlet.old outlet.new }
    ensures becomes { Becomes W.Recipient outlet.old outlet.new }
{
    if held.free() == 0 {
        return Ok(LineReply::Err(ErrWord::Held));
    }
    match try_fetch(desk, now, *ask) {
        Some(fetched) => Ok(hold(held, fetched)),
        None => {
            outlet.before_wait(desk.witness())?;
            Ok(fetch_job(desk, held, asked, *ask))
        }
    }
}

/// Fetches what is expired now, at most `most` elements and no more than there is room for.
pub(crate) fn drain_jobs<D: Desk>(
    desk: &mut D,
    held: &mut HeldJobs,
    now: u64,
    most: u64,
) -> LineReply
    requires { AreGiven (D.mine (D.state desk.old)) held.old }
    ensures { IsCall D.Steps
        (point (D.state desk.old) held.old) now (Ask.Drain (min most (MOST_HELD - length held.old)))
        (replies_of result held.new) (point (D.state desk.new) held.new) }
{
    let free = held.free();
    match held.drain(desk, now, most.min(free as u64)) {
        Ok(()) => LineReply::Drained((free - held.free()) as u64),
        Err(fault) => fault_line(fault),
    }
}

// Holds what was fetched, and gives its line.
#[inline(always)]
fn hold(held: &mut HeldJobs, fetched: Result<Option<Job>, DeskFault>) -> LineReply
    requires few { length held.old < MOST_HELD }
    requires new { AreNew held.old (fetched_by (answer_with fetched)) }
    ensures { IsHolding held.old (answer_with fetched) result held.new }
{
    match fetched {
        Ok(Some(job)) => {
            let element = *job.element();
            held.hold(job);
            LineReply::Item(element)
        }
        Ok(None) => LineReply::Nothing,
        Err(fault) => fault_line(fault),
    }
}
