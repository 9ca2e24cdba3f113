ghost use Rattle.std.specs.Prelude.{◌≡◌, ◌≤◌, ◌+◌, ℕ, List, [], false, IfOk, OnOk, MatchOption, MatchResult};
ghost use Rattle.std.specs.Io.KnownBytes.{Consumes, IsAtEnd};
ghost use Rattle.rb_retry.specs.DeskRules.{desk_rules};
ghost use Rattle.rb_protocol.specs.Line.{HasNoLineFeed};
ghost use Rattle.rb_protocol.specs.Reads.{HasNotFailed};
ghost use Rattle.rb_session.specs.Buffer.{IsUnserved};
ghost use Rattle.rb_session.specs.Outlet.{sent_to, rules_at, Becomes, MayHandOn, MaySend, Passes, WriterTells};
ghost use Rattle.rb_session.specs.Ran.{DemandsOnlyAnswers};
ghost use Rattle.rb_session.specs.Session.{rest_text};
ghost use Rattle.rb_session.specs.Turn.{point};
ghost use Rattle.rb_session.specs.Exchange.{Exchanges};
ghost use Rattle.rb_session.specs.Reasons.{IsReason};
ghost use Rattle.rb_session.specs.Progress.{ReadsOn, Stops, end_of};

use crate::answer::answer;
use crate::held_jobs::HeldJobs;
use crate::line_buffer::LineBuffer;
use crate::outlet::Outlet;
use crate::replies::send_replies;
use crate::stop::Stop;
use rb_protocol::{ErrWord, LimitedReader, LineReply, Recipient, Request, WriteFault};
use rb_retry::{Desk, Policy};
use std::alloc::{AllocError, Global};
use std::io::{ErrorKind, Read};

/// What a session keeps from one request to the next: the bytes that were read and are not served
/// yet, and the jobs that it holds.
#[derive(Drop)]
pub(crate) struct Session {
    pub(crate) buffer: LineBuffer,
    pub(crate) held: HeldJobs,
}

impl Session {
    /// A session before its first read, whose memory is taken at once.
    pub(crate) fn new(alloc: Global) -> Result<Self, AllocError>
        ensures short { IfOk result (λ session. session.buffer.is_long ≡ false) }
        ensures unread { IfOk result (λ session. session.buffer.start ≡ session.buffer.end) }
        ensures held { IfOk result (λ session. session.held ≡ []) }
    {
        Ok(Session {
            buffer: LineBuffer::new(alloc)?,
            held: HeldJobs::new(alloc)?,
        })
    }

    /// Serves line after line, and reads more when no whole line is left, until something stops it. Then
    /// nothing is held back.
    ///
    /// `Err` means that a reply could not be sent, or that what is held back could not be handed on.
    pub(crate) fn serve<R: Read, W: Recipient<D::Witness>, D: Desk>(
        &mut self,
        reader: &mut LimitedReader<'_, R>,
        outlet: &mut Outlet<'_, W>,
        desk: &mut D,
        policy: &Policy,
    ) -> Result<Stop, WriteFault>
        requires fresh { IsUnserved self.old.buffer [] }
        requires none { self.old.held ≡ [] }
        requires nothing { outlet.old.gathered.items ≡ [] }
        requires fair { DemandsOnlyAnswers (rules_at (desk_rules D.Desk policy.now) W.Recipient outlet.old)
            (point (D.state desk.old) self.old.held) D.shows R.remaining reader.old.inner.now
            W.contents W.demands outlet.old.writer.inner.now }
        ensures stops { Exchanges
            (R.remaining reader.old.inner.now) (R.remaining reader.new.inner.now)
            (sent_to W.Recipient outlet.old) (sent_to W.Recipient outlet.new)
            (λ came sent. Stops (rules_at (desk_rules D.Desk policy.now) W.Recipient outlet.old)
            (IsAtEnd (R.remaining reader.new.inner.now)) (point (D.state desk.old) self.old.held)
            came sent result (point (D.state desk.new) self.new.held)) }
        ensures reason { IsReason reader.old.state reader.new (end_of result 0) }
        ensures counted { reader.new.left ≤ reader.old.left }
        ensures same_reference { reader.new.inner.ghost_name ≡ reader.old.inner.ghost_name }
        ensures clear { OnOk result (outlet.new.gathered.items ≡ []) }
        ensures told { WriterTells W.Recipient result outlet.old outlet.new }
        ensures becomes { Becomes W.Recipient outlet.old outlet.new }
    {
        loop {
            let Some(reading) = self.buffer.next_request() else {
                desk.hear(!self.held.is_empty(), false);
                let Some(stop) = read_more(&mut self.buffer, reader, outlet, desk.witness())? else {
                    continue;
                };
                outlet.hand_on(desk.witness())?;
                return Ok(stop);
            };
            desk.hear(!self.held.is_empty(), self.buffer.has_rest());
            let quits = matches!(reading, Ok(Request::Quit));
            let mut reply = LineReply::Bye;
            answer(outlet, desk, &mut self.held, policy, &reading, &mut reply)?;
            send_replies(outlet, desk.witness(), &reply, &self.held)?;
            if quits {
                outlet.hand_on(desk.witness())?;
                return Ok(Stop::Quit);
            }
        }
    }
}

// Reads once, with nothing held back. At the end of the input, bytes that no line feed ends are answered.
fn read_more<R: Read, V, W: Recipient<V>>(
    buffer: &mut LineBuffer,
    reader: &mut LimitedReader<'_, R>,
    outlet: &mut Outlet<'_, W>,
    shown: &V,
) -> Result<Option<Stop>, WriteFault>
    requires due { MayHandOn W.Recipient outlet.old shown.now }
    requires due_at_end { (bytes : List ℕ) × IsUnserved buffer.old bytes × HasNoLineFeed bytes
        × ((reader' : R) → Consumes (R.remaining reader.old.inner.now) (R.remaining reader') []
        → IsAtEnd (R.remaining reader') → MaySend W.Recipient outlet.old shown.now (rest_text bytes)) }
    ensures came { (bytes : List ℕ) → IsUnserved buffer.old bytes → HasNoLineFeed bytes → Exchanges
        (R.remaining reader.old.inner.now) (R.remaining reader.new.inner.now)
        (sent_to W.Recipient outlet.old) (sent_to W.Recipient outlet.new)
        (λ more sent. ReadsOn outlet.old.delivery (IsAtEnd (R.remaining reader.new.inner.now))
        bytes more sent result buffer.new × OnOk result (Passes W.Recipient outlet.old sent outlet.new)) }
    ensures reason { MatchResult result
        (λ read. MatchOption read (HasNotFailed reader.old.state reader.new.state)
        (λ stop. IsReason reader.old.state reader.new (end_of (Ok stop) 0)))
        (λ _. HasNotFailed reader.old.state reader.new.state) }
    ensures counted { reader.new.left ≤ reader.old.left }
    ensures fewer { (result ≡ Ok None) → reader.new.left + 1 ≡ reader.old.left }
    ensures same_reference { reader.new.inner.ghost_name ≡ reader.old.inner.ghost_name }
    ensures clear { (result ≡ Ok (Some Stop.Read)) → outlet.new.gathered.items ≡ [] }
    ensures told { WriterTells W.Recipient result outlet.old outlet.new }
    ensures becomes { Becomes W.Recipient outlet.old outlet.new }
{
    if !reader.may_read() {
        return Ok(Some(Stop::ReadTurns));
    }
    outlet.hand_on(shown)?;
    match buffer.read_from(reader, outlet) {
        Ok(0) => {
            if buffer.has_rest() {
                outlet.send(shown, &LineReply::Err(ErrWord::Line))?;
                outlet.after_replies(shown)?;
            }
            Ok(Some(Stop::EndOfInput))
        }
        Ok(_) => Ok(None),
        Err(error) if error.kind() == ErrorKind::Interrupted => Ok(None),
        Err(_) => Ok(Some(Stop::Read)),
    }
}
