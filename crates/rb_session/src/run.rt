ghost use Rattle.std.specs.Prelude.{◌≡◌, ◌≢◌, ◌≤◌, [], Err};
ghost use Rattle.std.specs.Io.KnownBytes.{IsAtEnd};
ghost use Rattle.rb_retry.specs.DeskRules.{desk_rules};
ghost use Rattle.rb_session.specs.Exchange.{Exchanges};
ghost use Rattle.rb_session.specs.Rules.{session_rules, HadGotBehind};
ghost use Rattle.rb_session.specs.Ran.{Ran, DemandsOnlyAnswers};
ghost use Rattle.rb_session.specs.Turn.{point};
ghost use Rattle.rb_session.specs.Progress.{end_of};
ghost use Rattle.rb_session.specs.Reasons.{IsReason, IsWriteReason};
ghost use Rattle.rb_protocol.specs.Writes.{WritesOn};

use crate::delivery::Delivery;
use crate::ended::Ended;
use crate::held_job_ends::fail_all;
use crate::outlet::Outlet;
use crate::session_fault::SessionFault;
use crate::session_room::SessionRoom;
use crate::stop::Stop;
use rb_protocol::{LimitedReader, LimitedWriter, Recipient, WriteFault, WriterStatus};
use rb_retry::{Desk, Policy};
use std::alloc::Global;
use std::io::{Read, Write};
use std::mem;

/// Serves the lines of a reader until one of them is `QUIT`, or there are no more.
///
/// However the session ends, the jobs that it holds then fail at the desk's moment, in the order in
/// which they were fetched, and no reply reports that. All memory except that for what is offered
/// and drained is taken before the first read. Each reply line is one write, and each request's
/// replies are flushed. The reader is read 10,000,000 times at most.
pub fn run_session<R: Read, W: Write, D: Desk>(
    alloc: Global,
    reader: &mut R,
    writer: &mut W,
    desk: &mut D,
    policy: &Policy,
) -> Result<Ended, SessionFault>
    ensures ran { Exchanges
        (R.remaining reader.old) (R.remaining reader.new)
        (W.contents writer.old) (W.contents writer.new)
        (λ came sent. Ran
        (session_rules (desk_rules D.Desk policy.now) Delivery.AtOnce (HadGotBehind W.contents (W.contents writer.old)))
        (IsAtEnd (R.remaining reader.new))
        (D.state desk.old) (record { came = came; sent = sent; ended = result }) (D.state desk.new)) }
    ensures name { D.name (D.state desk.new) ≡ D.name (D.state desk.old) }
{
    let mut reader = LimitedReader::new(reader);
    let mut status = WriterStatus::of(&*writer);
    let writer = LimitedWriter::new(writer, &mut status);
    let (_, ended) = run_limited(alloc, &mut reader, writer, desk, policy, Delivery::AtOnce);
    ended
}

/// Runs a session like `run_session`, over a reader that counts its reads, whose replies are written
/// when `delivery` says so.
///
/// The session makes at most as many reads as this one has left, and `ReadTurns` means that it made
/// all of them. `EndOfInput` means that the last read met the end of the input, and `Read` that it failed;
/// a session that ends otherwise has had no read that failed. `Write` means that a write or a flush
/// failed or a write took no byte, and in a session that ends otherwise none did.
///
/// If replies are gathered, the writer gets them before each read, at the end and, if `HandsOn` says
/// so, before a request waits. So a batch of requests costs one write for each read or wait, and no
/// client waits for a reply that is held back. The room of 64 KiB is taken before the
/// first read. A write that fails comes later than the replies that it loses. The session then ends
/// as after any fault of a write.
///
/// With each piece the writer is shown the desk's witness. So it may demand that all it has got since the session began,
/// and the piece, begin the answers to lines that have come, and that those lines led the desk to where it is. This holds
/// at each moment, of a session that never ends too.
pub fn run_limited<'a, R: Read, W: Recipient<D::Witness>, D: Desk>(
    alloc: Global,
    reader: &mut LimitedReader<'_, R>,
    writer: LimitedWriter<'a, W>,
    desk: &mut D,
    policy: &Policy,
    delivery: Delivery,
) -> (LimitedWriter<'a, W>, Result<Ended, SessionFault>)
    requires { DemandsOnlyAnswers
        (session_rules (desk_rules D.Desk policy.now) delivery (HadGotBehind W.contents (W.contents writer.inner.now)))
        (point (D.state desk.old) []) D.shows R.remaining reader.old.inner.now W.contents W.demands writer.inner.now }
    ensures ran { Exchanges
        (R.remaining reader.old.inner.now) (R.remaining reader.new.inner.now)
        (W.contents writer.entry.inner.now) (W.contents result.0.inner.now)
        (λ came sent. Ran
        (session_rules (desk_rules D.Desk policy.now) delivery (HadGotBehind W.contents (W.contents writer.entry.inner.now)))
        (IsAtEnd (R.remaining reader.new.inner.now))
        (D.state desk.old) (record { came = came; sent = sent; ended = result.1 }) (D.state desk.new)) }
    ensures reason { IsReason reader.old.state reader.new result.1 }
    ensures write_reason { IsWriteReason writer.entry.status.now.state result.0.status.now result.1 }
    ensures on { WritesOn writer.entry result.0 }
    ensures counted { reader.new.left ≤ reader.old.left }
    ensures same_reference { reader.new.inner.ghost_name ≡ reader.old.inner.ghost_name }
    ensures name { D.name (D.state desk.new) ≡ D.name (D.state desk.old) }
{
    let Ok(mut room) = SessionRoom::new(alloc, delivery) else {
        return (writer, Err(SessionFault::Memory));
    };
    run_in(&mut room, reader, writer, desk, policy)
}

/// Runs a session like `run_limited`, in memory that was taken before, and leaves it for the next session. So it is never
/// answered by `Memory`.
pub fn run_in<'a, R: Read, W: Recipient<D::Witness>, D: Desk>(
    room: &mut SessionRoom,
    reader: &mut LimitedReader<'_, R>,
    writer: LimitedWriter<'a, W>,
    desk: &mut D,
    policy: &Policy,
) -> (LimitedWriter<'a, W>, Result<Ended, SessionFault>)
    requires { DemandsOnlyAnswers
        (session_rules (desk_rules D.Desk policy.now) room.old.delivery (HadGotBehind W.contents (W.contents writer.inner.now)))
        (point (D.state desk.old) []) D.shows R.remaining reader.old.inner.now W.contents W.demands writer.inner.now }
    ensures ran { Exchanges
        (R.remaining reader.old.inner.now) (R.remaining reader.new.inner.now)
        (W.contents writer.entry.inner.now) (W.contents result.0.inner.now)
        (λ came sent. Ran
        (session_rules (desk_rules D.Desk policy.now) room.old.delivery (HadGotBehind W.contents (W.contents writer.entry.inner.now)))
        (IsAtEnd (R.remaining reader.new.inner.now))
        (D.state desk.old) (record { came = came; sent = sent; ended = result.1 }) (D.state desk.new)) }
    ensures begun { result.1 ≢ Err SessionFault.Memory }
    ensures delivery { room.new.delivery ≡ room.old.delivery }
    ensures reason { IsReason reader.old.state reader.new result.1 }
    ensures write_reason { IsWriteReason writer.entry.status.now.state result.0.status.now result.1 }
    ensures on { WritesOn writer.entry result.0 }
    ensures counted { reader.new.left ≤ reader.old.left }
    ensures same_reference { reader.new.inner.ghost_name ≡ reader.old.inner.ghost_name }
    ensures name { D.name (D.state desk.new) ≡ D.name (D.state desk.old) }
{
    let gathered = mem::replace(&mut room.gathered, Vec::new(room.alloc));
    let mut outlet = Outlet::new(writer, gathered, room.delivery);
    let stopped = room.session.serve(reader, &mut outlet, desk, policy);
    let lost = fail_all(desk, policy, &mut room.session.held);
    room.session.buffer.clear();
    let (writer, gathered) = outlet.into_parts();
    room.gathered = gathered;
    (writer, end_of(stopped, lost))
}

// How the session ended, with the number of jobs that were lost at its end.
fn end_of(stopped: Result<Stop, WriteFault>, lost: u64) -> Result<Ended, SessionFault>
    ensures { result ≡ end_of stopped lost }
{
    match stopped {
        Ok(Stop::Quit) => Ok(Ended::Quit { lost }),
        Ok(Stop::EndOfInput) => Ok(Ended::EndOfInput { lost }),
        Ok(Stop::Read) => Err(SessionFault::Read { lost }),
        Ok(Stop::ReadTurns) => Err(SessionFault::ReadTurns { lost }),
        Err(WriteFault) => Err(SessionFault::Write { lost }),
    }
}
