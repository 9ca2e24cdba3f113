ghost use Rattle.std.specs.Prelude.{◌≡◌, ◌≤◌};
ghost use Rattle.std.specs.Io.KnownBytes.{IsAtEnd};
ghost use Rattle.rb_session.specs.Exchange.{Exchanges};
ghost use Rattle.rb_session.specs.Reasons.{IsReason, IsWriteReason};
ghost use Rattle.rb_protocol.specs.Writes.{WritesOn};
ghost use Rattle.rb_ending.specs.Recording.{lent, given_back};
ghost use Rattle.rb_runs.specs.Script.{EndsScript, RanScript, script_terms, device_of};

use crate::over_timer;
use crate::script_report::ScriptReport;
use crate::script_run::{Script, script_over};
use rb_ending::BrokerFault;
use rb_options::ScriptOptions;
use rb_protocol::{LimitedReader, LimitedWriter, WriterStatus};
use rb_queue::Opening;
use rb_session::{Delivery, Ended};
use std::alloc::Global;
use std::io::{Read, Write};

/// Runs one session over the queue of an opening, from a reader to a writer, and then writes the
/// run's history, if there is a device for it.
///
/// It takes the room for the calls before the first read. The writer gets the text of the session,
/// whichever timer is chosen, each reply when its request is served; after a write that failed no
/// line is served. The history is also written after a session that ended with a fault, which is
/// then returned; but not after `Memory`, since nothing was read. Other faults are those of the
/// session, `WriteHistory` if the device failed, and `Memory` if there is not enough for the
/// history's text.
pub fn run_script<R: Read, W: Write, H: Write>(
    alloc: Global,
    options: &ScriptOptions,
    opening: Opening,
    reader: &mut R,
    writer: &mut W,
    history: Option<&mut H>,
) -> Result<Ended, BrokerFault>
    ensures { Exchanges
        (R.remaining reader.old) (R.remaining reader.new) (W.contents writer.old) (W.contents writer.new) (λ came sent.
        EndsScript (script_terms W.contents (W.contents writer.old) options.now.policy options.now.calls Delivery.AtOnce opening)
        (IsAtEnd (R.remaining reader.new)) came sent result
        (device_of H.contents (lent history.entry) (given_back history.exit))) }
{
    let mut limited = LimitedReader::new(reader);
    let reader = &mut limited;
    // For the proof: it follows the device only where it knows that there is one.
    match history {
        Some(to) => script_to(alloc, options, opening, reader, writer, Some(to)).result(),
        none => script_to(alloc, options, opening, reader, writer, none).result(),
    }
}

// Runs a script whose replies are written at once, to this writer.
fn script_to<R: Read, W: Write, H: Write>(
    alloc: Global,
    options: &ScriptOptions,
    opening: Opening,
    reader: &mut LimitedReader<'_, R>,
    writer: &mut W,
    history: Option<&mut H>,
) -> ScriptReport
    ensures ran { Exchanges
        (R.remaining reader.old.inner.now) (R.remaining reader.new.inner.now)
        (W.contents writer.old) (W.contents writer.new) (λ came sent.
        RanScript (script_terms W.contents (W.contents writer.old)
        options.now.policy options.now.calls Delivery.AtOnce opening)
        (IsAtEnd (R.remaining reader.new.inner.now)) came sent result
        (device_of H.contents (lent history.entry) (given_back history.exit))) }
    ensures same_reference { reader.new.inner.ghost_name ≡ reader.old.inner.ghost_name }
{
    let mut status = WriterStatus::of(&*writer);
    let writer = LimitedWriter::new(writer, &mut status);
    let at_once = Delivery::AtOnce;
    // For the proof: as in `run_script`.
    match history {
        Some(to) => {
            let (_, report) = run_script_delivered(
                alloc,
                options,
                at_once,
                opening,
                reader,
                writer,
                Some(to),
            );
            report
        }
        none => {
            let (_, report) = run_script_delivered(
                alloc, options, at_once, opening, reader, writer, none,
            );
            report
        }
    }
}

/// Runs a script like `run_script`, with its replies written when `delivery` says so, and tells how
/// its session ended and what became of its history, each by itself.
///
/// The reader counts its reads. `EndOfInput` means that the last of them met the end of the input, `Read`
/// that it failed, and `ReadTurns` that there is none left; a session that ends otherwise has had no read
/// that failed. `Write` means that a write or a flush failed or a write took no byte, and in a session that
/// ends otherwise none did.
pub fn run_script_delivered<'a, R: Read, W: Write, H: Write>(
    alloc: Global,
    options: &ScriptOptions,
    delivery: Delivery,
    opening: Opening,
    reader: &mut LimitedReader<'_, R>,
    writer: LimitedWriter<'a, W>,
    history: Option<&mut H>,
) -> (LimitedWriter<'a, W>, ScriptReport)
    ensures ran { Exchanges
        (R.remaining reader.old.inner.now) (R.remaining reader.new.inner.now)
        (W.contents writer.entry.inner.now) (W.contents result.0.inner.now) (λ came sent.
        RanScript (script_terms W.contents (W.contents writer.entry.inner.now)
        options.now.policy options.now.calls delivery opening)
        (IsAtEnd (R.remaining reader.new.inner.now)) came sent result.1
        (device_of H.contents (lent history.entry) (given_back history.exit))) }
    ensures reason { IsReason reader.old.state reader.new result.1.session }
    ensures write_reason { IsWriteReason writer.entry.status.now.state result.0.status.now result.1.session }
    ensures on { WritesOn writer.entry result.0 }
    ensures counted { reader.new.left ≤ reader.old.left }
    ensures same_reference { reader.new.inner.ghost_name ≡ reader.old.inner.ghost_name }
{
    let script = Script {
        options,
        delivery,
        opening,
    };
    // For the proof: as in `run_script`.
    match history {
        Some(to) => over_timer!(
            options.timer,
            script_over::<_, R, W, H>(alloc, script, reader, writer, Some(to)),
        ),
        none => over_timer!(
            options.timer,
            script_over::<_, R, W, H>(alloc, script, reader, writer, none),
        ),
    }
}
