ghost use Rattle.std.specs.Prelude.{◌≡◌, ◌≤◌};
ghost use Rattle.std.specs.Io.KnownBytes.{IsAtEnd};
ghost use Rattle.rb_session.specs.Exchange.{Exchanges};
ghost use Rattle.rb_session.specs.Reasons.{IsReason, IsWriteReason};
ghost use Rattle.rb_protocol.specs.Writes.{WritesOn};
ghost use Rattle.rb_ending.specs.Recording.{lent, given_back};
ghost use Rattle.rb_runs.specs.Script.{RanScript, script_terms, device_of};

use crate::ready_script::ReadyScript;
use crate::recording::Recording;
use crate::script_report::ScriptReport;
use rb_options::ScriptOptions;
use rb_protocol::{LimitedReader, LimitedWriter};
use rb_queue::Opening;
use rb_session::Delivery;
use rb_timer::Timer;
use std::alloc::Global;
use std::io::{Read, Write};

/// What a script is run with: its options, when replies are written, and what the queue begins with.
#[derive(Drop)]
pub(crate) struct Script<'a> {
    pub(crate) options: &'a ScriptOptions,
    pub(crate) delivery: Delivery,
    pub(crate) opening: Opening,
}

/// Runs a script over this timer, and then writes its history, if there is a device for it. If there is
/// not enough memory before the first read, the session is not begun.
pub(crate) fn script_over<'a, T: Timer, R: Read, W: Write, H: Write>(
    alloc: Global,
    script: Script<'_>,
    reader: &mut LimitedReader<'_, R>,
    writer: LimitedWriter<'a, W>,
    history: Option<&mut H>,
) -> (LimitedWriter<'a, W>, ScriptReport)
    ensures ran { Exchanges
        (R.remaining reader.old.inner.now) (R.remaining reader.new.inner.now)
        (W.contents writer.entry.inner.now) (W.contents result.0.inner.now) (λ came sent.
        RanScript (script_terms W.contents (W.contents writer.entry.inner.now) script.entry.options.now.policy
        script.entry.options.now.calls script.entry.delivery script.entry.opening)
        (IsAtEnd (R.remaining reader.new.inner.now)) came sent result.1
        (device_of H.contents (lent history.entry) (given_back history.exit))) }
    ensures reason { IsReason reader.old.state reader.new result.1.session }
    ensures write_reason { IsWriteReason writer.entry.status.now.state result.0.status.now result.1.session }
    ensures on { WritesOn writer.entry result.0 }
    ensures counted { reader.new.left ≤ reader.old.left }
    ensures same_reference { reader.new.inner.ghost_name ≡ reader.old.inner.ghost_name }
{
    let Script {
        options,
        delivery,
        opening,
    } = script;
    let Ok(ready) = ReadyScript::<T>::new(alloc, options, delivery, opening) else {
        return match history {
            Some(_device) => (writer, ScriptReport::unbegun(Recording::NotBegun)),
            None => (writer, ScriptReport::unbegun(Recording::NotAsked)),
        };
    };
    // For the proof: it follows the device only where it knows that there is one.
    match history {
        Some(device) => ready.run(reader, writer, Some(device)),
        none => ready.run(reader, writer, none),
    }
}
