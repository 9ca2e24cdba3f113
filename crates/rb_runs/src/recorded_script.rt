ghost use Rattle.std.specs.Prelude.{◌⊎◌};
ghost use Rattle.std.specs.Io.KnownBytes.{IsAtEnd};
ghost use Rattle.rb_session.specs.Exchange.{Exchanges};
ghost use Rattle.rb_runs.specs.Script.{script_terms};
ghost use Rattle.rb_runs.specs.RecordedScript.{FailsScript, RecordsScript};

use crate::ready_script::ReadyScript;
use rb_ending::{BrokerFault, Recorder};
use rb_options::ScriptOptions;
use rb_protocol::{LimitedReader, LimitedWriter, WriterStatus};
use rb_queue::Opening;
use rb_session::{Delivery, Ended, HandsOn};
use rb_timer::Timer;
use std::alloc::Global;
use std::io::{Read, Write};

/// Runs a script from an input to an output over the queue of an opening, and then writes its history to the recorder, if
/// that records. The output gets the replies before each read and at the end.
///
/// The recorder begins once all memory has been taken that the run needs, except for what is offered and drained, and
/// before the first read. If memory is missing the fault is `Memory`, and if the recorder can't begin, `WriteHistory`: then
/// nothing was read or written. The other faults are those of `run_script`.
pub fn record_script<T: Timer, R: Read, W: Write, B: Recorder + Write + Drop>(
    alloc: Global,
    options: &ScriptOptions,
    opening: Opening,
    input: &mut R,
    output: &mut W,
    recorder: B,
) -> (B, Result<Ended, BrokerFault>)
    ensures ended { Exchanges
        (R.remaining input.old) (R.remaining input.new) (W.contents output.old) (W.contents output.new) (λ came sent.
        RecordsScript B.has_begun B.keeps B.contents
        (script_terms W.contents (W.contents output.old)
        options.now.policy options.now.calls (Delivery.Gathered HandsOn.BeforeReads) opening)
        (IsAtEnd (R.remaining input.new)) came sent input.new output.old output.new recorder result.0 result.1)
        ⊎ FailsScript B.has_failed input.old input.new output.old output.new recorder result.0 result.1 }
{
    let mut recorder = recorder;
    let delivery = Delivery::Gathered(HandsOn::BeforeReads);
    let Ok(ready) = ReadyScript::<T>::new(alloc, options, delivery, opening) else {
        return (recorder, Err(BrokerFault::Memory));
    };
    if recorder.begin().is_err() {
        return (recorder, Err(BrokerFault::WriteHistory));
    }
    let mut reader = LimitedReader::new(input);
    let mut status = WriterStatus::of(&*output);
    let writer = LimitedWriter::new(output, &mut status);
    let (_, report) = ready.run_recorded(&mut reader, writer, &mut recorder);
    (recorder, report.result())
}
