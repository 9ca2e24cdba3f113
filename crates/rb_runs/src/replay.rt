ghost use Rattle.std.specs.Prelude.{◌≡◌, List, IfOk, IfErr, OnErr, string_bytes};
ghost use Rattle.rb_queue.specs.declared.event.Event.{Event};
ghost use Rattle.rb_queue.specs.declared.opening.Opening.{Opening};
ghost use Rattle.rb_history.specs.Ranges.{IsRightOpening, AreRightEvents};
ghost use Rattle.rb_history.specs.Readings.{IsTextOf};
ghost use Rattle.rb_protocol.specs.Sending.{Sends};
ghost use Rattle.rb_ending.specs.WriteReasons.{FailsBetween};
ghost use Rattle.rb_runs.specs.TextVerdict.{IsVerdictOf, IsVerdictOn, PrintsVerdict, Tells};
ghost use Rattle.rb_runs.specs.declared.text_verdict.TextVerdict.{TextVerdict};

use crate::text_verdict::TextVerdict;
use rb_ending::BrokerFault;
use rb_options::ReplayOptions;
use rb_protocol::{LimitedWriter, WriteFault, WriterStatus, send_at_once};
use rb_replay::{ChainFault, History, ReplayFault, TextFault, chains, check, read_history};
use std::alloc::Global;
use std::io::Write;

/// The line that `replay` prints about a text, and the exit status: 0 with the audit of a history
/// that is legal and, if they are checked, whose retries are right; 1 with the first fault of any
/// other text.
///
/// The only fault is `Memory`.
pub fn run_replay(
    alloc: Global,
    options: &ReplayOptions,
    text: &[u8],
) -> Result<(String, u8), BrokerFault>
    ensures line { IfOk result (λ told. (verdict : TextVerdict)
        × IsVerdictOf options.now.chains text.now verdict × Tells verdict (string_bytes told.0) told.1) }
    ensures each { (opening : Opening) (events : List Event) → IsRightOpening opening → AreRightEvents events
        → IsTextOf opening events text.now → IfOk result (λ told. (verdict : TextVerdict)
        × IsVerdictOn options.now.chains opening events verdict × Tells verdict (string_bytes told.0) told.1) }
    ensures fault { IfErr result (λ fault. fault ≡ BrokerFault.Memory) }
{
    let verdict = verdict_of(alloc, options, text)?;
    Ok((verdict.line(alloc)?, verdict.status()))
}

/// Prints the line of `run_replay`, and returns its exit status. The faults are `Memory` and `Write`.
pub fn print_replay<W: Write>(
    alloc: Global,
    options: &ReplayOptions,
    text: &[u8],
    output: &mut W,
) -> Result<u8, BrokerFault>
    ensures line { PrintsVerdict W.contents (IsVerdictOf options.now.chains text.now) result output.old output.new }
    ensures each { (opening : Opening) (events : List Event) → IsRightOpening opening → AreRightEvents events
        → IsTextOf opening events text.now → PrintsVerdict W.contents (IsVerdictOn options.now.chains opening events)
        result output.old output.new }
{
    let (line, status) = run_replay(alloc, options, text)?;
    match print(output, line.as_bytes()) {
        Ok(()) => Ok(status),
        Err(WriteFault) => Err(BrokerFault::Write),
    }
}

// Writes a line and flushes.
fn print<W: Write>(output: &mut W, line: &[u8]) -> Result<(), WriteFault>
    ensures sent { Sends result (W.contents output.old) line.now (W.contents output.new) }
    ensures failed { OnErr result (FailsBetween output.old output.new) }
{
    let mut status = WriterStatus::of(&*output);
    send_at_once(&mut LimitedWriter::new(output, &mut status), &(), line)
}

// The verdict on the text.
fn verdict_of(
    alloc: Global,
    options: &ReplayOptions,
    text: &[u8],
) -> Result<TextVerdict, BrokerFault>
    ensures verdict { IfOk result (IsVerdictOf options.now.chains text.now) }
    ensures each { (opening : Opening) (events : List Event) → IsRightOpening opening → AreRightEvents events
        → IsTextOf opening events text.now → IfOk result (IsVerdictOn options.now.chains opening events) }
    ensures fault { IfErr result (λ fault. fault ≡ BrokerFault.Memory) }
{
    match read_history(alloc, text) {
        Ok(history) => judged(alloc, options, &history),
        Err(TextFault::At { line, reason }) => Ok(TextVerdict::Unreadable { line, reason }),
        Err(TextFault::Memory) => Err(BrokerFault::Memory),
    }
}

// The verdict on the history.
fn judged(
    alloc: Global,
    options: &ReplayOptions,
    history: &History,
) -> Result<TextVerdict, BrokerFault>
    ensures verdict { IfOk result (IsVerdictOn options.now.chains history.now.opening history.now.events) }
    ensures fault { IfErr result (λ fault. fault ≡ BrokerFault.Memory) }
{
    let audit = match check(alloc, history.opening(), history.events()) {
        Ok(audit) => audit,
        Err(ReplayFault::At { index, reason }) => return Ok(TextVerdict::Refused { index, reason }),
        Err(ReplayFault::Memory) => return Err(BrokerFault::Memory),
    };
    let Some(policy) = &options.chains else {
        return Ok(TextVerdict::Accepted(audit));
    };
    match chains(alloc, history.opening(), history.events(), policy) {
        Ok(()) => Ok(TextVerdict::Accepted(audit)),
        Err(ChainFault::At { index, reason }) => Ok(TextVerdict::Unchained { index, reason }),
        Err(ChainFault::Memory) => Err(BrokerFault::Memory),
    }
}
