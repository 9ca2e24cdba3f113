ghost use Rattle.std.specs.Prelude.{◌≡◌, IfErr};
ghost use Rattle.rb_history.specs.declared.history_fault.HistoryFault.TheVariants.{Write};
ghost use Rattle.rb_ending.specs.Recording.{RecordsRun, lent, given_back};
ghost use Rattle.rb_serving.specs.ServeText.{Prints, first_fault, report_text};

use crate::serve_report::ServeReport;
use crate::serve_text::print_report;
use rb_ending::{BrokerFault, write_recording};
use rb_history::{HistoryFault, HistoryRoom};
use rb_timer::Timer;
use std::alloc::Global;
use std::io::Write;

/// What became of a server's history and of its report.
#[derive(Clone, Copy, Debug, PartialEq, Eq)]
pub struct ServerEnd {
    /// Whether the history was written. If there was no device for it, there was nothing to write.
    pub recorded: Result<(), HistoryFault>,
    /// Whether the counts were printed.
    pub printed: Result<(), BrokerFault>,
}

impl ServerEnd {
    /// How the server ended: with the history's fault, if there is one, and otherwise with that of printing.
    pub fn result(&self) -> Result<(), BrokerFault>
        ensures { result ≡ first_fault self.now.recorded self.now.printed }
    {
        match self.recorded {
            Ok(()) => self.printed,
            Err(fault) => Err(BrokerFault::from(fault)),
        }
    }
}

/// Writes the history of a server's run, if there is a device for it, and then prints the counts of
/// the run, also if the history could not be written. Only printing takes memory: the history is written in the room
/// that was taken for its text, so `Write` is its only fault.
pub fn end_server<T: Timer, W: Write, H: Write>(
    alloc: Global,
    text: HistoryRoom,
    report: &ServeReport<T>,
    writer: &mut W,
    history: Option<&mut H>,
) -> ServerEnd
    ensures recorded { RecordsRun H.contents report.now.kept result.recorded (lent history.entry) (given_back history.exit) }
    ensures fault { IfErr result.recorded (λ fault. fault ≡ Write) }
    ensures printed { Prints W.contents result.printed writer.old (report_text report.now) writer.new }
{
    match history {
        Some(device) => {
            let recorded = write_recording(text, &report.kept, device);
            ended(alloc, report, writer, recorded)
        }
        None => ended(alloc, report, writer, Ok(())),
    }
}

// Prints the counts of a run whose history was written like this.
pub(crate) fn ended<T: Timer, W: Write>(
    alloc: Global,
    report: &ServeReport<T>,
    writer: &mut W,
    recorded: Result<(), HistoryFault>,
) -> ServerEnd
    ensures recorded { result.recorded ≡ recorded }
    ensures printed { Prints W.contents result.printed writer.old (report_text report.now) writer.new }
{
    let printed = print_report(alloc, writer, report);
    ServerEnd { recorded, printed }
}
