ghost use Rattle.rb_serving.specs.ServeText.{Prints, listening_text, report_text};

use crate::serve_report::ServeReport;
use rb_ending::{BrokerFault, audit_line};
use rb_protocol::{LimitedWriter, WriteFault, WriterStatus, send_at_once};
use rb_timer::Timer;
use std::alloc::Global;
use std::io::Write;

/// Prints the line that says at which port of 127.0.0.1 clients are served, and flushes.
///
/// The faults are `Memory`, before anything is written, and `Write`.
pub fn print_listening<W: Write>(
    alloc: Global,
    writer: &mut W,
    port: u16,
) -> Result<(), BrokerFault>
    ensures { Prints W.contents result writer.old (listening_text port) writer.new }
{
    let line = format!(in alloc; "listening 127.0.0.1:{port}\n")?;
    print(writer, &line)
}

/// Prints how many sessions, faults and lost jobs there were, and the audit line, and flushes.
///
/// The faults are `Memory`, before anything is written, and `Write`.
pub(crate) fn print_report<T: Timer, W: Write>(
    alloc: Global,
    writer: &mut W,
    report: &ServeReport<T>,
) -> Result<(), BrokerFault>
    ensures { Prints W.contents result writer.old (report_text report.now) writer.new }
{
    let (sessions, faults, lost) = (report.sessions, report.faults, report.lost);
    let mut text = format!(in alloc; "sessions {sessions} faults {faults} lost {lost}\n")?;
    text.push_str(&audit_line(alloc, &report.audit)?)?;
    print(writer, &text)
}

// Writes a text and flushes.
fn print<W: Write>(writer: &mut W, text: &str) -> Result<(), BrokerFault>
    ensures { Prints W.contents result writer.old text.now writer.new }
{
    let mut status = WriterStatus::of(&*writer);
    let mut writer = LimitedWriter::new(writer, &mut status);
    match send_at_once(&mut writer, &(), text.as_bytes()) {
        Ok(()) => Ok(()),
        Err(WriteFault) => Err(BrokerFault::Write),
    }
}
