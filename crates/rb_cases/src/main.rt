//! Runs the cases and tables of text files, and prints a line about each.
//!
//! The words of the command line are the files. One whose name ends in `.rows` has tables, which `table.rt`
//! describes, and any other has cases, which `case.rt` describes. A script is run over each timer, with its
//! replies at once and gathered, and read whole, byte by byte, seven bytes at a time and, if it has at most
//! 1,000 bytes, in two parts, cut at every place. The last line has the counts. The exit status is 0 if every case and table came out as it must, 1 if
//! one did not, and 2 if a file can't be read or is malformed; standard error then names the file, the line and
//! the reason.
#![tactic(auto)]

mod bench;
mod case;
mod counters;
mod desks;
mod devices;
mod differences;
mod elements;
mod entry;
mod finding;
mod fixed_clock;
mod flaw;
mod form;
mod job_subject;
mod kind;
mod line;
mod line_subject;
mod numbers;
mod once;
mod queue_subject;
mod reader;
mod reads;
mod replays;
mod report;
mod row;
mod scripts;
mod sink;
mod source;
mod stopped;
mod subject;
mod table;
mod tables;
mod text;
mod timer_subject;
mod timers;
mod told;
mod word_subject;

use case::Case;
use entry::Entry;
use finding::Finding;
use flaw::Flaw;
use line::Line;
use reader::{entries_of, lines_of};
use replays::run_replay_case;
use report::Report;
use scripts::run_script_case;
use std::alloc::Global;
use std::process::ExitCode;
use std::sync::Wait;
use std::{env, fs, io, time};
use stopped::Stopped;
use table::Table;
use tables::run_table;

fn main(rt: HostRuntime) -> ExitCode {
    match run_all(&rt, &rt) {
        Ok(report) => report.status(),
        Err(Stopped) => ExitCode::from(2),
    }
}

// Runs all files, and prints the count.
fn run_all<R: Wait + time::Clock>(rt: &HostRuntime, handle: &R) -> Result<Report, Stopped> {
    let words = words_of(rt)?;
    if words.len() < 2 {
        return Err(stop(rt, "no file of cases or tables is named"));
    }
    let mut report = Report::new();
    for path in words.iter().skip(1) {
        run_file(rt, handle, path, &mut report)?;
    }
    count(rt, &report)?;
    Ok(report)
}

fn words_of(rt: &HostRuntime) -> Result<Vec<String>, Stopped> {
    match command_line(rt) {
        Ok(words) => Ok(words),
        Err(_) => Err(stop(rt, "the words of the command line can't be read")),
    }
}

fn command_line(rt: &HostRuntime) -> io::Result<Vec<String>> {
    Ok(env::args(rt)?.collect(rt.alloc())?)
}

fn run_file<R: Wait + time::Clock>(
    rt: &HostRuntime,
    handle: &R,
    path: &str,
    report: &mut Report,
) -> Result<(), Stopped> {
    let Ok(text) = fs::read_to_string(rt, path) else {
        let _ = eprintln!(rt; "{path}: the file can't be read as text");
        return Err(Stopped);
    };
    let mut found = Finding::new(rt.alloc());
    match lines_of(rt.alloc(), path.ends_with(".rows"), &text, &mut found) {
        Ok(lines) => run_entries(rt, handle, path, &lines, report, &mut found),
        Err(_) => Err(stop_at(rt, path, &found, Flaw::Memory)),
    }
}

// Runs the cases or tables of a file, once all of it is read.
fn run_entries<R: Wait + time::Clock>(
    rt: &HostRuntime,
    handle: &R,
    path: &str,
    lines: &[Line<'_>],
    report: &mut Report,
    found: &mut Finding,
) -> Result<(), Stopped> {
    match entries_of(rt.alloc(), path.ends_with(".rows"), lines, found) {
        Ok(entries) => run_each(rt, handle, path, &entries, report, found),
        Err(flaw) => Err(stop_at(rt, path, found, flaw)),
    }
}

fn run_each<R: Wait + time::Clock>(
    rt: &HostRuntime,
    handle: &R,
    path: &str,
    entries: &[Entry<'_>],
    report: &mut Report,
    found: &mut Finding,
) -> Result<(), Stopped> {
    for entry in entries {
        run_entry(rt, handle, path, *entry, report, found)?;
    }
    Ok(())
}

// Runs a case or a table, and prints its line.
fn run_entry<R: Wait + time::Clock>(
    rt: &HostRuntime,
    handle: &R,
    path: &str,
    entry: Entry<'_>,
    report: &mut Report,
    found: &mut Finding,
) -> Result<(), Stopped> {
    match outcome(handle, rt.alloc(), entry, found) {
        Ok(()) => {
            report.add(entry.is_table, false);
            print_line(rt, path, entry.name(), "ok")
        }
        Err(Flaw::Differs) => {
            report.add(entry.is_table, true);
            print_line(rt, path, entry.name(), &found.told)
        }
        Err(flaw) => Err(stop_at(rt, path, found, flaw)),
    }
}

fn outcome<R: Wait + time::Clock>(
    handle: &R,
    alloc: Global,
    entry: Entry<'_>,
    found: &mut Finding,
) -> Result<(), Flaw> {
    if entry.is_table {
        let table = Table::read(alloc, entry, found)?;
        run_table(handle, alloc, &table, found)
    } else {
        let case = Case::read(alloc, entry, found)?;
        run_case(alloc, &case, found)
    }
}

fn run_case(alloc: Global, case: &Case<'_>, found: &mut Finding) -> Result<(), Flaw> {
    if case.is_script() {
        run_script_case(alloc, case, found)
    } else {
        run_replay_case(alloc, case, found)
    }
}

fn print_line(rt: &HostRuntime, path: &str, name: &str, told: &str) -> Result<(), Stopped> {
    match println!(rt; "{path}: {name}: {told}") {
        Ok(()) => Ok(()),
        Err(_) => Err(stop(rt, "standard output can't be written")),
    }
}

// Prints the last line.
fn count(rt: &HostRuntime, report: &Report) -> Result<(), Stopped> {
    let (cases, tables, wrong) = (report.cases, report.tables, report.wrong);
    match println!(rt; "{cases} cases and {tables} tables, {wrong} not as they must be") {
        Ok(()) => Ok(()),
        Err(_) => Err(stop(rt, "standard output can't be written")),
    }
}

// Says where a file is malformed.
fn stop_at(rt: &HostRuntime, path: &str, found: &Finding, flaw: Flaw) -> Stopped {
    let (line, reason) = (found.line, flaw.as_str());
    let _ = eprintln!(rt; "{path}:{line}: {reason}");
    Stopped
}

// Says why the run stops.
fn stop(rt: &HostRuntime, reason: &str) -> Stopped {
    let _ = eprintln!(rt; "rb_cases: {reason}");
    Stopped
}
