use crate::bench::Bench;
use crate::desks::run_desks;
use crate::finding::Finding;
use crate::flaw::Flaw;
use crate::kind::Kind;
use crate::line::Line;
use crate::line_subject::LineSubject;
use crate::numbers::number;
use crate::queue_subject::QueueSubject;
use crate::subject::{Command, FromSetUp, Subject};
use crate::table::Table;
use crate::text::Text;
use crate::timer_subject::TimerSubject;
use crate::timers::{TIMERS, timer_name};
use crate::told::Told;
use crate::word_subject::WordSubject;
use rb_options::TimerKind;
use rb_runs::over_timer;
use rb_timer::Timer;
use std::alloc::Global;
use std::sync::Wait;
use std::{str, time};

/// Runs a table. It differs if a row gets no right answer: what is told is then about the first such row.
pub fn run_table<R: Wait + time::Clock>(
    rt: &R,
    alloc: Global,
    table: &Table<'_>,
    found: &mut Finding,
) -> Result<(), Flaw> {
    found.begin(table.line, "")?;
    match table.kind {
        Kind::Timer | Kind::Queue => over_timers(alloc, table, found),
        Kind::Lines => run_with::<LineSubject>(alloc, table, found),
        Kind::Words => run_with::<WordSubject>(alloc, table, found),
        Kind::Jobs => run_desks(rt, alloc, table, found),
    }
}

fn over_timers(alloc: Global, table: &Table<'_>, found: &mut Finding) -> Result<(), Flaw> {
    for timer in TIMERS {
        if table.is_over(timer) {
            over(alloc, table, timer, found)?;
        }
    }
    Ok(())
}

fn over(
    alloc: Global,
    table: &Table<'_>,
    timer: TimerKind,
    found: &mut Finding,
) -> Result<(), Flaw> {
    let name = timer_name(timer);
    found.begin(table.line, "over ")?;
    write!(found.told, "{name}, ")?;
    over_timer!(timer, with_timer::<_>(alloc, table, found))
}

fn with_timer<T: Timer>(alloc: Global, table: &Table<'_>, found: &mut Finding) -> Result<(), Flaw> {
    match table.kind {
        Kind::Timer => run_with::<TimerSubject<T>>(alloc, table, found),
        _ => run_with::<QueueSubject<T>>(alloc, table, found),
    }
}

fn run_with<S: FromSetUp>(
    alloc: Global,
    table: &Table<'_>,
    found: &mut Finding,
) -> Result<(), Flaw> {
    let mut subject = S::begin(alloc, table, found)?;
    run_rows(alloc, &mut subject, table, found)
}

/// Runs the rows. What is to be printed before a difference is told already.
pub fn run_rows<S: Subject>(
    alloc: Global,
    subject: &mut S,
    table: &Table<'_>,
    found: &mut Finding,
) -> Result<(), Flaw> {
    let mut bench = Bench::new(alloc);
    for row in &table.rows {
        found.line = row.line;
        bench.take(*row)?;
        perform(alloc, subject, &bench.command.bytes, &mut bench.came)?;
        bench.compare(alloc, *row, found)?;
    }
    Ok(())
}

fn perform<S: Subject>(
    alloc: Global,
    subject: &mut S,
    bytes: &[u8],
    came: &mut Told,
) -> Result<(), Flaw> {
    let text = str::from_utf8(bytes).unwrap_or_default();
    let words: Vec<&str> = text.split_whitespace().collect(alloc)?;
    let command = Command {
        bytes,
        words: &words,
    };
    subject.answer(alloc, command, came)
}
