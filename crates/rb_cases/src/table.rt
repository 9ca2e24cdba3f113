//! What a table is, and how it is written.
//!
//! A file of tables is read as `reader.rt` says. `table KIND NAME` begins a table, and its lines are, without the
//! spaces around them:
//!
//! | Line | Meaning |
//! |---|---|
//! | `COMMAND = ANSWER` | a row: the command must get this answer |
//! | `COMMAND = ANSWER or ANSWER` | a row: the command must get one of these answers |
//! | `times N` | begins rows that are all run N times, at least once, one round after the other |
//! | `end` | ends them |
//! | `over TIMER` | the table is run over this timer alone: `list`, `heap`, `pairing` or `wheel` |
//! | any other | set-up of the kind, before the first row |
//!
//! A row is cut at its last ` = `, and its answers at each ` or `. Commands and answers have the escapes of case
//! files (`text.rt`), such as `\x3D` for a `=`. Between `times` and `end`, `\#` is the number of the round,
//! counted from 0; elsewhere it is 0.
//!
//! The kinds, and the file that describes the commands of each, with their answers:
//!
//! | Kind | About | File |
//! |---|---|---|
//! | `timer` | commands to a timer | `timer_subject.rt` |
//! | `queue` | calls of a kept queue | `queue_subject.rt` |
//! | `lines` | lines of the protocol | `line_subject.rt` |
//! | `words` | words of the command line | `word_subject.rt` |
//! | `jobs` | jobs at the desks at which no call waits | `job_subject.rt` |

use crate::entry::Entry;
use crate::finding::Finding;
use crate::flaw::Flaw;
use crate::kind::Kind;
use crate::line::{Line, cut};
use crate::numbers::number;
use crate::row::Row;
use crate::timers::timer_of;
use rb_options::TimerKind;
use std::alloc::{AllocError, Global};

/// Commands of one kind, each with its answer.
#[derive(Drop)]
pub struct Table<'a> {
    pub line: usize,
    pub kind: Kind,
    over: Option<TimerKind>,
    /// The lines before the rows. Those of `over` are none of the kind's set-up.
    pub set_up: &'a [Line<'a>],
    /// The rows of all rounds, in the order in which they are run.
    pub rows: Vec<Row<'a>>,
}

impl<'a> Table<'a> {
    /// Returns the table that an entry is.
    pub fn read(alloc: Global, entry: Entry<'a>, found: &mut Finding) -> Result<Table<'a>, Flaw> {
        let kind = Kind::of(cut(entry.head).0)?;
        let (set_up, lines) = parts_of(entry.lines);
        let over = timer_in(kind, set_up, found)?;
        let mut rows = Vec::new(alloc);
        read_rows(&mut rows, entry, lines, found)?;
        Ok(Table {
            line: entry.line,
            kind,
            over,
            set_up,
            rows,
        })
    }

    /// Returns whether the table is run over `timer`.
    pub fn is_over(&self, timer: TimerKind) -> bool {
        match self.over {
            Some(only) => only == timer,
            None => true,
        }
    }
}

// Returns the set-up, and the lines from the first row, `times` or `end` on.
fn parts_of<'a>(lines: &'a [Line<'a>]) -> (&'a [Line<'a>], &'a [Line<'a>]) {
    for (place, line) in lines.iter().enumerate() {
        if line.row().is_some() || matches!(line.cut().0, "times" | "end") {
            return lines.split_at_checked(place).unwrap_or((lines, &[]));
        }
    }
    (lines, &[])
}

// Returns the timer that a line with `over` names, if there is one. The other lines are those of a kind with set-up.
fn timer_in(
    kind: Kind,
    set_up: &[Line<'_>],
    found: &mut Finding,
) -> Result<Option<TimerKind>, Flaw> {
    let mut over = None;
    for line in set_up {
        found.line = line.number;
        match (kind, line.cut()) {
            (Kind::Timer | Kind::Queue, ("over", _)) if over.is_some() => return Err(Flaw::Again),
            (Kind::Timer | Kind::Queue, ("over", timer)) => over = Some(timer_of(timer)?),
            (Kind::Queue | Kind::Jobs, _) => (),
            _ => return Err(Flaw::SetUp),
        }
    }
    Ok(over)
}

fn read_rows<'a>(
    rows: &mut Vec<Row<'a>>,
    entry: Entry<'a>,
    lines: &'a [Line<'a>],
    found: &mut Finding,
) -> Result<(), Flaw> {
    // Where the rows behind a `times` without its `end` begin, and how often they are run.
    let mut repeated = None;
    for line in lines {
        found.line = line.number;
        if let Some((command, answers)) = line.row() {
            rows.push(Row {
                line: line.number,
                round: 0,
                command,
                answers,
            })?;
        } else {
            repeated = after_times(rows, *line, repeated)?;
        }
    }
    found.line = entry.line;
    match repeated {
        Some(_) => Err(Flaw::Times),
        None if rows.is_empty() => Err(Flaw::NoRow),
        None => Ok(()),
    }
}

// Takes a line that is not a row. Returns where the rows behind a `times` begin, and how often they are run, if `times`
// has begun.
fn after_times<'a>(
    rows: &mut Vec<Row<'a>>,
    line: Line<'a>,
    repeated: Option<(usize, usize)>,
) -> Result<Option<(usize, usize)>, Flaw> {
    match (line.cut(), repeated) {
        (("times", times), None) => Ok(Some((rows.len(), number(times)?))),
        (("end", _), Some((first, _))) if first == rows.len() => Err(Flaw::NoRow),
        (("end", _), Some((first, times))) => {
            repeat(rows, first, times)?;
            Ok(None)
        }
        (("times" | "end", _), _) => Err(Flaw::Times),
        _ => Err(Flaw::NoAnswer),
    }
}

// Appends the later rounds of the rows from `first` on.
fn repeat(rows: &mut Vec<Row<'_>>, first: usize, times: usize) -> Result<(), AllocError> {
    let end = rows.len();
    for round in 1..times {
        for place in first..end {
            if let Some(row) = rows.get(place) {
                let row = Row { round, ..*row };
                rows.push(row)?;
            }
        }
    }
    Ok(())
}
