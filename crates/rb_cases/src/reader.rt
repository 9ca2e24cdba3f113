//! How a file of cases or of tables is read.
//!
//! A file is a list of lines. A line that is blank or begins with `#` is a comment. A line that begins
//! with `case` or `table` begins an entry, and the lines up to the next one belong to it. No two entries
//! of a file have the same name.

use crate::case::Case;
use crate::entry::Entry;
use crate::finding::Finding;
use crate::flaw::Flaw;
use crate::line::Line;
use crate::table::Table;
use std::alloc::{AllocError, Global};

/// Returns the lines of a file that are not comments, without the spaces around them in a file of tables. The finding
/// is then at the last line of the file.
pub fn lines_of<'a>(
    alloc: Global,
    is_table: bool,
    text: &'a str,
    found: &mut Finding,
) -> Result<Vec<Line<'a>>, AllocError> {
    let mut lines = Vec::new(alloc);
    let mut number = 0_usize;
    for line in text.lines() {
        number = number.saturating_add(1);
        found.line = number;
        if !line.trim().is_empty() && !line.starts_with('#') {
            let text = if is_table { line.trim() } else { line };
            lines.push(Line { number, text })?;
        }
    }
    Ok(lines)
}

/// Returns the entries of a file, tables or cases. There is at least one, and each is as it must be.
pub fn entries_of<'a>(
    alloc: Global,
    is_table: bool,
    lines: &'a [Line<'a>],
    found: &mut Finding,
) -> Result<Vec<Entry<'a>>, Flaw> {
    check_first(is_table, lines, found)?;
    let mut entries = Vec::new(alloc);
    for (place, line) in lines.iter().enumerate() {
        if begins(is_table, *line) {
            let entry = Entry {
                is_table,
                line: line.number,
                head: line.cut().1,
                lines: up_to_next(
                    is_table,
                    lines.get(place.saturating_add(1)..).unwrap_or(&[]),
                ),
            };
            check(alloc, entry, &entries, found)?;
            entries.push(entry)?;
        }
    }
    Ok(entries)
}

fn begins(is_table: bool, line: Line<'_>) -> bool {
    line.cut().0 == if is_table { "table" } else { "case" }
}

// Checks that the first line begins an entry.
fn check_first(is_table: bool, lines: &[Line<'_>], found: &mut Finding) -> Result<(), Flaw> {
    let Some(line) = lines.first() else {
        return Err(Flaw::NoEntry);
    };
    found.line = line.number;
    if begins(is_table, *line) {
        Ok(())
    } else {
        Err(Flaw::NoEntry)
    }
}

fn up_to_next<'a>(is_table: bool, lines: &'a [Line<'a>]) -> &'a [Line<'a>] {
    for (length, line) in lines.iter().enumerate() {
        if begins(is_table, *line) {
            return lines.get(..length).unwrap_or(lines);
        }
    }
    lines
}

// Checks an entry that comes behind `earlier`.
fn check(
    alloc: Global,
    entry: Entry<'_>,
    earlier: &[Entry<'_>],
    found: &mut Finding,
) -> Result<(), Flaw> {
    found.line = entry.line;
    if entry.name().trim().is_empty() {
        return Err(Flaw::Name);
    }
    for other in earlier {
        if other.name() == entry.name() {
            return Err(Flaw::SameName);
        }
    }
    if entry.is_table {
        Table::read(alloc, entry, found)?;
    } else {
        Case::read(alloc, entry, found)?;
    }
    Ok(())
}
