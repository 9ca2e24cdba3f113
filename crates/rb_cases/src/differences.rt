use crate::flaw::Flaw;
use std::alloc::Global;

/// Compares what came with what is wanted, and tells what differs.
pub fn compare_texts(told: &mut String, what: &str, came: &str, wanted: &str) -> Result<(), Flaw> {
    if came == wanted {
        return Ok(());
    }
    write!(told, "{what}: {came:?} in place of {wanted:?}")?;
    Err(Flaw::Differs)
}

/// Compares what came with what is wanted, and tells the first lines that differ.
pub fn compare_lines(
    alloc: Global,
    told: &mut String,
    what: &str,
    came: &[u8],
    wanted: &[u8],
) -> Result<(), Flaw> {
    if came == wanted {
        return Ok(());
    }
    let same = same_lines(came, wanted);
    let number = same.saturating_add(1);
    let came = String::from_utf8_lossy(alloc, line_at(came, same))?;
    let wanted = String::from_utf8_lossy(alloc, line_at(wanted, same))?;
    write!(
        told,
        "{what}, line {number}: {came:?} in place of {wanted:?}"
    )?;
    Err(Flaw::Differs)
}

// Returns the number of lines that the texts have in common at their beginning.
fn same_lines(one: &[u8], other: &[u8]) -> usize {
    let lines = one.split_inclusive(is_line_feed);
    let mut same = 0_usize;
    for (line, twin) in lines.zip(other.split_inclusive(is_line_feed)) {
        if line != twin {
            return same;
        }
        same = same.saturating_add(1);
    }
    same
}

// Returns line `number`, counted from 0, or an empty text if there is none.
fn line_at(text: &[u8], number: usize) -> &[u8] {
    text.split_inclusive(is_line_feed)
        .nth(number)
        .unwrap_or(&[])
}

fn is_line_feed(byte: &u8) -> bool {
    *byte == b'\n'
}
