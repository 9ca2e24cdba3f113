ghost use Rattle.std.specs.Prelude.{◌≡◌, ◌≤◌, ◌^◌};
ghost use Rattle.rb_history.specs.TextFaults.{ReadsEvents, EndsWell};

use crate::next_line::cut_line;
use crate::read_event::{read_end, read_event};
use crate::text_fault::{TextFault, TextReason, at};
use crate::version::Version;
use crate::write::MOST_EVENTS;
use rb_queue::{Event, Sequence};
use std::alloc::Global;

/// The events on a text's lines, up to the last line. The first of them has this number.
pub(crate) fn read_events(
    alloc: Global,
    version: Version,
    text: &[u8],
    first: u64,
) -> Result<Sequence<Event>, TextFault>
    requires { first ≤ 2_000_000 }
    ensures { ReadsEvents version text.now first result }
{
    let mut events = Vec::new(alloc);
    let mut rest = text;
    while let Some((line, behind)) = cut_line(rest) {
        let count = events.len();
        let number = first + count as u64;
        if let Some(told) = read_end(line) {
            end_fault(told, count as u64, behind, number)?;
            return Ok(Sequence::new(events));
        }
        let Ok(found) = read_event(alloc, version, line) else {
            return Err(TextFault::Memory);
        };
        let Some(event) = found else {
            return Err(at(number, TextReason::Line));
        };
        if count >= MOST_EVENTS {
            return Err(at(number, TextReason::Many));
        }
        let Ok(()) = events.push(event) else {
            return Err(TextFault::Memory);
        };
        rest = behind;
    }
    Err(at(first + events.len() as u64, TextReason::End))
}

// The fault of the last line, which has this number, or of what follows it.
fn end_fault(told: u64, count: u64, behind: &[u8], number: u64) -> Result<(), TextFault>
    requires { number ≤ 2 ^ 63 }
    ensures { EndsWell told count behind.now number result }
{
    if told != count {
        return Err(at(number, TextReason::Count));
    }
    if !behind.is_empty() {
        return Err(at(number + 1, TextReason::Trailing));
    }
    Ok(())
}
