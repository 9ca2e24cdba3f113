ghost use Rattle.std.specs.Prelude.{◌≤◌, length, IfOk};
ghost use Rattle.rb_history.specs.Readings.{Reads, ReadsEach};
ghost use Rattle.rb_history.specs.Ranges.{IsRightHistory};
ghost use Rattle.rb_history.specs.Settling.{IsSettled, HasFirsts};

use crate::firsts::Firsts;
use crate::history::History;
use crate::read_opening::read_header;
use crate::read_run::read_run;
use crate::text_fault::{TextFault, TextReason, at};
use crate::version::Version;
use crate::write::MOST_EVENTS;
use rb_queue::{Items, Opening, Sequence};
use std::alloc::{AllocError, Global};

/// Reads the text of a history in any of its versions, with at most 1,000,000 events. It takes memory
/// for the elements and the events on the lines that are there, not for numbers that the text announces.
///
/// For any other text it returns the first fault, and the number of its line, counted from 1: `Header`
/// if the first line is none of the headers; `Opening` if a line of the opening is malformed or exceeds
/// a limit; `Line` if another line is neither an event nor the last line; `Many` if an event follows
/// 1,000,000 others; `Count` if the number on the last line is not that of the events; `Trailing` if
/// bytes follow the last line; `End` if the text stops before the end of its last line. The fault
/// `Memory` means that there is not enough memory.
pub fn read_history(alloc: Global, text: &[u8]) -> Result<History, TextFault>
    ensures reads { Reads text.now result }
    ensures each { ReadsEach text.now result }
    ensures right { IfOk result IsRightHistory }
    ensures few { IfOk result (λ history. length history.events ≤ MOST_EVENTS) }
{
    read_right(alloc, text)
}

// Reads a text. The history's values are in their ranges.
fn read_right(alloc: Global, text: &[u8]) -> Result<History, TextFault>
    ensures reads { Reads text.now result }
    ensures right { IfOk result IsRightHistory }
{
    let Some((version, behind)) = read_header(text) else {
        return Err(at(1, TextReason::Header));
    };
    let told = read_run(alloc, version, behind)?;
    let Ok(history) = settled(alloc, version, told) else {
        return Err(TextFault::Memory);
    };
    Ok(history)
}

// The history with the first expiries that its version leaves out.
fn settled(alloc: Global, version: Version, told: History) -> Result<History, AllocError>
    requires { IsRightHistory told }
    ensures { IfOk result (IsSettled version told) }
{
    match version {
        Version::Three => Ok(told),
        Version::One | Version::Two => with_firsts(alloc, told),
    }
}

// The history in which an element's first expiry is that of the earliest line with its origin.
fn with_firsts(alloc: Global, told: History) -> Result<History, AllocError>
    requires { IsRightHistory told }
    ensures { IfOk result (HasFirsts told) }
{
    let History { opening, events } = told;
    let Opening {
        elements,
        next_id,
        last_at,
    } = opening;
    let mut firsts = Firsts::new(alloc);
    let mut kept = elements.into_vec();
    firsts.settle_elements(&mut kept)?;
    let mut events = events.into_vec();
    firsts.settle_events(&mut events)?;
    Ok(History {
        opening: Opening {
            elements: Items::new(kept),
            next_id,
            last_at,
        },
        events: Sequence::new(events),
    })
}
