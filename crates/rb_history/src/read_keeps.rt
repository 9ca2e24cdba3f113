ghost use Rattle.std.specs.Prelude.{◌≤◌, IfOk, IfErr, IfSome, IfNone};
ghost use Rattle.rb_protocol.specs.Line.{words_of};
ghost use Rattle.rb_queue.specs.declared.opening.TheConstants.{MOST_OPENING_ELEMENTS};
ghost use Rattle.rb_history.specs.BodyReading.{KeepsNext, KeepsNone, KeepsAll, KeepsFail};

use crate::next_line::cut_line;
use crate::read_opening::{OpenLine, read_keep};
use crate::text_fault::{TextFault, TextReason, at};
use crate::version::Version;
use rb_delayed::Element;
use rb_queue::Items;
use std::alloc::Global;

/// The number of the first line with an element.
pub(crate) const FIRST_KEEP_LINE: u64 = 3;

/// The elements on an opening's lines, as many as were announced, and what follows these lines.
///
/// It takes memory for the lines that are there, not for the number that was announced.
pub(crate) fn read_keeps(
    alloc: Global,
    version: Version,
    told: OpenLine,
    text: &[u8],
) -> Result<(Items, &[u8]), TextFault>
    requires { told.count ≤ MOST_OPENING_ELEMENTS }
    ensures ok { IfOk result (λ cut. KeepsAll version told.next_id told.count text.now cut.0 cut.1.now) }
    ensures err { IfErr result (KeepsFail version told.next_id told.count text.now) }
{
    let mut kept = Vec::new(alloc);
    let mut rest = text;
    // The least id that may come next.
    let mut least = 0;
    for place in 0..told.count {
        let number = FIRST_KEEP_LINE + place;
        let Some((line, behind)) = cut_line(rest) else {
            return Err(at(number, TextReason::End));
        };
        let Some(element) = next_keep(version, line, least, told.next_id) else {
            return Err(at(number, TextReason::Opening));
        };
        least = element.id + 1;
        rest = behind;
        let Ok(()) = kept.push(element) else {
            return Err(TextFault::Memory);
        };
    }
    Ok((Items::new(kept), rest))
}

// The element on a line, whose id is at least `least` and below `end`.
fn next_keep(version: Version, line: &[u8], least: u64, end: u64) -> Option<Element>
    ensures some { IfSome result (KeepsNext version least end (words_of line.now)) }
    ensures none { IfNone result (KeepsNone version least end (words_of line.now)) }
{
    let element = read_keep(version, line)?;
    if element.id < least {
        return None;
    }
    if element.id >= end {
        return None;
    }
    Some(element)
}
