ghost use Rattle.std.specs.Prelude.{◌≡◌, ◌≢◌, ◌≤◌, ◌↔◌, IsTrue, IfOk, IfErr};
ghost use Rattle.rb_history.specs.BodyReading.{TellsNumbers, NumbersFail, TellsOpening};
ghost use Rattle.rb_history.specs.BodyReading.{OpeningFails, TellsRun, RunFails, line_behind};
ghost use Rattle.rb_history.specs.OpeningReading.{MayOpen};

use crate::history::History;
use crate::next_line::cut_line;
use crate::read_events::read_events;
use crate::read_keeps::{FIRST_KEEP_LINE, read_keeps};
use crate::read_opening::{OpenLine, read_open};
use crate::text_fault::{TextFault, TextReason, at};
use crate::version::Version;
use rb_queue::Opening;
use std::alloc::Global;

// The number of the line with an opening's numbers, or in the first version of the first event.
const SECOND_LINE: u64 = 2;

/// What the lines after the header say. If the version leaves out an element's first expiry, it is
/// the element's own.
pub(crate) fn read_run(alloc: Global, version: Version, text: &[u8]) -> Result<History, TextFault>
    ensures ok { IfOk result (TellsRun version text.now) }
    ensures err { IfErr result (RunFails version text.now) }
{
    let (opening, rest) = match read_opening(alloc, version, text) {
        Ok(cut) => cut,
        Err(fault) => return Err(fault),
    };
    let first = line_behind(version, &opening);
    let events = read_events(alloc, version, rest, first)?;
    Ok(History { opening, events })
}

// The number of the line after the opening's.
fn line_behind(version: Version, opening: &Opening) -> u64
    ensures number { result ≡ line_behind version opening.now }
    ensures small { result ≤ 2_000_000 }
{
    match version {
        Version::One => SECOND_LINE,
        Version::Two | Version::Three => {
            FIRST_KEEP_LINE + opening.elements.as_slice().len() as u64
        }
    }
}

// The opening, which the first version leaves out, and what follows its lines.
fn read_opening(alloc: Global, version: Version, text: &[u8]) -> Result<(Opening, &[u8]), TextFault>
    ensures ok { IfOk result (λ cut. TellsOpening version text.now cut.0 cut.1.now) }
    ensures err { IfErr result (OpeningFails version text.now) }
{
    match version {
        Version::One => Ok((Opening::empty(alloc), text)),
        Version::Two | Version::Three => read_told(alloc, version, text),
    }
}

// The opening on the lines, and what follows them.
fn read_told(alloc: Global, version: Version, text: &[u8]) -> Result<(Opening, &[u8]), TextFault>
    requires { version ≢ Version.One }
    ensures ok { IfOk result (λ cut. TellsOpening version text.now cut.0 cut.1.now) }
    ensures err { IfErr result (OpeningFails version text.now) }
{
    let (told, behind) = read_numbers(version, text)?;
    let (elements, rest) = match read_keeps(alloc, version, told, behind) {
        Ok(cut) => cut,
        Err(fault) => return Err(fault),
    };
    let opening = Opening {
        elements,
        next_id: told.next_id,
        last_at: told.last_at,
    };
    Ok((opening, rest))
}

// The numbers of an opening, and what follows their line.
fn read_numbers(version: Version, text: &[u8]) -> Result<(OpenLine, &[u8]), TextFault>
    requires { version ≢ Version.One }
    ensures ok { IfOk result (λ cut. TellsNumbers version text.now cut.0 cut.1.now) }
    ensures err { IfErr result (NumbersFail version text.now) }
{
    let Some((line, behind)) = cut_line(text) else {
        return Err(at(SECOND_LINE, TextReason::End));
    };
    let Some(told) = read_open(line) else {
        return Err(at(SECOND_LINE, TextReason::Opening));
    };
    if !may_open(version, told) {
        return Err(at(SECOND_LINE, TextReason::Opening));
    }
    Ok((told, behind))
}

// Whether the version has a line of these numbers: the second leaves the empty opening to the first.
fn may_open(version: Version, told: OpenLine) -> bool
    requires { version ≢ Version.One }
    ensures { IsTrue result ↔ MayOpen version told.next_id told.last_at told.count }
{
    let empty = told.next_id == 0 && told.last_at == 0 && told.count == 0;
    version == Version::Three || !empty
}
