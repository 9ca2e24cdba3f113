ghost use Rattle.std.specs.Prelude.{◌≡◌, ◌≢◌, ℕ, IfOk, IfSome, IfNone};
ghost use Rattle.rb_protocol.specs.Line.{words_of};
ghost use Rattle.rb_history.specs.EventText.{end_words};
ghost use Rattle.rb_history.specs.LineReading.{ReadsEvent};
ghost use Rattle.rb_history.specs.Ranges.{IsWord};

use crate::read_act::read_act;
use crate::version::Version;
use crate::words::{last_number, next_word, take_number};
use rb_queue::Event;
use std::alloc::{AllocError, Global};

/// The event that a line is.
pub(crate) fn read_event(
    alloc: Global,
    version: Version,
    line: &[u8],
) -> Result<Option<Event>, AllocError>
    ensures { IfOk result (ReadsEvent version (words_of line.now)) }
{
    let Some((seat, words)) = take_number(Some(line)) else {
        return Ok(None);
    };
    let Some((asked, words)) = take_number(words) else {
        return Ok(None);
    };
    let Some((at, words)) = take_number(words) else {
        return Ok(None);
    };
    let Some(act) = read_act(alloc, version, words)? else {
        return Ok(None);
    };
    Ok(Some(Event {
        seat,
        asked,
        at,
        act,
    }))
}

/// The number of events on a last line.
pub(crate) fn read_end(line: &[u8]) -> Option<u64>
    ensures some { IfSome result (λ count. words_of line.now ≡ end_words count) }
    ensures small { IfSome result IsWord }
    ensures none { IfNone result ((count : ℕ) → IsWord count → words_of line.now ≢ end_words count) }
{
    let (word, rest) = next_word(Some(line))?;
    if word != b"end".as_slice() {
        return None;
    }
    last_number(rest)
}
