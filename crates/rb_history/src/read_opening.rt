ghost use Rattle.std.specs.Prelude.{◌≡◌, ◌≢◌, ◌++◌, ℕ, IfSome, IfNone};
ghost use Rattle.rb_protocol.specs.Line.{words_of};
ghost use Rattle.rb_delayed.specs.declared.element.Element.{Element};
ghost use Rattle.rb_history.specs.EventText.{header_words, keep_words};
ghost use Rattle.rb_history.specs.HistoryText.{line_text};
ghost use Rattle.rb_history.specs.OpeningReading.{IsOpenLine, HasNoHeader};
ghost use Rattle.rb_history.specs.Ranges.{IsWord, IsRightElement};

use crate::version::Version;
use crate::words::{last_element, last_number, next_word, take_number};
use rb_delayed::Element;
use rb_queue::{GREATEST_OPENING_ID, MOST_OPENING_ELEMENTS};

/// The numbers of an `open` line.
#[derive(Clone, Copy)]
pub(crate) struct OpenLine {
    /// The next id, at most 2^40.
    pub(crate) next_id: u64,
    /// The last moment, in nanoseconds.
    pub(crate) last_at: u64,
    /// The number of elements, at most 1,000,000.
    pub(crate) count: u64,
}

/// The version that a text begins with, and what follows its first line.
pub(crate) fn read_header(text: &[u8]) -> Option<(Version, &[u8])>
    ensures some { IfSome result (λ cut. text.now ≡ line_text (header_words cut.0) ++ cut.1.now) }
    ensures none { IfNone result (HasNoHeader text.now) }
{
    if let Some(rest) = text.strip_prefix(b"history 3\n") {
        return Some((Version::Three, rest));
    }
    if let Some(rest) = text.strip_prefix(b"history 2\n") {
        return Some((Version::Two, rest));
    }
    if let Some(rest) = text.strip_prefix(b"history 1\n") {
        return Some((Version::One, rest));
    }
    None
}

/// The numbers on the first line of an opening, if they are within their limits.
pub(crate) fn read_open(line: &[u8]) -> Option<OpenLine>
    ensures some { IfSome result (λ told. IsOpenLine (words_of line.now) told.next_id told.last_at told.count) }
    ensures small { IfSome result (λ told. IsWord told.last_at) }
    ensures none { IfNone result ((next_id last_at count : ℕ) → IsWord last_at
        → IsOpenLine (words_of line.now) next_id last_at count → ⊥) }
{
    let (word, rest) = next_word(Some(line))?;
    if word != b"open".as_slice() {
        return None;
    }
    let (next_id, rest) = take_number(rest)?;
    let (last_at, rest) = take_number(rest)?;
    let count = last_number(rest)?;
    if next_id > GREATEST_OPENING_ID {
        return None;
    }
    if count > MOST_OPENING_ELEMENTS as u64 {
        return None;
    }
    Some(OpenLine {
        next_id,
        last_at,
        count,
    })
}

/// The element on a line of an opening.
pub(crate) fn read_keep(version: Version, line: &[u8]) -> Option<Element>
    ensures some { IfSome result (λ element. words_of line.now ≡ keep_words version element) }
    ensures right { IfSome result IsRightElement }
    ensures none { IfNone result ((element : Element) → IsRightElement element
        → words_of line.now ≢ keep_words version element) }
{
    let (word, rest) = next_word(Some(line))?;
    if word != b"keep".as_slice() {
        return None;
    }
    last_element(version, rest)
}
