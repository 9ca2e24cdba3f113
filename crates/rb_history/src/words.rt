ghost use Rattle.std.specs.Prelude.{◌≡◌, ◌≢◌, ◌≤◌, ℕ, List, Option, [], ◌∷◌, ◌++◌, decimal, IfSome, IfNone};
ghost use Rattle.rb_protocol.specs.Words.{words_behind};
ghost use Rattle.rb_history.specs.EventText.{given_words, first_words, whole_element_words};
ghost use Rattle.rb_history.specs.Ranges.{IsWord, IsRightGiven, IsRightElement};
ghost use Rattle.rb_delayed.specs.Payload.{IsPayload};
ghost use Rattle.rb_delayed.specs.declared.element.TheConstants.{GREATEST_ATTEMPT};
ghost use Rattle.rb_delayed.specs.declared.element.Element.{Element};

use crate::version::Version;
use rb_delayed::{Element, GREATEST_ATTEMPT, Payload};
use rb_protocol::{cut_word, read_number};

/// Takes the first of the remaining words of a line. `None` exactly if none is left.
pub(crate) fn next_word(words: Option<&[u8]>) -> Option<(&[u8], Option<&[u8]>)>
    ensures some { IfSome result (λ cut. words_behind words.entry ≡ cut.0.now ∷ words_behind cut.1) }
    ensures none { IfNone result (words_behind words.entry ≡ []) }
{
    Some(cut_word(words?))
}

/// Takes a number, if the first remaining word is one.
pub(crate) fn take_number(words: Option<&[u8]>) -> Option<(u64, Option<&[u8]>)>
    ensures some { IfSome result (λ cut. words_behind words.entry ≡ decimal cut.0 ∷ words_behind cut.1) }
    ensures small { IfSome result (λ cut. IsWord cut.0) }
    ensures none { IfNone result ((number : ℕ) (others : List (List ℕ)) → IsWord number
        → words_behind words.entry ≢ decimal number ∷ others) }
{
    let (word, rest) = next_word(words)?;
    Some((read_number(word)?, rest))
}

/// The number that is the only remaining word.
pub(crate) fn last_number(words: Option<&[u8]>) -> Option<u64>
    ensures some { IfSome result (λ number. words_behind words.entry ≡ decimal number ∷ []) }
    ensures small { IfSome result IsWord }
    ensures none { IfNone result ((number : ℕ) → IsWord number
        → words_behind words.entry ≢ decimal number ∷ []) }
{
    let (number, rest) = take_number(words)?;
    if rest.is_some() {
        return None;
    }
    Some(number)
}

/// Takes the number of an attempt.
pub(crate) fn take_attempt(words: Option<&[u8]>) -> Option<(u32, Option<&[u8]>)>
    ensures some { IfSome result (λ cut. words_behind words.entry ≡ decimal cut.0 ∷ words_behind cut.1) }
    ensures from_one { IfSome result (λ cut. 1 ≤ cut.0) }
    ensures in_range { IfSome result (λ cut. cut.0 ≤ GREATEST_ATTEMPT) }
    ensures none { IfNone result ((number : ℕ) (others : List (List ℕ)) → 1 ≤ number → number ≤ GREATEST_ATTEMPT
        → words_behind words.entry ≢ decimal number ∷ others) }
{
    let (number, rest) = take_number(words)?;
    if number == 0 {
        return None;
    }
    if number > u64::from(GREATEST_ATTEMPT) {
        return None;
    }
    Some((number as u32, rest))
}

/// The payload that is the only remaining word.
pub(crate) fn last_payload(words: Option<&[u8]>) -> Option<Payload>
    ensures some { IfSome result (λ payload. words_behind words.entry ≡ payload ∷ []) }
    ensures valid { IfSome result IsPayload }
    ensures none { IfNone result ((payload : List ℕ) → IsPayload payload
        → words_behind words.entry ≢ payload ∷ []) }
{
    let (word, rest) = next_word(words)?;
    if rest.is_some() {
        return None;
    }
    Payload::new(word).ok()
}

/// What the only remaining word is: an id, or `none`.
pub(crate) fn last_given(words: Option<&[u8]>) -> Option<Option<u64>>
    ensures some { IfSome result (λ given. words_behind words.entry ≡ given_words given) }
    ensures right { IfSome result IsRightGiven }
    ensures none { IfNone result ((given : Option ℕ) → IsRightGiven given
        → words_behind words.entry ≢ given_words given) }
{
    let (word, rest) = next_word(words)?;
    if rest.is_some() {
        return None;
    }
    if word == b"none".as_slice() {
        return Some(None);
    }
    Some(Some(read_number(word)?))
}

/// The element that the remaining words are.
pub(crate) fn last_element(version: Version, words: Option<&[u8]>) -> Option<Element>
    ensures some { IfSome result (λ element. words_behind words.entry ≡ whole_element_words version element) }
    ensures right { IfSome result IsRightElement }
    ensures none { IfNone result ((element : Element) → IsRightElement element
        → words_behind words.entry ≢ whole_element_words version element) }
{
    let (id, words) = take_number(words)?;
    let (expiry, words) = take_number(words)?;
    let (origin, words) = take_number(words)?;
    let (first, words) = take_first(version, expiry, words)?;
    let (attempt, words) = take_attempt(words)?;
    let payload = last_payload(words)?;
    Some(Element {
        id,
        expiry,
        origin,
        first,
        attempt,
        payload,
    })
}

// Takes the expiry of the origin's first offer. If the version leaves it out, gives the element's own.
fn take_first(version: Version, expiry: u64, words: Option<&[u8]>) -> Option<(u64, Option<&[u8]>)>
    ensures some { IfSome result (λ cut. words_behind words.entry
        ≡ first_words version cut.0 ++ words_behind cut.1) }
    ensures small { IfSome result (λ cut. IsWord cut.0) }
    ensures none { IfNone result ((first : ℕ) (others : List (List ℕ)) → IsWord first
        → words_behind words.entry ≢ first_words version first ++ others) }
{
    match version {
        Version::Three => take_number(words),
        Version::One => Some((expiry, words)),
        Version::Two => Some((expiry, words)),
    }
}
