ghost use Rattle.std.specs.Prelude.{◌≡◌, ℕ, List, ◌∷◌, IfSome, IfNone};
ghost use Rattle.rb_protocol.specs.Line.{words_of};
ghost use Rattle.rb_protocol.specs.Words.{first_space, words_behind, place_words, AreFew};

use crate::format::SPACE;

/// The words after a keyword, as parts of their line, before the number and the payload are read.
#[derive(Clone, Copy)]
pub(crate) enum WordPlaces<'a> {
    Nothing,
    One(&'a [u8]),
    Two(&'a [u8], &'a [u8]),
}

/// Splits a line at its spaces into a keyword and the words after it. `None` exactly if more than
/// two words follow, or one of them is empty.
pub(crate) fn read_line_words(line: &[u8]) -> Option<(&[u8], WordPlaces<'_>)>
    ensures words { IfSome result (λ words. words_of line.now ≡ words.0.now ∷ place_words words.1) }
    ensures few { IfSome result (λ words. AreFew (place_words words.1)) }
    ensures none { IfNone result ((keyword : List ℕ) (places : List (List ℕ))
        → words_of line.now ≡ keyword ∷ places → AreFew places → ⊥) }
{
    let (keyword, rest) = cut_word(line);
    Some((keyword, read_places(rest)?))
}

// The words of what follows the keyword.
fn read_places(rest: Option<&[u8]>) -> Option<WordPlaces<'_>>
    ensures words { IfSome result (λ places. place_words places ≡ words_behind rest.entry) }
    ensures few { IfSome result (λ places. AreFew (place_words places)) }
    ensures none { IfNone result (¬ AreFew (words_behind rest.entry)) }
{
    let Some(rest) = rest else {
        return Some(WordPlaces::Nothing);
    };
    let (word, rest) = cut_word(rest);
    let Some(rest) = rest else {
        return (!word.is_empty()).then_some(WordPlaces::One(word));
    };
    let (other, rest) = cut_word(rest);
    if word.is_empty() || other.is_empty() || rest.is_some() {
        return None;
    }
    Some(WordPlaces::Two(word, other))
}

/// The first word of a text, and what follows the space that ends it, if there is one.
pub fn cut_word(text: &[u8]) -> (&[u8], Option<&[u8]>)
    ensures { words_of text.now ≡ result.0.now ∷ words_behind result.1 }
{
    match first_space(text) {
        Some(place) => (&text[..place], Some(&text[place + 1..])),
        None => (text, None),
    }
}

// The place of the first space.
fn first_space(text: &[u8]) -> Option<usize>
    ensures { result ≡ first_space text.now }
{
    text.iter().position(|&byte| byte == SPACE)
}
