ghost use Rattle.std.specs.Prelude.{◌≡◌, ◌≢◌, ℕ, List, ◌∷◌, codes, decimal, map, IfOk, MatchOption};
ghost use Rattle.rb_protocol.specs.Words.{words_behind};
ghost use Rattle.rb_history.specs.LineReading.{ReadsAct, ReadsAlike};
ghost use Rattle.rb_history.specs.Ranges.{AreWords};

use crate::version::Version;
use crate::words::{last_element, last_given, last_number, next_word, take_number};
use rb_protocol::read_number;
use rb_queue::{Act, Ids};
use std::alloc::{AllocError, Global};

/// The act that the remaining words are.
pub(crate) fn read_act(
    alloc: Global,
    version: Version,
    words: Option<&[u8]>,
) -> Result<Option<Act>, AllocError>
    ensures { IfOk result (ReadsAct version (words_behind words.entry)) }
{
    let Some((keyword, rest)) = next_word(words) else {
        return Ok(None);
    };
    match keyword {
        b"offer" => Ok(offer(version, rest)),
        b"poll" => Ok(poll(rest)),
        b"take" => Ok(take(rest)),
        b"pollfor" => Ok(poll_for(rest)),
        b"peek" => Ok(peek(rest)),
        b"remove" => Ok(remove(rest)),
        b"drain" => drain(alloc, rest),
        b"clear" => Ok(clear(rest)),
        b"size" => Ok(size(rest)),
        _ => Ok(None),
    }
}

// Only the words of an offer differ from version to version.
fn offer(version: Version, rest: Option<&[u8]>) -> Option<Act>
    ensures { ReadsAct version (codes "offer" ∷ words_behind rest.entry) result }
{
    Some(Act::Offer(last_element(version, rest)?))
}

fn poll(rest: Option<&[u8]>) -> Option<Act>
    ensures { ReadsAlike (codes "poll" ∷ words_behind rest.entry) result }
{
    Some(Act::Poll(last_given(rest)?))
}

fn take(rest: Option<&[u8]>) -> Option<Act>
    ensures { ReadsAlike (codes "take" ∷ words_behind rest.entry) result }
{
    Some(Act::Take(last_number(rest)?))
}

fn poll_for(rest: Option<&[u8]>) -> Option<Act>
    ensures { ReadsAlike (codes "pollfor" ∷ words_behind rest.entry) result }
{
    let (start, rest) = take_number(rest)?;
    let (timeout, rest) = take_number(rest)?;
    let got = last_given(rest)?;
    Some(Act::PollFor {
        start,
        timeout,
        got,
    })
}

fn peek(rest: Option<&[u8]>) -> Option<Act>
    ensures { ReadsAlike (codes "peek" ∷ words_behind rest.entry) result }
{
    Some(Act::Peek(last_given(rest)?))
}

fn remove(rest: Option<&[u8]>) -> Option<Act>
    ensures { ReadsAlike (codes "remove" ∷ words_behind rest.entry) result }
{
    let (id, rest) = take_number(rest)?;
    let (word, rest) = next_word(rest)?;
    if rest.is_some() {
        return None;
    }
    if word == b"yes".as_slice() {
        return Some(Act::Remove { id, found: true });
    }
    if word == b"no".as_slice() {
        return Some(Act::Remove { id, found: false });
    }
    None
}

fn clear(rest: Option<&[u8]>) -> Option<Act>
    ensures { ReadsAlike (codes "clear" ∷ words_behind rest.entry) result }
{
    if rest.is_some() {
        return None;
    }
    Some(Act::Clear)
}

fn size(rest: Option<&[u8]>) -> Option<Act>
    ensures { ReadsAlike (codes "size" ∷ words_behind rest.entry) result }
{
    Some(Act::Size(last_number(rest)?))
}

fn drain(alloc: Global, rest: Option<&[u8]>) -> Result<Option<Act>, AllocError>
    ensures { IfOk result (ReadsAlike (codes "drain" ∷ words_behind rest.entry)) }
{
    let Some((max, rest)) = take_number(rest) else {
        return Ok(None);
    };
    let Some(ids) = read_ids(alloc, rest)? else {
        return Ok(None);
    };
    Ok(Some(Act::Drain {
        max,
        ids: Ids::new(ids),
    }))
}

// The ids that the remaining words are.
fn read_ids(alloc: Global, words: Option<&[u8]>) -> Result<Option<Vec<u64>>, AllocError>
    ensures { IfOk result (λ found. MatchOption found
        ((ids : List ℕ) → AreWords ids → words_behind words.entry ≢ map decimal ids)
        (λ ids. (words_behind words.entry ≡ map decimal ids.items) × AreWords ids.items)) }
{
    let mut ids = Vec::new(alloc);
    let mut rest = words;
    while let Some((word, behind)) = next_word(rest) {
        let Some(id) = read_number(word) else {
            return Ok(None);
        };
        ids.push(id)?;
        rest = behind;
    }
    Ok(Some(ids))
}
