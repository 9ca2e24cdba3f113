//! Elements in the form of the lines of a history: `ID EXPIRY ORIGIN FIRST ATTEMPT PAYLOAD`.

use crate::flaw::Flaw;
use crate::numbers::number;
use rb_delayed::{Element, GREATEST_ATTEMPT, Payload};
use rb_queue::Draft;

/// Returns the element that `words` spell.
pub fn element_of(words: &[&str]) -> Result<Element, Flaw> {
    let [id, expiry, origin, first, attempt, payload] = *words else {
        return Err(Flaw::Command);
    };
    let Ok(attempt) = u32::try_from(number(attempt)?) else {
        return Err(Flaw::Number);
    };
    if !(1..=GREATEST_ATTEMPT).contains(&attempt) {
        return Err(Flaw::Number);
    }
    Ok(Element {
        id: number(id)? as u64,
        expiry: number(expiry)? as u64,
        origin: number(origin)? as u64,
        first: number(first)? as u64,
        attempt,
        payload: payload_of(payload)?,
    })
}

/// Returns the draft that `words` spell: of a job's first element, `EXPIRY PAYLOAD`, or of a later one, whose words
/// are those of an element without the id.
pub fn draft_of(words: &[&str]) -> Result<Draft, Flaw> {
    match *words {
        [expiry, payload] => Ok(Draft::first(number(expiry)? as u64, payload_of(payload)?)),
        [expiry, origin, first, attempt, payload] => {
            let element = element_of(&["0", expiry, origin, first, attempt, payload])?;
            Ok(Draft {
                expiry: element.expiry,
                origin: Some(element.origin),
                first: Some(element.first),
                attempt: element.attempt,
                payload: element.payload,
            })
        }
        _ => Err(Flaw::Command),
    }
}

fn payload_of(word: &str) -> Result<Payload, Flaw> {
    match Payload::new(word.as_bytes()) {
        Ok(payload) => Ok(payload),
        Err(_) => Err(Flaw::Payload),
    }
}
