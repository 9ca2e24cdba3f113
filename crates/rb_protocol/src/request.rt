ghost use Rattle.std.specs.Prelude.{◌≡◌, ◌↔◌, ℕ, List, Result};
ghost use Rattle.rb_protocol.specs.Form.{form_of, AreRight};
ghost use Rattle.rb_protocol.specs.Reading.{IsReading, IsRequest, request_text};
ghost use Rattle.rb_protocol.specs.Words.{IsAnswer, place_words};
ghost use Rattle.rb_protocol.specs.declared.request.Request.{Request};
ghost use Rattle.rb_protocol.specs.declared.line_fault.LineFault.{LineFault};

use crate::keywords::{NumberKeyword, OfferKeyword, read_alone};
use crate::line_fault::LineFault;
use crate::line_words::{WordPlaces, read_line_words};
use crate::number::read_number;
use rb_delayed::Payload;

/// The greatest length of a request line, in bytes, without its line feed.
pub const MOST_LINE_BYTES: usize = 256;

/// What a line asks for. Moments, delays and timeouts are in nanoseconds.
#[derive(Clone, Copy, Debug, PartialEq, Eq)]
pub enum Request {
    /// Offer an element that expires `delay` from now.
    Offer { delay: u64, payload: Payload },
    /// Offer an element that expires at `expiry`.
    OfferAt { expiry: u64, payload: Payload },
    /// Take the head, if there is one.
    Poll,
    /// Take the head, waiting for one for at most this time.
    PollFor(u64),
    /// Take the head, waiting for one.
    Take,
    /// Show an element of least expiry.
    Peek,
    /// Remove the element of this id from the queue.
    Remove(u64),
    /// Take at most this many expired elements.
    Drain(u64),
    /// Remove all elements from the queue.
    Clear,
    /// Count the elements.
    Size,
    /// The held job of this id is finished.
    Done(u64),
    /// The held job of this id failed.
    Fail(u64),
    /// Move the clock to this moment, unless it is later already.
    At(u64),
    /// End the session.
    Quit,
}

/// Reads a line, which is given without its end.
///
/// Returns the first fault that holds: `Line`, `Syntax`, `Number`, `Payload`. It takes no memory,
/// and does not copy the line.
pub fn read_request(line: &[u8]) -> Result<Request, LineFault>
    ensures { IsReading line.now result }
{
    if line.len() > MOST_LINE_BYTES {
        return Err(LineFault::Line);
    }
    let (keyword, places) = read_line_words(line).ok_or(LineFault::Syntax)?;
    request_of(keyword, places)
}

// The keyword is read before the number, and the number before the payload: that is the order of
// their faults.
fn request_of(keyword: &[u8], places: WordPlaces<'_>) -> Result<Request, LineFault>
    ensures { IsAnswer keyword.now (place_words places.entry) result }
{
    match places {
        WordPlaces::Nothing => read_alone(keyword).ok_or(LineFault::Syntax),
        WordPlaces::One(word) => {
            let keyword = NumberKeyword::read(keyword).ok_or(LineFault::Syntax)?;
            let number = read_number(word).ok_or(LineFault::Number)?;
            Ok(keyword.request(number))
        }
        WordPlaces::Two(word, bytes) => {
            let keyword = OfferKeyword::read(keyword).ok_or(LineFault::Syntax)?;
            let number = read_number(word).ok_or(LineFault::Number)?;
            let payload = Payload::new(bytes).map_err(|_| LineFault::Payload)?;
            Ok(keyword.request(number, payload))
        }
    }
}

/// A line is a request exactly if it is that request's text.
pub fn request_has_text()
    ensures { (line : List ℕ) (request : Request) → IsRequest line request
        ↔ ((line ≡ request_text request) × AreRight (form_of request).arguments) }
{}

/// A line has at most one reading: it is one request, or has one fault.
pub fn one_reading()
    ensures { (line : List ℕ) (one other : Result Request LineFault)
        → IsReading line one → IsReading line other → one ≡ other }
{}
