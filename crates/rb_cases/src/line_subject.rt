//! The lines of the protocol, and a text to which replies are appended.
//!
//! | Command | Answer |
//! |---|---|
//! | `request LINE` | the request in small letters, or the first fault: `line`, `syntax`, `number` or `payload` |
//! | `reply REPLY` | the line that is appended to the text |
//! | `behind REPLY` | the line that is appended to each of several texts, some of which have to grow |
//! | `length` | how many bytes the text has |
//! | `part FROM LENGTH` | LENGTH bytes of the text, from the byte FROM on |
//! | `constant NAME` | the value of the constant of this name |
//!
//! A REPLY is one of these, where an ELEMENT is `ID EXPIRY ORIGIN FIRST ATTEMPT PAYLOAD`:
//!
//! | REPLY |
//! |---|
//! | `offered ID EXPIRY`, `again ID EXPIRY` |
//! | `item ELEMENT`, `head ELEMENT` |
//! | `removed yes`, `removed no` |
//! | `drained N`, `size N`, `done ID`, `dead ID`, `now MOMENT` |
//! | `nothing`, `cleared`, `stopped`, `bye` |
//! | `error WORD`, with the word of the error's line |
//!
//! There is no set-up.

use crate::elements::element_of;
use crate::finding::Finding;
use crate::flaw::Flaw;
use crate::numbers::number;
use crate::subject::{Command, FromSetUp, Subject};
use crate::table::Table;
use crate::told::{Told, payload_text};
use rb_delayed::Payload;
use rb_protocol::{
    ErrWord, LINE_FEED, LineFault, LineReply, MOST_LINE_BYTES, MOST_REPLY_BYTES, REPLY_ROOM,
    Request, SPACE, cut_word, read_request, write_reply,
};
use std::alloc::{AllocError, Global};

// The lengths of the texts to which a reply is appended. There are two texts of each length: one
// without room for more, and one with room for a reply.
const LENGTHS: [usize; 4] = [0, 10, 1_000, 100_000];

#[derive(Drop)]
pub struct LineSubject {
    // All replies so far.
    text: Vec<u8>,
}

impl FromSetUp for LineSubject {
    fn begin(alloc: Global, _: &Table<'_>, _: &mut Finding) -> Result<Self, Flaw> {
        Ok(LineSubject {
            text: Vec::new(alloc),
        })
    }
}

impl Subject for LineSubject {
    fn answer(&mut self, alloc: Global, command: Command<'_>, came: &mut Told) -> Result<(), Flaw> {
        if let (b"request", line) = cut_word(command.bytes) {
            return tell_reading(came, line.unwrap_or(&[]));
        }
        match *command.words {
            ["length"] => came.number(self.text.len() as u64),
            [word, ..] => {
                let rest = command.words.get(1..).unwrap_or(&[]);
                self.answer_words(alloc, word, rest, came)
            }
            [] => Err(Flaw::Command),
        }
    }
}

impl LineSubject {
    fn answer_words(
        &mut self,
        alloc: Global,
        word: &str,
        rest: &[&str],
        came: &mut Told,
    ) -> Result<(), Flaw> {
        match word {
            "reply" => self.reply(alloc, rest, came),
            "behind" => behind(alloc, rest, came),
            "part" => self.tell_part(alloc, rest, came),
            "constant" => tell_constant(rest, came),
            _ => Err(Flaw::Command),
        }
    }

    fn reply(&mut self, alloc: Global, words: &[&str], came: &mut Told) -> Result<(), Flaw> {
        let reply = reply_of(words)?;
        let before = self.text.len();
        write_reply(&reply, &mut self.text)?;
        tell_bytes(alloc, self.text.get(before..), came)
    }

    fn tell_part(&self, alloc: Global, words: &[&str], came: &mut Told) -> Result<(), Flaw> {
        let [from, length] = *words else {
            return Err(Flaw::Command);
        };
        let from = number(from)?;
        let end = from.saturating_add(number(length)?);
        tell_bytes(alloc, self.text.get(from..end), came)
    }
}

fn tell_bytes(alloc: Global, bytes: Option<&[u8]>, came: &mut Told) -> Result<(), Flaw> {
    let text = String::from_utf8_lossy(alloc, bytes.unwrap_or(&[]))?;
    came.word(&text)
}

fn behind(alloc: Global, words: &[&str], came: &mut Told) -> Result<(), Flaw> {
    let reply = reply_of(words)?;
    let mut line = Vec::new(alloc);
    write_reply(&reply, &mut line)?;
    for room in [0, REPLY_ROOM] {
        if let Some(length) = length_not_so(alloc, &reply, &line, room)? {
            came.named("not so behind", length as u64)?;
            return came.named("bytes, with room for", room as u64);
        }
    }
    tell_bytes(alloc, Some(&line), came)
}

// Returns the length of the first text to which the reply is not appended as `line`, if there is
// one.
fn length_not_so(
    alloc: Global,
    reply: &LineReply,
    line: &[u8],
    room: usize,
) -> Result<Option<usize>, AllocError> {
    for length in LENGTHS {
        if !stands_behind(alloc, reply, line, length, room)? {
            return Ok(Some(length));
        }
    }
    Ok(None)
}

// Returns whether the reply is appended as `line` to a text of `length` bytes, and the text does
// not grow if it has room.
fn stands_behind(
    alloc: Global,
    reply: &LineReply,
    line: &[u8],
    length: usize,
    room: usize,
) -> Result<bool, AllocError> {
    let mut text = Vec::with_capacity(alloc, length.saturating_add(room))?;
    text.resize(length, b'x')?;
    let before = text.capacity();
    write_reply(reply, &mut text)?;
    let is_kept = room == 0 || text.capacity() == before;
    let is_exact = before == length.saturating_add(room);
    Ok(is_exact && is_kept && text.get(length..) == Some(line))
}

fn tell_constant(words: &[&str], came: &mut Told) -> Result<(), Flaw> {
    match *words {
        [name] => came.number(constant(name)? as u64),
        _ => Err(Flaw::Command),
    }
}

fn constant(name: &str) -> Result<usize, Flaw> {
    match name {
        "MOST_LINE_BYTES" => Ok(MOST_LINE_BYTES),
        "SPACE" => Ok(usize::from(SPACE)),
        "LINE_FEED" => Ok(usize::from(LINE_FEED)),
        "MOST_REPLY_BYTES" => Ok(MOST_REPLY_BYTES),
        "REPLY_ROOM" => Ok(REPLY_ROOM),
        _ => Err(Flaw::Command),
    }
}

fn tell_reading(came: &mut Told, line: &[u8]) -> Result<(), Flaw> {
    match read_request(line) {
        Ok(request) => tell_request(came, &request),
        Err(LineFault::Line) => came.word("line"),
        Err(LineFault::Syntax) => came.word("syntax"),
        Err(LineFault::Number) => came.word("number"),
        Err(LineFault::Payload) => came.word("payload"),
    }
}

fn tell_request(came: &mut Told, request: &Request) -> Result<(), Flaw> {
    match request {
        Request::Offer { delay, payload } => tell_offer(came, "offer", *delay, payload),
        Request::OfferAt { expiry, payload } => tell_offer(came, "offerat", *expiry, payload),
        Request::Poll => came.word("poll"),
        Request::PollFor(timeout) => came.named("pollfor", *timeout),
        Request::Take => came.word("take"),
        Request::Peek => came.word("peek"),
        Request::Remove(id) => came.named("remove", *id),
        Request::Drain(most) => came.named("drain", *most),
        Request::Clear => came.word("clear"),
        Request::Size => came.word("size"),
        Request::Done(id) => came.named("done", *id),
        Request::Fail(id) => came.named("fail", *id),
        Request::At(moment) => came.named("at", *moment),
        Request::Quit => came.word("quit"),
    }
}

fn tell_offer(came: &mut Told, word: &str, number: u64, payload: &Payload) -> Result<(), Flaw> {
    came.named(word, number)?;
    came.word(payload_text(payload))
}

fn reply_of(words: &[&str]) -> Result<LineReply, Flaw> {
    match *words {
        [word] => bare(word),
        [word, value] => reply_of_one(word, value),
        [word, id, expiry] => reply_of_two(word, number(id)? as u64, number(expiry)? as u64),
        [word, ..] => reply_of_element(word, words.get(1..).unwrap_or(&[])),
        [] => Err(Flaw::Command),
    }
}

fn bare(word: &str) -> Result<LineReply, Flaw> {
    match word {
        "nothing" => Ok(LineReply::Nothing),
        "cleared" => Ok(LineReply::Cleared),
        "stopped" => Ok(LineReply::Stopped),
        "bye" => Ok(LineReply::Bye),
        _ => Err(Flaw::Command),
    }
}

fn reply_of_one(word: &str, value: &str) -> Result<LineReply, Flaw> {
    match (word, value) {
        ("error", word) => Ok(LineReply::Err(error_of(word)?)),
        ("removed", "yes") => Ok(LineReply::Removed(true)),
        ("removed", "no") => Ok(LineReply::Removed(false)),
        _ => numbered(word, number(value)? as u64),
    }
}

fn reply_of_element(word: &str, element: &[&str]) -> Result<LineReply, Flaw> {
    match word {
        "item" => Ok(LineReply::Item(element_of(element)?)),
        "head" => Ok(LineReply::Head(element_of(element)?)),
        _ => Err(Flaw::Command),
    }
}

fn numbered(word: &str, number: u64) -> Result<LineReply, Flaw> {
    match word {
        "drained" => Ok(LineReply::Drained(number)),
        "size" => Ok(LineReply::Size(number)),
        "done" => Ok(LineReply::Done(number)),
        "dead" => Ok(LineReply::Dead(number)),
        "now" => Ok(LineReply::Now(number)),
        _ => Err(Flaw::Command),
    }
}

fn reply_of_two(word: &str, id: u64, expiry: u64) -> Result<LineReply, Flaw> {
    match word {
        "offered" => Ok(LineReply::Offered { id, expiry }),
        "again" => Ok(LineReply::Again { id, expiry }),
        _ => Err(Flaw::Command),
    }
}

fn error_of(word: &str) -> Result<ErrWord, Flaw> {
    match word {
        "syntax" => Ok(ErrWord::Syntax),
        "number" => Ok(ErrWord::Number),
        "range" => Ok(ErrWord::Range),
        "payload" => Ok(ErrWord::Payload),
        "not-held" => Ok(ErrWord::NotHeld),
        "full" => Ok(ErrWord::Full),
        "memory" => Ok(ErrWord::Memory),
        "line" => Ok(ErrWord::Line),
        "held" => Ok(ErrWord::Held),
        _ => Err(Flaw::Command),
    }
}
