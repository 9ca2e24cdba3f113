ghost use Rattle.std.specs.Prelude.{◌≡◌, ◌+◌, ◌<◌, ◌≤◌, [], ◌∷◌, ◌++◌, length, codes};
ghost use Rattle.std.specs.Prelude.{decimal, OnOk, OnErr, IsOk, vec_len, vec_capacity};
ghost use Rattle.rb_protocol.specs.Line.{spaced};
ghost use Rattle.rb_protocol.specs.declared.format.TheConstants.{LINE_FEED};
ghost use Rattle.rb_protocol.specs.ReplyText.{text_of, reply_words, element_words, error_words};

use crate::err_word::ErrWord;
use crate::format::SPACE;
use crate::reply_line::{MOST_DIGITS, ReplyLine};
use rb_delayed::Element;
use std::alloc::AllocError;

/// The length of the longest reply line, in bytes, with its line feed.
pub const MOST_REPLY_BYTES: usize = 117;

/// Free capacity, in bytes, that is enough for any reply line.
pub const REPLY_ROOM: usize = 128;

/// One line of a reply. Moments are in nanoseconds.
#[derive(Clone, Copy, Debug, PartialEq, Eq)]
pub enum LineReply {
    /// An element was offered: its id and its expiry.
    Offered { id: u64, expiry: u64 },
    /// This element was taken.
    Item(Element),
    /// This element has least expiry. It stays in the queue.
    Head(Element),
    /// There is nothing to take or to show.
    Nothing,
    /// Whether the element was in the queue. If so, it was removed.
    Removed(bool),
    /// This many elements were taken; their lines follow.
    Drained(u64),
    /// All elements were removed.
    Cleared,
    /// This many elements are in the queue.
    Size(u64),
    /// The job of this id is finished.
    Done(u64),
    /// The job was offered again: its new id and its expiry.
    Again { id: u64, expiry: u64 },
    /// The job of this id failed at its last attempt, and is not offered again.
    Dead(u64),
    /// The clock is at this moment now.
    Now(u64),
    /// The wait was given up.
    Stopped,
    /// The session ends.
    Bye,
    /// The request was refused.
    Err(ErrWord),
}

impl LineReply {
    /// Writes the reply's line in front of its line feed: at most 117 bytes in all. It takes no memory.
    pub fn write_to(&self, line: &mut ReplyLine)
        requires { line.old ≡ LINE_FEED ∷ [] }
        ensures text { line.new ≡ text_of self.now }
        ensures longest { length line.new ≤ MOST_REPLY_BYTES }
    {
        put_words(line, self);
    }
}

/// Appends the reply's line, with its line feed: at most 117 bytes.
///
/// If the text has `REPLY_ROOM` bytes of free capacity, it takes no memory and succeeds. `Err` means
/// that the text could not grow; the text is then unchanged.
pub fn write_reply(reply: &LineReply, text: &mut Vec<u8>) -> Result<(), AllocError>
    ensures ok { OnOk result (text.new.items ≡ text.old.items ++ text_of reply.now) }
    ensures err { OnErr result (text.new.items ≡ text.old.items) }
    ensures room { vec_len text.old + REPLY_ROOM ≤ vec_capacity text.old → IsOk result }
    ensures capacity { vec_capacity text.old ≤ vec_capacity text.new }
    ensures longest { OnOk result (vec_len text.new ≤ vec_len text.old + MOST_REPLY_BYTES) }
{
    let mut line = ReplyLine::new();
    reply.write_to(&mut line);
    text.extend_from_slice(line.as_bytes())
}

// Writes the words before the line's end.
fn put_words(line: &mut ReplyLine, reply: &LineReply)
    requires { length line.old + MOST_REPLY_BYTES ≤ REPLY_ROOM }
    ensures written { line.new ≡ spaced (reply_words reply.now) ++ line.old }
    ensures len { length line.new < length line.old + MOST_REPLY_BYTES }
{
    match reply {
        LineReply::Offered { id, expiry } => put_numbers(line, b"OFFERED ", *id, *expiry),
        LineReply::Item(element) => put_element(line, b"ITEM ", element),
        LineReply::Head(element) => put_element(line, b"HEAD ", element),
        LineReply::Nothing => line.put(b"NONE"),
        LineReply::Removed(true) => line.put(b"REMOVED yes"),
        LineReply::Removed(false) => line.put(b"REMOVED no"),
        LineReply::Drained(count) => put_number(line, b"DRAINED ", *count),
        LineReply::Cleared => line.put(b"CLEARED"),
        LineReply::Size(count) => put_number(line, b"SIZE ", *count),
        LineReply::Done(id) => put_number(line, b"DONE ", *id),
        LineReply::Again { id, expiry } => put_numbers(line, b"AGAIN ", *id, *expiry),
        LineReply::Dead(id) => put_number(line, b"DEAD ", *id),
        LineReply::Now(moment) => put_number(line, b"NOW ", *moment),
        LineReply::Stopped => line.put(b"STOPPED"),
        LineReply::Bye => line.put(b"BYE"),
        LineReply::Err(word) => line.put(error_text(*word)),
    }
}

// The greatest length of two numbers with a space between them.
const NUMBERS_ROOM: usize = 41;

// The greatest length of an element: two numbers of 20 digits and one of 4, three spaces and a
// payload.
const ELEMENT_ROOM: usize = 111;

// Writes the front, and the element's id, expiry, attempt and payload.
fn put_element(line: &mut ReplyLine, front: &[u8], element: &Element)
    requires { length line.old + length front.now + ELEMENT_ROOM ≤ REPLY_ROOM }
    ensures written { line.new ≡ (front.now ++ spaced (element_words element.now)) ++ line.old }
    ensures len { length line.new ≤ length line.old + length front.now + ELEMENT_ROOM }
{
    line.put(element.payload.as_bytes());
    line.put(&[SPACE]);
    line.put_number(u64::from(element.attempt));
    line.put(&[SPACE]);
    put_numbers(line, front, element.id, element.expiry);
}

// Writes the front and two numbers.
fn put_numbers(line: &mut ReplyLine, front: &[u8], one: u64, other: u64)
    requires { length line.old + length front.now + NUMBERS_ROOM ≤ REPLY_ROOM }
    ensures written { line.new ≡ (front.now ++ spaced (decimal one ∷ decimal other ∷ [])) ++ line.old }
    ensures len { length line.new ≤ length line.old + length front.now + NUMBERS_ROOM }
{
    line.put_number(other);
    line.put(&[SPACE]);
    put_number(line, front, one);
}

// Writes the front and a number.
fn put_number(line: &mut ReplyLine, front: &[u8], number: u64)
    requires { length line.old + length front.now + MOST_DIGITS ≤ REPLY_ROOM }
    ensures written { line.new ≡ (front.now ++ decimal number) ++ line.old }
    ensures len { length line.new ≤ length line.old + length front.now + MOST_DIGITS }
{
    line.put_number(number);
    line.put(front);
}

// The line of an error, without its end.
fn error_text(word: ErrWord) -> &'static [u8]
    ensures text { result.now ≡ spaced (codes "ERR" ∷ error_words word) }
    ensures short { length result.now ≤ 14 }
{
    match word {
        ErrWord::Syntax => b"ERR 1 syntax",
        ErrWord::Number => b"ERR 2 number",
        ErrWord::Range => b"ERR 3 range",
        ErrWord::Payload => b"ERR 4 payload",
        ErrWord::NotHeld => b"ERR 5 not-held",
        ErrWord::Full => b"ERR 6 full",
        ErrWord::Memory => b"ERR 7 memory",
        ErrWord::Line => b"ERR 8 line",
        ErrWord::Held => b"ERR 9 held",
    }
}
