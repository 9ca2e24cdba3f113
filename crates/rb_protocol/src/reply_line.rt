ghost use Rattle.std.specs.Prelude.{◌≡◌, ◌+◌, ◌≤◌, [], ◌∷◌, ◌++◌, length, decimal};
ghost use Rattle.rb_protocol.specs.declared.format.TheConstants.{LINE_FEED};
ghost use Rattle.rb_protocol.specs.declared.line_reply.TheConstants.{REPLY_ROOM};

use crate::format::LINE_FEED;
use crate::line_reply::REPLY_ROOM;
use itoa::write_digits;
use std::marker::Model;

/// The greatest number of digits of a number.
pub(crate) const MOST_DIGITS: usize = 20;

/// A line of a reply, with its line feed. Contracts see the bytes written so far, the line's last ones.
///
/// It is written from its end to its front, since the digits of a number are found in that order.
#[derive(Drop)]
pub struct ReplyLine {
    bytes: [u8; REPLY_ROOM],
    start: usize,
}

impl Model for ReplyLine {
    ghost use Rattle.std.specs.Prelude.{ℕ, ◌≤◌, List, drop};
    ghost use Rattle.rb_protocol.specs.declared.line_reply.TheConstants.{REPLY_ROOM};

    ghost Value = { List ℕ };

    ghost view = { λ line. drop line.start line.bytes };

    ghost invariant = { λ line. line.start ≤ REPLY_ROOM };
}

impl ReplyLine {
    /// A line with only its line feed written.
    pub fn new() -> ReplyLine
        ensures { result ≡ LINE_FEED ∷ [] }
    {
        ReplyLine {
            bytes: [LINE_FEED; REPLY_ROOM],
            start: REPLY_ROOM - 1,
        }
    }

    /// The line's bytes.
    pub fn as_bytes(&self) -> &[u8]
        ensures { result.now ≡ self.now }
    {
        &self.bytes[self.start..]
    }

    /// Writes these bytes before those written so far.
    pub(crate) fn put(&mut self, bytes: &[u8])
        requires { length self.old + length bytes.now ≤ REPLY_ROOM }
        ensures written { self.new ≡ bytes.now ++ self.old }
        ensures len { length self.new ≡ length self.old + length bytes.now }
    {
        let end = self.start;
        self.start = end - bytes.len();
        self.bytes[self.start..end].copy_from_slice(bytes);
    }

    /// Writes the number's digits before what is written so far.
    pub(crate) fn put_number(&mut self, number: u64)
        requires { length self.old + MOST_DIGITS ≤ REPLY_ROOM }
        ensures written { self.new ≡ decimal number ++ self.old }
        ensures len { length self.new ≡ length self.old + length (decimal number) }
        ensures most { length self.new ≤ length self.old + MOST_DIGITS }
    {
        self.start = write_digits(number, &mut self.bytes, self.start);
    }
}
