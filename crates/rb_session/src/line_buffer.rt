ghost use Rattle.std.specs.Prelude.{◌≡◌, ℕ, ◌+◌, ◌-◌, ◌<◌, ◌≤◌, ◌↔◌, List, [], length, vec_len, false, IfOk, IfSome, IsTrue};
ghost use Rattle.rb_protocol.specs.Line.{HasNoLineFeed};
ghost use Rattle.rb_protocol.specs.Reads.{IsAfterRead};
ghost use Rattle.rb_session.specs.Lines.{line_of};
ghost use Rattle.rb_protocol.specs.declared.limits.TheConstants.{BUFFER_BYTES};
ghost use Rattle.rb_session.specs.declared.line_buffer.TheConstants.{MOST_RAW_BYTES};

use crate::outlet::Outlet;
use memchr::memchr;
use rb_protocol::{
    BUFFER_BYTES, CARRIAGE_RETURN, LINE_FEED, LimitedReader, LineFault, MOST_LINE_BYTES, Request,
    read_request,
};
use std::alloc::{AllocError, Global};
use std::io;
use std::io::Read;

/// The greatest number of bytes before a line feed that may still be a request: the longest line,
/// and a carriage return.
const MOST_RAW_BYTES: usize = MOST_LINE_BYTES + 1;

/// Bytes that were read and are not served yet.
///
/// The beginning of a line is kept until its line feed comes. If it is too long to be a request, it
/// is dropped, and only the fact is remembered, so no line needs more room than the buffer.
#[derive(Drop)]
pub(crate) struct LineBuffer {
    bytes: Vec<u8>,
    start: usize,
    end: usize,
    // Bytes of the first line were dropped.
    is_long: bool,
    ghost ordered: { start ≤ end },
    ghost within: { end ≤ vec_len bytes },
    ghost roomy: { MOST_RAW_BYTES < vec_len bytes },
    ghost small: { vec_len bytes ≤ BUFFER_BYTES },
}

impl LineBuffer {
    ghost use Rattle.rb_session.specs.Buffer.{IsUnserved, TakesLine, TakesMore};

    /// An empty buffer, whose memory is taken at once.
    pub(crate) fn new(alloc: Global) -> Result<Self, AllocError>
        ensures short { IfOk result (λ buffer. buffer.is_long ≡ false) }
        ensures unread { IfOk result (λ buffer. buffer.start ≡ buffer.end) }
    {
        Ok(LineBuffer {
            bytes: vec![in alloc; 0; BUFFER_BYTES]?,
            start: 0,
            end: 0,
            is_long: false,
        })
    }

    /// Drops what is not served.
    pub(crate) fn clear(&mut self)
        ensures short { self.new.is_long ≡ false }
        ensures unread { self.new.start ≡ self.new.end }
    {
        self.start = 0;
        self.end = 0;
        self.is_long = false;
    }

    /// Takes out the first whole line and reads it. `None` exactly if there is no line feed.
    pub(crate) fn next_request(&mut self) -> Option<Result<Request, LineFault>>
        ensures line { (bytes : List ℕ) → IsUnserved self.old bytes → TakesLine bytes result self.new }
        ensures shorter { IfSome result (λ _. self.new.end - self.new.start < self.old.end - self.old.start) }
    {
        let held = &self.bytes[self.start..self.end];
        let len = memchr(LINE_FEED, held)?;
        let reading = if self.is_long {
            Err(LineFault::Line)
        } else {
            read_request(without_return(&held[..len]))
        };
        self.start += len + 1;
        self.is_long = false;
        Some(reading)
    }

    /// Reads once, and appends what comes to the bytes that are held. Returns how many bytes came:
    /// 0 at the end of the input.
    ///
    /// Nothing may be held back then, so that no client waits for a reply that it has not got.
    pub(crate) fn read_from<R: Read, W>(
        &mut self,
        reader: &mut LimitedReader<'_, R>,
        _outlet: &Outlet<'_, W>,
    ) -> io::Result<usize>
        requires clear { _outlet.now.gathered.items ≡ [] }
        requires some_left { 0 < reader.old.left }
        ensures taken { (bytes : List ℕ) → IsUnserved self.old bytes → HasNoLineFeed bytes
            → TakesMore bytes (R.remaining reader.old.inner.now) result self.new (R.remaining reader.new.inner.now) }
        ensures counted { reader.new.left + 1 ≡ reader.old.left }
        ensures state { IsAfterRead result reader.new.state }
        ensures same_reference { reader.new.inner.ghost_name ≡ reader.old.inner.ghost_name }
    {
        self.make_room();
        let end = self.end;
        let count = reader.read(&mut self.bytes[end..])?;
        self.end += count;
        Ok(count)
    }

    /// Whether there are bytes after the last line feed.
    pub(crate) fn has_rest(&self) -> bool
        ensures { (bytes : List ℕ) → IsUnserved self.now bytes → IsTrue result ↔ (0 < length bytes) }
    {
        self.is_long || self.start < self.end
    }

    // Puts the bytes that are held to the front, or drops them where they are too long already.
    fn make_room(&mut self)
        ensures kept { (bytes : List ℕ) → IsUnserved self.old bytes → HasNoLineFeed bytes → IsUnserved self.new bytes }
        ensures room { self.new.end < vec_len self.new.bytes }
    {
        let held = self.end - self.start;
        if self.is_long || held > MOST_RAW_BYTES {
            self.is_long = true;
            self.start = 0;
            self.end = 0;
        } else {
            self.bytes.copy_within(self.start..self.end, 0);
            self.start = 0;
            self.end = held;
        }
    }
}

// The line, without a carriage return that belongs to its end.
fn without_return(raw: &[u8]) -> &[u8]
    ensures { result.now ≡ line_of raw.now }
{
    let len = raw.len();
    if len > 0 && raw[len - 1] == CARRIAGE_RETURN {
        &raw[..len - 1]
    } else {
        raw
    }
}
