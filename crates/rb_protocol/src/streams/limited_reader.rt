ghost use Rattle.std.specs.Prelude.{◌≡◌, ◌+◌, ◌<◌, ◌↔◌, IsTrue};
ghost use Rattle.std.specs.Io.{ReadsAtMost};
ghost use Rattle.std.specs.Io.KnownBytes.{ReadConsumes};
ghost use Rattle.rb_protocol.specs.Reads.{IsAfterRead};

use crate::limits::MOST_READS;
use crate::streams::reader_state::ReaderState;
use std::io;
use std::io::{ErrorKind, Read};

/// A reader that can be read at most 10,000,000 times, so that an input without end can't keep a run
/// going. It remembers what its last read came to.
#[derive(Drop)]
pub struct LimitedReader<'a, R: Read> {
    inner: &'a mut R,
    // How many more reads may be made.
    left: u64,
    state: ReaderState,
}

impl<'a, R: Read> LimitedReader<'a, R> {
    ghost use Rattle.rb_protocol.specs.declared.limits.TheConstants.{MOST_READS};

    /// A reader of `inner` that has not been read yet. It takes no memory.
    pub fn new(inner: &'a mut R) -> LimitedReader<'a, R>
        ensures same_reference { result.inner.ghost_name ≡ inner.entry.ghost_name }
        ensures same { result.inner.now ≡ inner.old }
        ensures all_left { result.left ≡ MOST_READS }
        ensures unread { result.state ≡ ReaderState.Open }
    {
        LimitedReader {
            inner,
            left: MOST_READS,
            state: ReaderState::Open,
        }
    }

    /// Whether one more read may be made.
    pub fn may_read(&self) -> bool
        ensures { IsTrue result ↔ (0 < self.now.left) }
    {
        self.left > 0
    }

    /// What its last read came to.
    pub fn state(&self) -> ReaderState
        ensures { result ≡ self.now.state }
    {
        self.state
    }

    /// Reads once from the inner reader, whose errors it returns, and counts the read, even one that
    /// fails. It requires that one more read may be made.
    pub fn read(&mut self, buf: &mut [u8]) -> io::Result<usize>
        requires { 0 < self.old.left }
        ensures bound { ReadsAtMost result buf.new }
        ensures bytes { ReadConsumes (R.remaining self.old.inner.now) (R.remaining self.new.inner.now) result buf.new }
        ensures counted { self.new.left + 1 ≡ self.old.left }
        ensures state { IsAfterRead result self.new.state }
        ensures same_reference { self.new.inner.ghost_name ≡ self.old.inner.ghost_name }
    {
        self.left -= 1;
        let read = self.inner.read(buf);
        self.state = match &read {
            Ok(0) => ReaderState::AtEnd,
            Err(error) if error.kind() != ErrorKind::Interrupted => ReaderState::Failed,
            _ => ReaderState::Open,
        };
        read
    }
}
