ghost use Rattle.std.specs.Prelude.{◌≡◌, ◌+◌, ◌<◌, ◌↔◌, length, IsTrue};
ghost use Rattle.std.specs.Io.{WritesAtMost};
ghost use Rattle.std.specs.Io.KnownBytes.{WriteAppends, Keeps};
ghost use Rattle.rb_protocol.specs.Writes.{IsAfterWrite, IsAfterFlush, TellsOf, WritesOn};

use crate::streams::recipient::Recipient;
use crate::streams::writer_state::WriterState;
use crate::streams::writer_status::WriterStatus;
use crate::streams::writing::WriteFault;
use std::io;
use std::io::ErrorKind;
use std::snapshot::Snapshot;

/// A writer that notes in a status whether it has failed. Nothing says that interruptions end, so it can be written at
/// most 2^64 - 1 times.
#[derive(Drop)]
pub struct LimitedWriter<'a, W> {
    inner: &'a mut W,
    status: &'a mut WriterStatus<W>,
}

impl<'a, W> LimitedWriter<'a, W> {
    /// A writer to `inner`, which notes what this comes to in `status`. It takes no memory.
    pub fn new(inner: &'a mut W, status: &'a mut WriterStatus<W>) -> LimitedWriter<'a, W>
        ensures same_reference { result.inner.ghost_name ≡ inner.entry.ghost_name }
        ensures same { result.inner.now ≡ inner.old }
        ensures same_status { result.status.ghost_name ≡ status.entry.ghost_name }
        ensures status { result.status.now ≡ status.old }
    {
        LimitedWriter { inner, status }
    }

    // Whether one more write may be made.
    pub(crate) fn may_write(&self) -> bool
        ensures { IsTrue result ↔ (0 < self.now.status.now.left) }
    {
        self.status.left > 0
    }

    // Writes some bytes once to the inner writer, whose errors it returns, and counts the write. The writer is shown
    // `shown` with them.
    pub(crate) fn write<V>(&mut self, shown: &V, buf: &[u8]) -> io::Result<usize>
    where
        W: Recipient<V>,
        requires left { 0 < self.old.status.now.left }
        requires some { 0 < length buf.now }
        requires demanded { W.demands self.old.inner.now shown.now buf.now }
        ensures bound { WritesAtMost result buf.now }
        ensures bytes { WriteAppends (W.contents self.old.inner.now) (W.contents self.new.inner.now) result buf.now }
        ensures counted { self.new.status.now.left + 1 ≡ self.old.status.now.left }
        ensures state { IsAfterWrite self.old.status.now.state result self.new.status.now.state }
        ensures on { WritesOn self.old self.new }
    {
        self.status.left -= 1;
        let written = self.inner.take(shown, buf);
        self.status.last = Snapshot::of(&*self.inner);
        match &written {
            Ok(0) => self.status.state = WriterState::Failed,
            Err(fault) if fault.kind() != ErrorKind::Interrupted => {
                self.status.state = WriterState::Failed;
            }
            _ => {}
        }
        written
    }

    /// Flushes the inner writer, which hands on what it has got, and is shown `shown`. `Err` means that it could not.
    pub fn flush<V>(&mut self, shown: &V) -> Result<(), WriteFault>
    where
        W: Recipient<V>,
        ensures kept { Keeps (W.contents self.old.inner.now) (W.contents self.new.inner.now) }
        ensures state { IsAfterFlush self.old.status.now.state result self.new.status.now.state }
        ensures told { TellsOf result self.old.status.now.state self.new.status.now }
        ensures on { WritesOn self.old self.new }
    {
        let flushed = self.inner.hand_on(shown);
        self.status.last = Snapshot::of(&*self.inner);
        match flushed {
            Ok(()) => Ok(()),
            Err(_) => {
                self.status.state = WriterState::Failed;
                Err(WriteFault)
            }
        }
    }
}
