ghost use Rattle.std.specs.Prelude.{◌≡◌, ◌≤◌, ◌+◌, ℕ, List, Option, [], length, IsErr, OnErr, vec_len, vec_capacity};
ghost use Rattle.rb_history.specs.declared.history_room.TheConstants.{PIECE_BYTES};
ghost use Rattle.rb_protocol.specs.Sending.{Sends};
ghost use Rattle.rb_protocol.specs.Writes.{CannotWrite, WritesOn};

use crate::history_room::{HistoryRoom, PIECE_BYTES};
use rb_protocol::{LimitedWriter, WriteFault, send_line};
use std::io::Write;

/// Where the text of a history goes: to a writer, in pieces of at most 64 KiB.
///
/// What was pushed is what the writer has got, followed by what is gathered. Once a write has failed,
/// nothing more is written and what is pushed is lost, so the writer has a first part of it.
#[derive(Drop)]
pub(crate) struct Outlet<'a, W: Write> {
    writer: LimitedWriter<'a, W>,
    gathered: Vec<u8>,
    // What became of the writes so far.
    sent: Result<(), WriteFault>,
    ghost few: { vec_len gathered ≤ PIECE_BYTES },
    ghost room: { PIECE_BYTES ≤ vec_capacity gathered },
    ghost told: { IsErr sent → CannotWrite writer.status.now },
}

impl<'a, W: Write> Outlet<'a, W> {
    ghost use Rattle.rb_history.specs.Outlet.{Holds, Grows};

    /// An outlet to this writer, to which nothing was pushed. It takes no more memory than the room.
    pub(crate) fn new(writer: LimitedWriter<'a, W>, room: HistoryRoom) -> Outlet<'a, W>
        ensures same { result.writer ≡ writer.entry }
        ensures holds { Holds W.Write (W.contents writer.entry.inner.now) [] result }
    {
        Outlet {
            writer,
            gathered: room.bytes,
            sent: Ok(()),
        }
    }

    /// Gathers bytes, behind those that are handed on first if there is no room for both.
    pub(crate) fn push(&mut self, bytes: &[u8])
        requires { length bytes.now ≤ PIECE_BYTES }
        ensures { Grows W.Write self.old bytes.now self.new }
    {
        self.make_room(bytes.len());
        self.gathered.extend_from_slice(bytes).unwrap();
    }

    /// Writes what is gathered, and flushes. `Err` means that this or an earlier write failed.
    pub(crate) fn finish(&mut self) -> Result<(), WriteFault>
        ensures on { WritesOn self.old.writer self.new.writer }
        ensures told { OnErr result (CannotWrite self.new.writer.status.now) }
        ensures sent { (got : Option (List ℕ)) (text : List ℕ) → Holds W.Write got text self.old
            → Sends result got text (W.contents self.new.writer.inner.now) }
    {
        self.hand_on();
        self.sent?;
        self.writer.flush(&())
    }

    /// The writer. What is still gathered is dropped.
    pub(crate) fn into_writer(self) -> LimitedWriter<'a, W>
        ensures { result ≡ self.entry.writer }
    {
        let Outlet { writer, .. } = self;
        writer
    }

    // Hands on what is gathered if there is no room for this many bytes behind it.
    fn make_room(&mut self, count: usize)
        requires { count ≤ PIECE_BYTES }
        ensures grows { Grows W.Write self.old [] self.new }
        ensures room { vec_len self.new.gathered + count ≤ PIECE_BYTES }
    {
        if count > PIECE_BYTES - self.gathered.len() {
            self.hand_on();
        }
    }

    // Writes what is gathered, unless a write has failed.
    fn hand_on(&mut self)
        ensures grows { Grows W.Write self.old [] self.new }
        ensures clear { self.new.gathered.items ≡ [] }
    {
        if self.sent.is_ok() {
            self.sent = send_line(&mut self.writer, &(), &self.gathered);
        }
        self.gathered.clear();
    }
}
