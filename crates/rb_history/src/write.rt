ghost use Rattle.std.specs.Prelude.{◌≤◌, length, OnOk, OnErr};
ghost use Rattle.rb_history.specs.HistoryText.{history_text};
ghost use Rattle.rb_history.specs.Ranges.{IsRightOpening, AreRightEvents};
ghost use Rattle.rb_history.specs.Written.{Writes};
ghost use Rattle.rb_protocol.specs.Sending.{Sends};
ghost use Rattle.rb_protocol.specs.Writes.{CannotWrite, WritesOn};

use crate::history_fault::HistoryFault;
use crate::history_room::HistoryRoom;
use crate::history_text::push_history;
use crate::outlet::Outlet;
use rb_protocol::{LimitedWriter, WriteFault, WriterStatus};
use rb_queue::{Event, Opening};
use std::alloc::Global;
use std::io::Write;

/// The greatest number of events in a text.
pub const MOST_EVENTS: usize = 1_000_000;

/// Writes a run's opening and its events, at most 1,000,000, in the third version, and flushes.
///
/// It takes 64 KiB of memory before it writes the first byte. After `Memory` the writer is unchanged. After
/// `Write` it has got a first part of the text, perhaps nothing or all of it.
///
/// A text that was written whole can be read again: all values are in the ranges that the laws of texts
/// ask for.
pub fn write_history<W: Write>(
    alloc: Global,
    opening: &Opening,
    events: &[Event],
    writer: &mut W,
) -> Result<(), HistoryFault>
    requires { length events.now ≤ MOST_EVENTS }
    ensures writes { Writes result (W.contents writer.old) (history_text opening.now events.now)
        (W.contents writer.new) }
    ensures opening { OnOk result (IsRightOpening opening.now) }
    ensures events { OnOk result (AreRightEvents events.now) }
{
    let Ok(room) = HistoryRoom::new(alloc) else {
        return Err(HistoryFault::Memory);
    };
    let written = {
        let mut status = WriterStatus::of(&*writer);
        let writer = LimitedWriter::new(writer, &mut status);
        let (_, written) = write_history_in(room, opening, events, writer);
        written
    };
    match written {
        Ok(()) => Ok(()),
        Err(WriteFault) => Err(HistoryFault::Write),
    }
}

/// Writes like `write_history`, in pieces of at most 64 KiB, which it gathers in the room. It takes no
/// memory.
///
/// `Err` means that a write or the flush failed, or that a write took no byte. Nothing is written after
/// that, so the writer has got a first part of the text, perhaps nothing or all of it.
pub fn write_history_in<'a, W: Write>(
    room: HistoryRoom,
    opening: &Opening,
    events: &[Event],
    writer: LimitedWriter<'a, W>,
) -> (LimitedWriter<'a, W>, Result<(), WriteFault>)
    requires { length events.now ≤ MOST_EVENTS }
    ensures writes { Sends result.1 (W.contents writer.entry.inner.now) (history_text opening.now events.now)
        (W.contents result.0.inner.now) }
    ensures reason { OnErr result.1 (CannotWrite result.0.status.now) }
    ensures on { WritesOn writer.entry result.0 }
    ensures opening { IsRightOpening opening.now }
    ensures events { AreRightEvents events.now }
{
    let mut outlet = Outlet::new(writer, room);
    push_history(&mut outlet, opening, events);
    let ended = outlet.finish();
    (outlet.into_writer(), ended)
}
