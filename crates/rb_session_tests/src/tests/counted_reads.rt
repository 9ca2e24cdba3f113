use crate::tests::devices::{
    NEVER, Sheet, expect, expect_bytes, expect_count, expect_end, run_by, with_kept,
};
use rb_binary::BinaryTimer;
use rb_kept::Kept;
use rb_ledger::Tally;
use rb_protocol::{LimitedReader, LimitedWriter, ReaderState, WriterState, WriterStatus};
use rb_retry::{KeptDesk, Policy};
use rb_session::{Delivery, Ended, SessionFault, run_limited};
use std::alloc::Global;
use std::io::{self, Read};
use std::process::Abort;

// A session ends with its input, long before it has made all the reads that its reader allows.
#[test]
fn a_session_over_a_reader_that_counts_leaves_reads(rt: HostRuntime) {
    let alloc = rt.alloc();
    with_kept(&rt, alloc, 1, |kept, tally| {
        expect_reads(&rt, alloc, &mut KeptDesk::new(kept, tally))
    })
}

fn expect_reads(rt: &impl Abort, alloc: Global, desk: &mut KeptDesk<'_, BinaryTimer>) {
    let policy = Policy::fixed(1_000, 3).expect(rt, "a policy");
    let (mut script, mut writer) = (b"AT 7\n".as_slice(), Vec::new(alloc));
    let mut reader = LimitedReader::new(&mut script);
    let delivery = Delivery::AtOnce;
    let mut status = WriterStatus::of(&writer);
    let outlet = LimitedWriter::new(&mut writer, &mut status);
    let (_, ended) = run_limited(alloc, &mut reader, outlet, desk, &policy, delivery);
    let (leaves_some, state, written) = (reader.may_read(), reader.state(), status.state());
    expect_end(rt, ended, Ok(Ended::EndOfInput { lost: 0 }), 0);
    expect_bytes(rt, &writer, b"NOW 7\n", 0);
    expect(rt, leaves_some);
    expect(rt, state == ReaderState::AtEnd);
    expect(rt, written == WriterState::Open);
}

// A session that could not write leaves a writer that tells so.
#[test]
fn a_session_that_could_not_write_leaves_a_failed_writer(rt: HostRuntime) {
    let alloc = rt.alloc();
    with_kept(&rt, alloc, 1, |kept, tally| {
        expect_failed(&rt, alloc, &mut KeptDesk::new(kept, tally))
    })
}

fn expect_failed(rt: &impl Abort, alloc: Global, desk: &mut KeptDesk<'_, BinaryTimer>) {
    let policy = Policy::fixed(1_000, 3).expect(rt, "a policy");
    let (mut script, mut writer) = (b"AT 7\n".as_slice(), Sheet::new(alloc, 0));
    let mut reader = LimitedReader::new(&mut script);
    let mut status = WriterStatus::of(&writer);
    let outlet = LimitedWriter::new(&mut writer, &mut status);
    let delivery = Delivery::AtOnce;
    let (_, ended) = run_limited(alloc, &mut reader, outlet, desk, &policy, delivery);
    let written = status.state();
    expect_end(rt, ended, Err(SessionFault::Write { lost: 0 }), 0);
    expect(rt, written == WriterState::Failed);
}

// A reader that gives a byte at each read, never a line feed, and has no end.
#[derive(Drop)]
struct Endless {
    reads: usize,
}

impl Read for Endless {
    fn read(&mut self, buf: &mut [u8]) -> io::Result<usize> {
        self.reads = self.reads.saturating_add(1);
        match buf.first_mut() {
            Some(byte) => {
                *byte = b'x';
                Ok(1)
            }
            None => Ok(0),
        }
    }
}

fn expect_given_up(
    rt: &impl Abort,
    alloc: Global,
    kept: &mut Kept<BinaryTimer>,
    tally: &mut Tally,
) {
    let policy = Policy::fixed(1_000, 3).expect(rt, "a policy");
    let (mut reader, mut writer) = (Endless { reads: 0 }, Sheet::new(alloc, NEVER));
    let ended = run_by(alloc, kept, tally, &mut reader, &mut writer, &policy);
    expect_end(rt, ended, Err(SessionFault::ReadTurns { lost: 0 }), 0);
    expect_count(rt, reader.reads, 10_000_000, 0);
    expect_count(rt, writer.calls, 0, 0);
    expect_count(rt, kept.history().len(), 0, 0);
}

// A line without an end, of which each read gives one byte, is given up, and gets no reply.
#[test]
fn a_line_without_an_end_is_given_up(rt: HostRuntime) {
    let alloc = rt.alloc();
    with_kept(
        &rt,
        alloc,
        1,
        |kept, tally| expect_given_up(&rt, alloc, kept, tally),
    )
}
