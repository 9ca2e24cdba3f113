use crate::tests::devices::{
    Bytes, NEVER, Sheet, expect_bytes, expect_count, expect_end, ran, run, with_kept,
};
use rb_binary::BinaryTimer;
use rb_kept::Kept;
use rb_ledger::Tally;
use rb_session::{Ended, SessionFault};
use std::alloc::Global;
use std::process::Abort;

// A job with three attempts, whose third failure is its last. A fourth one finds the job no longer
// held.
const JOB: &[u8] =
    b"AT 100\nOFFER 0 j\nPOLL\nAT 200\nFAIL 0\nAT 1200\nPOLL\nFAIL 1\nAT 2200\nPOLL\nFAIL 2\nFAIL 2\n";

const REPLIES: &[u8] =
    b"NOW 100\nOFFERED 0 100\nITEM 0 100 1 j\nNOW 200\nAGAIN 1 1200\nNOW 1200\nITEM 1 1200 2 j\n\
        AGAIN 2 2200\nNOW 2200\nITEM 2 2200 3 j\nDEAD 2\nERR 5 not-held\n";

type Slipped = (Result<Ended, SessionFault>, Vec<u8>);

fn slipped(rt: &impl Abort, alloc: Global) -> Slipped {
    with_kept(
        rt,
        alloc,
        100,
        |kept, tally| slipped_over(rt, alloc, kept, tally),
    )
}

fn slipped_over(
    rt: &impl Abort,
    alloc: Global,
    kept: &mut Kept<BinaryTimer>,
    tally: &mut Tally,
) -> Slipped {
    let (mut reader, mut writer) = (Bytes::of(JOB, NEVER), Sheet::of_bytes(alloc));
    let ended = run(rt, alloc, kept, tally, &mut reader, &mut writer);
    (ended, writer.bytes)
}

// What a write does not take is written again, as often as needed.
#[test]
fn a_writer_may_take_a_byte_at_a_time(rt: HostRuntime) {
    let (ended, bytes) = slipped(&rt, rt.alloc());
    expect_end(&rt, ended, Ok(Ended::EndOfInput { lost: 0 }), 0);
    expect_bytes(&rt, &bytes, REPLIES, 0);
}

// Returns the number of bytes of the first `lines` lines of the replies, including their ends.
fn end_of_line(lines: usize) -> usize {
    let mut seen = 0_usize;
    let mut end = 0;
    for (at, &byte) in REPLIES.iter().enumerate() {
        if byte == b'\n' && seen < lines {
            seen = seen.saturating_add(1);
            end = at.saturating_add(1);
        }
    }
    end
}

fn first_replies(lines: usize) -> &'static [u8] {
    REPLIES.get(..end_of_line(lines)).unwrap_or(REPLIES)
}

// Each line has one reply, so a read that fails after `lines` whole lines leaves as many replies.
#[test]
fn a_read_may_fail_anywhere(rt: HostRuntime) {
    let mut lines = 0_usize;
    for call in 0..=JOB.len() {
        let ran = ran::<BinaryTimer>(&rt, rt.alloc(), JOB, call, NEVER);
        expect_end(&rt, ran.ended, Err(SessionFault::Read { lost: 0 }), call);
        expect_bytes(&rt, &ran.bytes, first_replies(lines), call);
        if JOB.get(call) == Some(&b'\n') {
            lines = lines.saturating_add(1);
        }
    }
}

// Each reply is one write and one flush, so call 2k is the write of reply k, and call 2k + 1 is its
// flush. Both are counted from 0.
#[test]
fn a_write_or_a_flush_may_fail_anywhere(rt: HostRuntime) {
    for call in 0..24_usize {
        let ran = ran::<BinaryTimer>(&rt, rt.alloc(), JOB, NEVER, call);
        expect_end(&rt, ran.ended, Err(SessionFault::Write { lost: 0 }), call);
        expect_bytes(&rt, &ran.bytes, first_replies(call.div_ceil(2)), call);
        expect_count(&rt, ran.calls, call.saturating_add(1), call);
    }
}
