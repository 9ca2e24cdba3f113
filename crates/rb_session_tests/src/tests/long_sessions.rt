use crate::tests::devices::{
    Bytes, Dialogue, NEVER, Sheet, expect_bytes, expect_end, expect_made, push, push_line, run_by,
};
use rb_binary::BinaryTimer;
use rb_kept::Kept;
use rb_retry::Policy;
use rb_session::{Ended, SessionFault};
use std::alloc::Global;
use std::io::Read;
use std::process::Abort;

// The longest payload: each byte from 0x21 to 0x60.
const PAYLOAD: &[u8] = b"!\"#$%&'()*+,-./0123456789:;<=>?@ABCDEFGHIJKLMNOPQRSTUVWXYZ[\\]^_`";

// The first of 2,048 expiries, the last of which is 2^64 - 1.
const FIRST_EXPIRY: u64 = u64::MAX - 2_047;

// The outcome of a session.
#[derive(Drop)]
struct Outcome {
    ended: Result<Ended, SessionFault>,
    text: Vec<u8>,
}

fn ran_by<R: Read>(rt: &impl Abort, alloc: Global, reader: &mut R) -> Outcome {
    let (mut kept, mut tally) = expect_made(rt, Kept::<BinaryTimer>::new(alloc, 10_000));
    let mut writer = Sheet::new(alloc, NEVER);
    let policy = Policy::fixed(1_000, 3).expect(rt, "a policy");
    let ended = run_by(alloc, &mut kept, &mut tally, reader, &mut writer, &policy);
    drop(kept);
    Outcome {
        ended,
        text: writer.bytes,
    }
}

// Asserts the outcome of a dialogue, first read in pieces of 64 KiB, and then byte by byte.
fn expect_dialogue(rt: &impl Abort, alloc: Global, dialogue: Dialogue) {
    let mut pieces = dialogue.script.as_slice();
    expect_outcome(rt, ran_by(rt, alloc, &mut pieces), &dialogue.replies);
    let mut bytes = Bytes::of(&dialogue.script, NEVER);
    expect_outcome(rt, ran_by(rt, alloc, &mut bytes), &dialogue.replies);
    drop(dialogue);
}

fn expect_outcome(rt: &impl Abort, outcome: Outcome, replies: &[u8]) {
    expect_end(rt, outcome.ended, Ok(Ended::EndOfInput { lost: 0 }), 0);
    expect_bytes(rt, &outcome.text, replies, 0);
    drop(outcome);
}

// Appends a line of `count` letters, which is no request. A line of at most 256 bytes is read, and
// gets `ERR 1 syntax`. A longer one gets `ERR 8 line`.
fn push_letters(rt: &impl Abort, dialogue: &mut Dialogue, count: usize, end: &[u8]) {
    for _ in 0..count {
        push(rt, &mut dialogue.script, b"x");
    }
    let reply = if count <= 256 {
        b"ERR 1 syntax\n".as_slice()
    } else {
        b"ERR 8 line\n".as_slice()
    };
    dialogue.push(rt, end, reply);
}

fn lines_of_letters(rt: &impl Abort, alloc: Global) -> Dialogue {
    let mut dialogue = Dialogue::new(alloc);
    for count in 0..=300_usize {
        push_letters(rt, &mut dialogue, count, b"\n");
        push_letters(rt, &mut dialogue, count, b"\r\n");
    }
    dialogue
}

#[test]
fn a_line_of_any_length_is_answered(rt: HostRuntime) {
    expect_dialogue(&rt, rt.alloc(), lines_of_letters(&rt, rt.alloc()));
}

// Returns the payload of job `id`, which has 1 to 64 bytes.
fn payload_of(id: u64) -> &'static [u8] {
    let len = (id % 64).saturating_add(1) as usize;
    PAYLOAD.get(..len).unwrap_or(PAYLOAD)
}

fn expiry_of(id: u64) -> u64 {
    FIRST_EXPIRY.saturating_add(id)
}

fn push_offer(rt: &impl Abort, dialogue: &mut Dialogue, id: u64) {
    push_line(rt, &mut dialogue.script, b"OFFERAT ", expiry_of(id), b" ");
    push(rt, &mut dialogue.script, payload_of(id));
    push_line(rt, &mut dialogue.replies, b"OFFERED ", id, b" ");
    push_line(rt, &mut dialogue.replies, b"", expiry_of(id), b"\n");
    dialogue.push(rt, b"\n", b"");
}

fn push_item(rt: &impl Abort, replies: &mut Vec<u8>, id: u64) {
    push_line(rt, replies, b"ITEM ", id, b" ");
    push_line(rt, replies, b"", expiry_of(id), b" 1 ");
    push(rt, replies, payload_of(id));
    push(rt, replies, b"\n");
}

fn push_done(rt: &impl Abort, dialogue: &mut Dialogue, id: u64) {
    push_line(rt, &mut dialogue.script, b"DONE ", id, b"\n");
    push_line(rt, &mut dialogue.replies, b"DONE ", id, b"\n");
}

fn push_round(rt: &impl Abort, dialogue: &mut Dialogue, id: u64) {
    push_offer(rt, dialogue, id);
    dialogue.push(rt, b"POLL\n", b"");
    push_item(rt, &mut dialogue.replies, id);
    push_done(rt, dialogue, id);
}

// Returns a dialogue in which 2,048 jobs are offered, fetched and done, one after the other.
fn rounds(rt: &impl Abort, alloc: Global) -> Dialogue {
    let mut dialogue = Dialogue::new(alloc);
    dialogue.push(
        rt,
        b"AT 18446744073709551615\n",
        b"NOW 18446744073709551615\n",
    );
    for id in 0..2_048 {
        push_round(rt, &mut dialogue, id);
    }
    dialogue
}

#[test]
fn thousands_of_jobs_are_served(rt: HostRuntime) {
    expect_dialogue(&rt, rt.alloc(), rounds(&rt, rt.alloc()));
}

// Appends the offers of all jobs while none is expired, so that 2,048 stand. Then sets the clock to
// a moment at which all are expired.
fn push_offers(rt: &impl Abort, dialogue: &mut Dialogue) {
    for id in 0..2_048 {
        push_offer(rt, dialogue, id);
    }
    dialogue.push(
        rt,
        b"POLL\nSIZE\nAT 18446744073709551615\n",
        b"NONE\nSIZE 2048\nNOW 18446744073709551615\n",
    );
}

// Appends one request that fetches 64 jobs.
fn push_drain(rt: &impl Abort, dialogue: &mut Dialogue, first: u64) {
    dialogue.push(rt, b"DRAIN 65\n", b"DRAINED 64\n");
    for id in first..first.saturating_add(64) {
        push_item(rt, &mut dialogue.replies, id);
    }
}

// Appends 64 requests that fetch one job each.
fn push_polls(rt: &impl Abort, dialogue: &mut Dialogue, first: u64) {
    for id in first..first.saturating_add(64) {
        dialogue.push(rt, b"POLL\n", b"");
        push_item(rt, &mut dialogue.replies, id);
    }
}

// Appends fetches that get no job, because 64 are held. These 64 are then done, in the order of
// their fetches.
fn push_full(rt: &impl Abort, dialogue: &mut Dialogue, first: u64) {
    dialogue.push(
        rt,
        b"POLL\nPOLLFOR 5\nTAKE\nDRAIN 1\n",
        b"ERR 9 held\nERR 9 held\nERR 9 held\nDRAINED 0\n",
    );
    for id in first..first.saturating_add(64) {
        push_done(rt, dialogue, id);
    }
}

// Returns a dialogue in which the jobs are fetched and held 64 at a time, by a drain and by polls
// in turn.
fn holds(rt: &impl Abort, alloc: Global) -> Dialogue {
    let mut dialogue = Dialogue::new(alloc);
    push_offers(rt, &mut dialogue);
    for batch in 0..16_u64 {
        let first = batch.saturating_mul(128);
        push_drain(rt, &mut dialogue, first);
        push_full(rt, &mut dialogue, first);
        push_polls(rt, &mut dialogue, first.saturating_add(64));
        push_full(rt, &mut dialogue, first.saturating_add(64));
    }
    dialogue.push(rt, b"POLL\nSIZE\n", b"NONE\nSIZE 0\n");
    dialogue
}

#[test]
fn sixty_four_jobs_are_held_again_and_again(rt: HostRuntime) {
    expect_dialogue(&rt, rt.alloc(), holds(&rt, rt.alloc()));
}
