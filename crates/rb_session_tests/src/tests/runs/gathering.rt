use crate::tests::devices::{expect, expect_bytes, expect_count, expect_made, expect_same};
use crate::tests::gathered_replies::repeated;
use crate::tests::runs::devices::{
    AT_END, Client, End, GATHERED, Outcome, Sink, Source, expect_end, ran,
};
use rb_binary::BinaryTimer;
use rb_ending::BrokerFault;
use rb_kept::Kept;
use rb_protocol::{LimitedReader, LimitedWriter, WriterStatus};
use rb_retry::{Desk, KeptDesk, Policy};
use rb_session::{Delivery, Ended, HandsOn, SessionFault, run_limited};
use std::alloc::Global;
use std::cell::Cell;
use std::io::{Read, Write};
use std::process::Abort;

// A conversation with one reply to each request.
const REQUESTS: &[u8] = b"AT 100\nOFFER 50 a\nSIZE\npoll\nAT 150\nPOLL\nDONE 0\nQUIT\n";

const REPLIES: &[u8] =
    b"NOW 100\nOFFERED 0 150\nSIZE 1\nERR 1 syntax\nNOW 150\nITEM 0 150 1 a\nDONE 0\nBYE\n";

// Asserts that a client gets all replies if it sends each request once it has the replies to all
// earlier ones. It sends at most `most` bytes at a time.
fn expect_answered(rt: &impl Abort, alloc: Global, most: usize) {
    let cell = Cell::new(0);
    let received = &cell;
    let replies = REPLIES;
    let source = Source::asking(REQUESTS, most, Client { received, replies });
    let sink = Sink::received(alloc, received);
    let outcome = ran(rt, alloc, GATHERED, 100, source, sink);
    expect(rt, outcome.ended.is_ok());
    expect_count(rt, received.get(), REPLIES.len(), most);
}

#[test]
fn a_client_that_waits_gets_its_reply(rt: HostRuntime) {
    for most in [usize::MAX, 1, 3] {
        expect_answered(&rt, rt.alloc(), most);
    }
}

// Runs a script that one read gives whole, over a writer that takes everything.
fn batch(rt: &impl Abort, alloc: Global, calls: u64, script: &[u8]) -> Outcome {
    let source = Source::of(script, usize::MAX);
    ran(rt, alloc, GATHERED, calls, source, Sink::new(alloc))
}

// 50,000 bytes of requests get 70,000 bytes of replies, so the room for replies is full once.
#[test]
fn ten_thousand_requests_are_a_few_writes(rt: HostRuntime) {
    let alloc = rt.alloc();
    let script = repeated(&rt, alloc, b"SIZE\n", 10_000);
    let replies = repeated(&rt, alloc, b"SIZE 0\n", 10_000);
    let outcome = batch(&rt, alloc, 10_000, &script);
    expect_end(&rt, outcome.ended, AT_END, 0);
    expect_bytes(&rt, &outcome.bytes, &replies, 0);
    expect_count(&rt, outcome.writes, 2, 0);
    expect_count(&rt, outcome.reads, 2, 0);
}

// In a script no take waits, so none costs a write.
#[test]
fn a_hundred_takes_of_a_script_are_one_write(rt: HostRuntime) {
    let alloc = rt.alloc();
    let script = repeated(&rt, alloc, b"TAKE\n", 100);
    let replies = repeated(&rt, alloc, b"STOPPED\n", 100);
    let outcome = batch(&rt, alloc, 100, &script);
    expect_end(&rt, outcome.ended, AT_END, 0);
    expect_bytes(&rt, &outcome.bytes, &replies, 0);
    expect_count(&rt, outcome.writes, 1, 0);
}

// Runs the conversation over a writer with room for `room` bytes. Asserts which bytes it received,
// and how the run ended.
fn expect_first_bytes(rt: &impl Abort, alloc: Global, room: usize, is_closed: bool) {
    let source = Source::of(REQUESTS, usize::MAX);
    let sink = Sink::bounded(alloc, room, is_closed);
    let outcome = ran(rt, alloc, GATHERED, 100, source, sink);
    let first = REPLIES.get(..room).unwrap_or(REPLIES);
    expect_bytes(rt, &outcome.bytes, first, room);
    let wanted = if room < REPLIES.len() {
        Err(BrokerFault::Write)
    } else {
        Ok(Ended::Quit { lost: 0 })
    };
    expect_end(rt, outcome.ended, wanted, room);
}

#[test]
fn an_output_may_be_full_or_closed_at_any_byte(rt: HostRuntime) {
    for room in 0..=REPLIES.len() {
        expect_first_bytes(&rt, rt.alloc(), room, true);
        expect_first_bytes(&rt, rt.alloc(), room, false);
    }
}

// Runs a script of one request whose second read fails, over a writer that fails after `room`
// bytes.
fn broken_off(rt: &impl Abort, alloc: Global, room: usize) -> Outcome {
    let source = Source::ending(b"SIZE\n", End::Fails);
    let sink = Sink::bounded(alloc, room, true);
    ran(rt, alloc, GATHERED, 100, source, sink)
}

// Replies that are held back are handed on before the next read, so a fault of their write comes
// first.
#[test]
fn a_late_write_fault_is_no_read_fault(rt: HostRuntime) {
    let outcome = broken_off(&rt, rt.alloc(), 3);
    expect_end(&rt, outcome.ended, Err(BrokerFault::Write), 3);
    expect_count(&rt, outcome.reads, 1, 3);

    let outcome = broken_off(&rt, rt.alloc(), usize::MAX);
    expect_end(&rt, outcome.ended, Err(BrokerFault::Read), 0);
    expect_bytes(&rt, &outcome.bytes, b"SIZE 0\n", 0);
}

// The outcome of a session whose writer has room for five bytes.
#[derive(Drop)]
struct Cut {
    ended: Result<Ended, SessionFault>,
    bytes: Vec<u8>,
    events: usize,
    left: u64,
}

fn session_of<R: Read, W: Write, D: Desk>(
    alloc: Global,
    source: &mut R,
    sink: &mut W,
    desk: &mut D,
    policy: &Policy,
    delivery: Delivery,
) -> Result<Ended, SessionFault> {
    let mut reader = LimitedReader::new(source);
    let mut status = WriterStatus::of(&*sink);
    let outlet = LimitedWriter::new(sink, &mut status);
    let (_, ended) = run_limited(alloc, &mut reader, outlet, desk, policy, delivery);
    ended
}

fn cut_off(rt: &impl Abort, alloc: Global, script: &[u8], hands_on: HandsOn) -> Cut {
    let policy = Policy::fixed(1_000, 3).expect(rt, "a policy");
    let (mut kept, mut tally) = expect_made(rt, Kept::<BinaryTimer>::new(alloc, 100));
    let mut desk = KeptDesk::new(&mut kept, &mut tally);
    let mut source = Source::of(script, usize::MAX);
    let mut sink = Sink::bounded(alloc, 5, true);
    let delivery = Delivery::Gathered(hands_on);
    let ended = session_of(alloc, &mut source, &mut sink, &mut desk, &policy, delivery);
    let (events, left) = (kept.history().len(), kept.audit().left);
    drop(kept);
    Cut {
        ended,
        bytes: sink.bytes,
        events,
        left,
    }
}

fn expect_cut(rt: &impl Abort, cut: &Cut) {
    expect_same(rt, cut.ended, Err(SessionFault::Write { lost: 0 }));
}

// All lines were served and two jobs are held when the write of the replies fails. The reply with
// the second job is lost, and both jobs come back.
#[test]
fn held_jobs_fail_after_a_late_write_fault(rt: HostRuntime) {
    let script = b"OFFER 0 a\nOFFER 0 b\nPOLL\nPOLL\n";
    let cut = cut_off(&rt, rt.alloc(), script, HandsOn::BeforeReads);
    expect_cut(&rt, &cut);
    expect_count(&rt, cut.events, 6, 0);
}

// A take that need not wait hands nothing on before. Its job fails at the end of the session, as the replies can't be
// handed on.
#[test]
fn a_take_that_need_not_wait_is_served_before_a_write_fault(rt: HostRuntime) {
    let script = b"OFFER 0 a\nTAKE\n";
    let cut = cut_off(&rt, rt.alloc(), script, HandsOn::BeforeReadsAndWaits);
    expect_cut(&rt, &cut);
    expect_bytes(&rt, &cut.bytes, b"OFFER", 0);
    expect_count(&rt, cut.events, 3, 0);
    expect(&rt, cut.left == 1);
}
