use crate::tests::devices::{
    Bytes, NEVER, Sheet, expect, expect_bytes, expect_count, expect_end, expect_made,
    expect_number, run, with_kept,
};
use rb_binary::BinaryTimer;
use rb_kept::Kept;
use rb_ledger::Tally;
use rb_queue::{Act, Event};
use rb_session::{Ended, SessionFault};
use rb_timer::{ListTimer, Timer};
use std::alloc::Global;
use std::process::Abort;

// Returns one letter for what the event did.
fn letter(event: &Event) -> u8 {
    match event.act {
        Act::Offer(_) => b'o',
        Act::Poll(Some(_)) => b'p',
        Act::Poll(None) => b'n',
        Act::Size(_) => b's',
        Act::Peek(_) => b'k',
        _ => b'?',
    }
}

fn expect_event(rt: &impl Abort, event: &Event, wanted: u8, moment: (u64, u64)) {
    expect_number(rt, u64::from(letter(event)), u64::from(wanted), 0);
    expect_number(rt, event.asked, moment.0, 0);
    expect_number(rt, event.at, moment.1, 0);
    expect_number(rt, event.seat, 0, 0);
}

// Asserts what the events did. All have the same moment asked for, and the same at which they took
// place.
fn expect_events(rt: &impl Abort, events: &[Event], letters: &[u8], moment: (u64, u64)) {
    expect_count(rt, events.len(), letters.len(), 0);
    for (event, &wanted) in events.iter().zip(letters) {
        expect_event(rt, event, wanted, moment);
    }
}

fn expect_calls<T: Timer>(rt: &impl Abort, alloc: Global) {
    let (mut kept, mut tally) = expect_made(rt, Kept::<T>::new(alloc, 10));
    let script = b"AT 100\nOFFER 50 a\nSIZE\npoll\nPOLL\nOFFER 18446744073709551615 b\nPEEK\nSIZE";
    let replies =
        b"NOW 100\nOFFERED 0 150\nSIZE 1\nERR 1 syntax\nNONE\nERR 3 range\nHEAD 0 150 1 a\nERR 8 line\n";
    let (mut reader, mut writer) = (Bytes::of(script, NEVER), Sheet::new(alloc, NEVER));
    let ended = run(rt, alloc, &mut kept, &mut tally, &mut reader, &mut writer);
    expect_end(rt, ended, Ok(Ended::EndOfInput { lost: 0 }), 0);
    expect_bytes(rt, &writer.bytes, replies, 0);
    expect_events(rt, kept.history(), b"osnk", (100, 100));
    expect_number(rt, tally.calls(), 4, 0);
    drop(kept);
}

// What asks nothing of the queue makes no event: `AT`, a line that is no request, and a request
// that is refused.
#[test]
fn each_call_is_one_event(rt: HostRuntime) {
    expect_calls::<ListTimer>(&rt, rt.alloc());
    expect_calls::<BinaryTimer>(&rt, rt.alloc());
}

// Asserts that the job that is held at the end fails then: the last event offers its second
// attempt, which expires at `expiry`.
fn expect_retry(rt: &impl Abort, events: &[Event], expiry: u64) {
    expect_events(rt, events, b"opo", (0, 0));
    match events.last() {
        Some(
            Event {
                act: Act::Offer(retry),
                ..
            },
        ) => {
            expect_number(rt, retry.id, 1, 0);
            expect_number(rt, retry.expiry, expiry, 0);
            expect_number(rt, retry.origin, 0, 0);
            expect_number(rt, retry.first, 0, 0);
            expect_number(rt, u64::from(retry.attempt), 2, 0);
        }
        _ => expect(rt, false),
    }
}

#[test]
fn what_is_held_after_a_write_fault_fails(rt: HostRuntime) {
    let alloc = rt.alloc();
    with_kept(
        &rt,
        alloc,
        10,
        |kept, tally| expect_write_fault(&rt, alloc, kept, tally),
    );
}

fn expect_write_fault(
    rt: &impl Abort,
    alloc: Global,
    kept: &mut Kept<BinaryTimer>,
    tally: &mut Tally,
) {
    let (mut reader, mut writer) = (Bytes::of(b"OFFER 0 a\nPOLL\n", NEVER), Sheet::new(alloc, 2));
    let ended = run(rt, alloc, kept, tally, &mut reader, &mut writer);
    expect_end(rt, ended, Err(SessionFault::Write { lost: 0 }), 0);
    expect_bytes(rt, &writer.bytes, b"OFFERED 0 0\n", 0);
    expect_retry(rt, kept.history(), 1_000);
}

#[test]
fn what_is_held_after_a_read_fault_fails(rt: HostRuntime) {
    let alloc = rt.alloc();
    let script = b"OFFER 0 a\nPOLL\n";
    expect_read_fault(&rt, alloc, script, 10, 0);
    expect_read_fault(&rt, alloc, script, 2, 1);
}

fn expect_read_fault(rt: &impl Abort, alloc: Global, script: &[u8], calls: u64, lost: u64) {
    let (mut kept, mut tally) = expect_made(rt, Kept::<ListTimer>::new(alloc, calls));
    let (mut reader, mut writer) = (Bytes::of(script, script.len()), Sheet::new(alloc, NEVER));
    let ended = run(rt, alloc, &mut kept, &mut tally, &mut reader, &mut writer);
    expect_end(rt, ended, Err(SessionFault::Read { lost }), 0);
    expect_bytes(rt, &writer.bytes, b"OFFERED 0 0\nITEM 0 0 1 a\n", 0);
    expect_failed(rt, kept.history(), lost);
    drop(kept);
}

fn expect_failed(rt: &impl Abort, events: &[Event], lost: u64) {
    if lost == 0 {
        expect_retry(rt, events, 1_000);
    } else {
        expect_events(rt, events, b"op", (0, 0));
    }
}
