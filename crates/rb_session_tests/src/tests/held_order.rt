use crate::tests::devices::{
    Dialogue, NEVER, Sheet, expect_bytes, expect_end, expect_made, expect_same, push_line, run_by,
};
use crate::tests::refusing_timer::RefusingTimer;
use rb_binary::BinaryTimer;
use rb_kept::Kept;
use rb_queue::{Act, Event};
use rb_retry::Policy;
use rb_session::{Ended, SessionFault};
use rb_timer::Timer;
use std::alloc::Global;
use std::process::Abort;

// The outcome of a session, and the origins of the elements that its last events offered.
#[derive(Drop)]
struct Outcome {
    ended: Result<Ended, SessionFault>,
    text: Vec<u8>,
    origins: Vec<u64>,
}

fn origin_of(event: &Event) -> u64 {
    match &event.act {
        Act::Offer(element) => element.origin,
        _ => u64::MAX,
    }
}

fn last_origins(rt: &impl Abort, alloc: Global, events: &[Event], count: usize) -> Vec<u64> {
    let mut origins = Vec::new(alloc);
    for event in &events[events.len().saturating_sub(count)..] {
        expect_made(rt, origins.push(origin_of(event)));
    }
    origins
}

fn ran<T: Timer>(rt: &impl Abort, alloc: Global, script: &[u8], held: usize) -> Outcome {
    let (mut kept, mut tally) = expect_made(rt, Kept::<T>::new(alloc, 4_000));
    let (mut reader, mut writer) = (script, Sheet::new(alloc, NEVER));
    let policy = Policy::fixed(1_000, 3).expect(rt, "a policy");
    let ended = run_by(
        alloc,
        &mut kept,
        &mut tally,
        &mut reader,
        &mut writer,
        &policy,
    );
    let origins = last_origins(rt, alloc, kept.history(), held);
    drop(kept);
    Outcome {
        ended,
        text: writer.bytes,
        origins,
    }
}

fn expect_origins(rt: &impl Abort, origins: &[u64], wanted: &[u64]) {
    expect_same(rt, origins, wanted);
}

// Asserts that the jobs that are held at the end fail in the order of their fetches, `held`.
fn expect_order<T: Timer>(rt: &impl Abort, alloc: Global, dialogue: Dialogue, held: &[u64]) {
    let outcome = ran::<T>(rt, alloc, &dialogue.script, held.len());
    expect_end(rt, outcome.ended, Ok(Ended::EndOfInput { lost: 0 }), 0);
    expect_bytes(rt, &outcome.text, &dialogue.replies, 0);
    expect_origins(rt, &outcome.origins, held);
    drop(outcome);
    drop(dialogue);
}

// Appends the offer of element `id`. It expires at moment `id`, and so is expired: the clock is at
// 100,000.
fn push_offer(rt: &impl Abort, dialogue: &mut Dialogue, id: u64) {
    push_line(rt, &mut dialogue.script, b"OFFERAT ", id, b" j\n");
    push_line(rt, &mut dialogue.replies, b"OFFERED ", id, b" ");
    push_line(rt, &mut dialogue.replies, b"", id, b"\n");
}

fn push_item(rt: &impl Abort, dialogue: &mut Dialogue, id: u64) {
    push_line(rt, &mut dialogue.replies, b"ITEM ", id, b" ");
    push_line(rt, &mut dialogue.replies, b"", id, b" 1 j\n");
}

fn push_fetch(rt: &impl Abort, dialogue: &mut Dialogue, id: u64) {
    push_offer(rt, dialogue, id);
    dialogue.push(rt, b"POLL\n", b"");
    push_item(rt, dialogue, id);
}

fn push_done(rt: &impl Abort, dialogue: &mut Dialogue, id: u64) {
    push_line(rt, &mut dialogue.script, b"DONE ", id, b"\n");
    push_line(rt, &mut dialogue.replies, b"DONE ", id, b"\n");
}

// Appends two jobs that are fetched. The second is done, and then the first, unless its id is a
// multiple of 16. Such a job stays held.
fn push_pair(rt: &impl Abort, dialogue: &mut Dialogue, first: u64) {
    push_fetch(rt, dialogue, first);
    push_fetch(rt, dialogue, first.saturating_add(1));
    push_done(rt, dialogue, first.saturating_add(1));
    if first % 16 != 0 {
        push_done(rt, dialogue, first);
    }
}

fn pairs(rt: &impl Abort, alloc: Global) -> Dialogue {
    let mut dialogue = Dialogue::new(alloc);
    dialogue.push(rt, b"AT 100000\n", b"NOW 100000\n");
    for pair in 0..300_u64 {
        push_pair(rt, &mut dialogue, pair.saturating_mul(2));
    }
    dialogue.push(
        rt,
        b"FAIL 160\nDONE 160\nDONE 161\n",
        b"AGAIN 600 101000\nERR 5 not-held\nERR 5 not-held\n",
    );
    dialogue
}

// Returns the ids of the jobs that stay held: every sixteenth of 600, except job 160, which failed.
fn held_on(rt: &impl Abort, alloc: Global) -> Vec<u64> {
    let mut held = Vec::new(alloc);
    for id in 0..600_u64 {
        if id % 16 == 0 && id != 160 {
            expect_made(rt, held.push(id));
        }
    }
    held
}

#[test]
fn jobs_stay_in_order_while_hundreds_end(rt: HostRuntime) {
    let alloc = rt.alloc();
    let held = held_on(&rt, alloc);
    expect_order::<BinaryTimer>(&rt, alloc, pairs(&rt, alloc), &held);
}

// Appends 54 jobs that are offered, fetched by one request, and done, the last of them first.
fn push_drain(rt: &impl Abort, dialogue: &mut Dialogue, first: u64) {
    let end = first.saturating_add(54);
    for id in first..end {
        push_offer(rt, dialogue, id);
    }
    dialogue.push(rt, b"DRAIN 99\n", b"DRAINED 54\n");
    for id in first..end {
        push_item(rt, dialogue, id);
    }
    for back in 0..54_u64 {
        push_done(rt, dialogue, end.saturating_sub(back).saturating_sub(1));
    }
}

// Returns a dialogue in which ten jobs stay held. Beside them 54 jobs, as many as possible, are
// held and done, 20 times over.
fn drains(rt: &impl Abort, alloc: Global) -> Dialogue {
    let mut dialogue = Dialogue::new(alloc);
    dialogue.push(rt, b"AT 100000\n", b"NOW 100000\n");
    for id in 0..10 {
        push_fetch(rt, &mut dialogue, id);
    }
    for round in 0..20_u64 {
        push_drain(
            rt,
            &mut dialogue,
            round.saturating_mul(54).saturating_add(10),
        );
    }
    dialogue
}

#[test]
fn jobs_stay_in_order_beside_drains(rt: HostRuntime) {
    let alloc = rt.alloc();
    let held = [0, 1, 2, 3, 4, 5, 6, 7, 8, 9];
    expect_order::<BinaryTimer>(&rt, alloc, drains(&rt, alloc), &held);
}

// Returns a dialogue in which one of three held jobs fails while eight elements stand. The timer
// refuses the room for a ninth, once.
fn refusals(rt: &impl Abort, alloc: Global) -> Dialogue {
    let mut dialogue = Dialogue::new(alloc);
    dialogue.push(rt, b"AT 100000\n", b"NOW 100000\n");
    for id in 0..3 {
        push_fetch(rt, &mut dialogue, id);
    }
    for id in 3..11 {
        push_offer(rt, &mut dialogue, id);
    }
    dialogue.push(rt, b"FAIL 1\n", b"ERR 7 memory\n");
    dialogue
}

#[test]
fn a_job_whose_failure_was_refused_keeps_its_place(rt: HostRuntime) {
    let alloc = rt.alloc();
    let dialogue = refusals(&rt, alloc);
    expect_order::<RefusingTimer<BinaryTimer, 8>>(&rt, alloc, dialogue, &[0, 1, 2]);
}
