use crate::tests::devices::{Dialogue, expect_bytes, expect_made};
use crate::tests::runs::devices::{AT_QUIT, Sink, Source, WAYS, Way, expect_end, ran};
use std::alloc::Global;
use std::process::Abort;

// The number of elements that are offered. It is a prime, so that `rank_of` scatters them, and it
// lies past many growths of each array.
const ELEMENTS: u64 = 2503;

// The expiry at rank 0, in nanoseconds. Like all the others it has 20 digits.
const LEAST_EXPIRY: u64 = 18_446_744_073_709_500_000;

// The number of calls that the queue has room for. Each element is offered and polled. `SIZE`,
// `PEEK` and `POLL` are asked once in between, and `POLL` and `SIZE` once more at the end.
const CALLS: u64 = 5011;

// An id times `TO_RANK` gives its rank and a rank times `TO_ID` its id, both modulo `ELEMENTS`: the
// product of the two leaves 1.
const TO_RANK: u64 = 1117;

const TO_ID: u64 = 977;

// Returns the number of elements that expire before the one with id `id`.
fn rank_of(id: u64) -> u64 {
    id.wrapping_mul(TO_RANK) % ELEMENTS
}

fn id_of(rank: u64) -> u64 {
    rank.wrapping_mul(TO_ID) % ELEMENTS
}

fn expiry_at(rank: u64) -> u64 {
    LEAST_EXPIRY.saturating_add(rank)
}

// Adds a line and its reply.
fn push_line(rt: &impl Abort, dialogue: &mut Dialogue, line: &str, reply: &str) {
    dialogue.push(rt, line.as_bytes(), reply.as_bytes());
    dialogue.push(rt, b"\n", b"\n");
}

// Adds an offer. At moment 0 its delay is its expiry. Its payload is the rank in 64 digits.
fn push_offer(rt: &impl Abort, alloc: Global, dialogue: &mut Dialogue, id: u64) {
    let rank = rank_of(id);
    let expiry = expiry_at(rank);
    let line = expect_made(rt, format!(in alloc; "OFFER {expiry} {rank:064}"));
    let reply = expect_made(rt, format!(in alloc; "OFFERED {id} {expiry}"));
    push_line(rt, dialogue, &line, &reply);
}

fn push_offers(rt: &impl Abort, alloc: Global, dialogue: &mut Dialogue) {
    for id in 0..ELEMENTS {
        push_offer(rt, alloc, dialogue, id);
    }
}

fn push_poll(rt: &impl Abort, alloc: Global, dialogue: &mut Dialogue, rank: u64) {
    let (id, expiry) = (id_of(rank), expiry_at(rank));
    let reply = expect_made(rt, format!(in alloc; "ITEM {id} {expiry} 1 {rank:064}"));
    push_line(rt, dialogue, "POLL", &reply);
}

fn push_done(rt: &impl Abort, alloc: Global, dialogue: &mut Dialogue, rank: u64) {
    let id = id_of(rank);
    let done = expect_made(rt, format!(in alloc; "DONE {id}"));
    push_line(rt, dialogue, &done, &done);
}

fn push_polls(rt: &impl Abort, alloc: Global, dialogue: &mut Dialogue) {
    for rank in 0..ELEMENTS {
        push_poll(rt, alloc, dialogue, rank);
        push_done(rt, alloc, dialogue, rank);
    }
}

fn push_lines(rt: &impl Abort, dialogue: &mut Dialogue, lines: &[(&str, &str)]) {
    for &(line, reply) in lines {
        push_line(rt, dialogue, line, reply);
    }
}

// The lines between the offers and the polls, when all elements are in the queue.
const BETWEEN: [(&str, &str); 4] = [
    ("SIZE", "SIZE 2503"),
    (
        "PEEK",
        "HEAD 0 18446744073709500000 1 0000000000000000000000000000000000000000000000000000000000000000",
    ),
    ("POLL", "NONE"),
    ("AT 18446744073709551615", "NOW 18446744073709551615"),
];

// The lines after the last poll, when no element is in the queue.
const AT_LAST: [(&str, &str); 4] = [
    ("POLL", "NONE"),
    ("SIZE", "SIZE 0"),
    ("SIZE", "ERR 6 full"),
    ("QUIT", "BYE"),
];

fn long_dialogue(rt: &impl Abort, alloc: Global) -> Dialogue {
    let mut dialogue = Dialogue::new(alloc);
    push_offers(rt, alloc, &mut dialogue);
    push_lines(rt, &mut dialogue, &BETWEEN);
    push_polls(rt, alloc, &mut dialogue);
    push_lines(rt, &mut dialogue, &AT_LAST);
    dialogue
}

fn expect_replies(rt: &impl Abort, alloc: Global, way: Way, dialogue: &Dialogue) {
    let source = Source::of(&dialogue.script, usize::MAX);
    let outcome = ran(rt, alloc, way, CALLS, source, Sink::new(alloc));
    expect_end(rt, outcome.ended, AT_QUIT, 0);
    expect_bytes(rt, &outcome.bytes, &dialogue.replies, 0);
}

#[test]
fn answers_with_ample_memory(rt: HostRuntime) {
    let alloc = rt.alloc();
    let dialogue = long_dialogue(&rt, alloc);
    for way in WAYS {
        expect_replies(&rt, alloc, way, &dialogue);
    }
}
