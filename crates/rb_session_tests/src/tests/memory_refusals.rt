use crate::tests::devices::{
    NEVER, Sheet, expect, expect_bytes, expect_count, expect_made, expect_number, expect_same,
    push, push_line, run_by, with_kept,
};
use rb_binary::BinaryTimer;
use rb_delayed::Payload;
use rb_kept::{Kept, Outcome, Step};
use rb_ledger::Tally;
use rb_queue::{Act, Ask, Draft, Event, Reply};
use rb_retry::Policy;
use rb_session::{Ended, SessionFault};
use std::alloc::Global;
use std::ops::Range;
use std::process::Abort;

// The number of refusals that the test meets. `dev/refuse_allocations` sets 1 and refuses each
// allocation of the test in turn.
const REFUSALS: u32 = 0;

const REFUSED: &[u8] = b"ERR 7 memory\n";

// How many calls a queue has room for.
const MOST_CALLS: u64 = 300;

// The number of jobs that are held before the first of them fails.
const JOBS: u64 = 64;

// A number of bytes that no script of a session reaches, and no text of its replies.
const PAGE_BYTES: usize = 8192;

// What the test writes, in memory that is taken once for all sessions: the requests of a session, the
// replies that it wants, a line of them, and what the session wrote.
#[derive(Drop)]
struct Pages {
    script: Vec<u8>,
    replies: Vec<u8>,
    line: Vec<u8>,
    sheet: Sheet,
}

// Takes memory for the test itself, and tries once more if memory is refused.
fn page(rt: &impl Abort, alloc: Global) -> Vec<u8> {
    match Vec::with_capacity(alloc, PAGE_BYTES) {
        Ok(bytes) => bytes,
        Err(_) => expect_made(rt, Vec::with_capacity(alloc, PAGE_BYTES)),
    }
}

fn blank_pages(rt: &impl Abort, alloc: Global) -> Pages {
    Pages {
        script: page(rt, alloc),
        replies: page(rt, alloc),
        line: page(rt, alloc),
        sheet: Sheet {
            bytes: page(rt, alloc),
            calls: 0,
            fails_at: NEVER,
            most: usize::MAX,
        },
    }
}

impl Pages {
    // Begins a dialogue with this request and its reply.
    fn begin(&mut self, rt: &impl Abort, request: &[u8], reply: &[u8]) {
        self.script.clear();
        self.replies.clear();
        self.push(rt, request, reply);
    }

    // Appends a request with its replies.
    fn push(&mut self, rt: &impl Abort, request: &[u8], replies: &[u8]) {
        push(rt, &mut self.script, request);
        push(rt, &mut self.replies, replies);
    }

    // Appends the offer of an element that stands, `id`.
    fn push_standing(&mut self, rt: &impl Abort, id: u64) {
        push(rt, &mut self.script, b"OFFER 9 b\n");
        push_line(rt, &mut self.replies, b"OFFERED ", id, b" 109\n");
    }
}

// A session that came to the end of its input, over a queue of its own.
#[derive(Clone, Copy)]
struct Session {
    /// The number of refusals that it met.
    met: u64,
    /// The number of jobs that were lost at its end.
    lost: u64,
    offered: u64,
    events: usize,
    /// The id, the origin and the attempt of the element that the last event offered. `None` if the
    /// last event is not an offer.
    last: Option<(u64, u64, u32)>,
}

fn last_offer(kept: &Kept<BinaryTimer>) -> Option<(u64, u64, u32)> {
    match kept.history().last() {
        Some(
            Event {
                act: Act::Offer(element),
                ..
            },
        ) => Some((element.id, element.origin, element.attempt)),
        _ => None,
    }
}

// How a session ended, and how often it was refused as a whole before.
#[derive(Clone, Copy)]
struct Ending {
    ended: Result<Ended, SessionFault>,
    met: u64,
}

fn run_over(
    rt: &impl Abort,
    alloc: Global,
    kept: &mut Kept<BinaryTimer>,
    tally: &mut Tally,
    reader: &mut &[u8],
    sheet: &mut Sheet,
) -> Result<Ended, SessionFault> {
    let policy = Policy::fixed(1_000, 3).expect(rt, "a policy");
    run_by(alloc, kept, tally, reader, sheet, &policy)
}

// Runs the session of the script. If memory is refused to the session itself, asserts that it has done
// nothing, and runs it once more.
fn ended_at_last(
    rt: &impl Abort,
    alloc: Global,
    kept: &mut Kept<BinaryTimer>,
    tally: &mut Tally,
    script: &[u8],
    sheet: &mut Sheet,
) -> Ending {
    let mut reader = script;
    let ended = run_over(rt, alloc, kept, tally, &mut reader, sheet);
    if ended != Err(SessionFault::Memory) {
        return Ending { ended, met: 0 };
    }
    expect_count(rt, reader.len(), script.len(), 0);
    expect_count(rt, sheet.calls, 0, 0);
    expect_count(rt, kept.history().len(), 0, 0);
    let ended = run_over(rt, alloc, kept, tally, &mut reader, sheet);
    Ending { ended, met: 1 }
}

fn lost_at(rt: &impl Abort, ended: Result<Ended, SessionFault>) -> u64 {
    match ended {
        Ok(Ended::EndOfInput { lost }) => lost,
        _ => rt.abort(),
    }
}

// Returns how many lines of the text begin with `front`.
fn lines_with(text: &[u8], front: &[u8]) -> u64 {
    let lines = text.split_inclusive(|&byte| byte == b'\n');
    lines.filter(|line| line.starts_with(front)).count() as u64
}

// Asserts that the next offer gets this id.
fn expect_next_id(rt: &impl Abort, kept: &mut Kept<BinaryTimer>, tally: &mut Tally, wanted: u64) {
    let payload = Payload::new(b"z").ok().expect(rt, "a payload");
    let step = kept.act(tally, 0, 0, Ask::Offer(Draft::first(0, payload)));
    expect_number(rt, offered_id(rt, &step), wanted, 0);
}

fn offered_id(rt: &impl Abort, step: &Step) -> u64 {
    match step {
        Ok(Outcome::Done(Reply::Offered(element))) => element.id,
        _ => rt.abort(),
    }
}

// Runs the session of the script. Each job that it fetched has failed, by a request or at the end. So
// each `OFFERED` and each `ITEM` stands for an id, except if the job was lost, and a refused request
// for none: after a refusal one more offer shows that no id is left out.
fn served(
    rt: &impl Abort,
    alloc: Global,
    kept: &mut Kept<BinaryTimer>,
    tally: &mut Tally,
    script: &[u8],
    sheet: &mut Sheet,
) -> Session {
    sheet.bytes.clear();
    sheet.calls = 0;
    let Ending { ended, met } = ended_at_last(rt, alloc, kept, tally, script, sheet);
    let (text, lost) = (sheet.bytes.as_slice(), lost_at(rt, ended));
    let met = met
        .saturating_add(lost)
        .saturating_add(lines_with(text, REFUSED));
    let (offered, events) = (kept.audit().offered, kept.history().len());
    let last = last_offer(kept);
    if met > 0 {
        let told = lines_with(text, b"OFFERED ").saturating_add(lines_with(text, b"ITEM "));
        expect_next_id(rt, kept, tally, told.saturating_sub(lost));
    }
    Session {
        met,
        lost,
        offered,
        events,
        last,
    }
}

// Runs the session of the pages' script over a queue of its own.
fn session_of(rt: &impl Abort, alloc: Global, pages: &mut Pages) -> Session {
    let (script, sheet) = (&pages.script, &mut pages.sheet);
    with_kept(
        rt,
        alloc,
        MOST_CALLS,
        |kept, tally| served(rt, alloc, kept, tally, script, sheet),
    )
}

// Runs a session with one offer, over the requests of a first example. Returns the number of refusals.
fn refused_offer(rt: &impl Abort, alloc: Global, pages: &mut Pages) -> u64 {
    pages.begin(
        rt,
        b"AT 100\nOFFER 50 a\nSIZE\nPOLL\nPEEK\n",
        b"NOW 100\nOFFERED 0 150\nSIZE 1\nNONE\nHEAD 0 150 1 a\n",
    );
    let session = session_of(rt, alloc, pages);
    expect_one_offer(rt, session, &pages.sheet.bytes, &pages.replies);
    session.met
}

fn expect_one_offer(rt: &impl Abort, session: Session, text: &[u8], wanted: &[u8]) {
    expect_number(rt, session.lost, 0, 0);
    if session.offered == 1 {
        expect_bytes(rt, text, wanted, 0);
        return;
    }
    expect_bytes(rt, text, b"NOW 100\nERR 7 memory\nSIZE 0\nNONE\nNONE\n", 0);
    expect_count(rt, session.events, 3, 0);
}

// Writes a dialogue in which jobs are offered and fetched. Each is fetched before the next is offered,
// while no other element stands.
fn write_fetches(rt: &impl Abort, pages: &mut Pages) {
    pages.begin(rt, b"AT 100\n", b"NOW 100\n");
    for id in 0..JOBS {
        pages.push(rt, b"OFFER 0 j\nPOLL\n", b"");
        push_line(rt, &mut pages.replies, b"OFFERED ", id, b" 100\n");
        push_line(rt, &mut pages.replies, b"ITEM ", id, b" 100 1 j\n");
    }
}

// Writes the dialogue of the fetches, followed by failures. First job 0 fails while no element stands,
// and a further job is fetched in its place. Then each of the other jobs fails. The replies to these
// last 64 failures are left out.
fn write_failures(rt: &impl Abort, pages: &mut Pages) {
    write_fetches(rt, pages);
    pages.push(
        rt,
        b"FAIL 0\nOFFER 0 j\nPOLL\n",
        b"AGAIN 64 1100\nOFFERED 65 100\nITEM 65 100 1 j\n",
    );
    for id in 1..JOBS {
        push_line(rt, &mut pages.script, b"FAIL ", id, b"\n");
    }
    pages.push(rt, b"FAIL 65\n", b"");
}

// Asserts that the replies to the last 64 failures have the next ids in order, except where memory was
// refused.
fn expect_again(rt: &impl Abort, replies: &[u8], line: &mut Vec<u8>) {
    let mut next_id = 66_u64;
    for reply in replies.split_inclusive(|&byte| byte == b'\n') {
        if reply != REFUSED {
            line.clear();
            push_line(rt, line, b"AGAIN ", next_id, b" 1100\n");
            expect_bytes(rt, reply, line, 0);
            next_id = next_id.saturating_add(1);
        }
    }
    expect_number(
        rt,
        next_id.saturating_add(lines_with(replies, REFUSED)),
        130,
        0,
    );
}

// Runs a session in which jobs fail while 0, 1, and so on up to 64 elements stand. A job whose failure
// is refused stays held, and is offered again at the end. Returns the number of refusals.
fn refused_failures(rt: &impl Abort, alloc: Global, pages: &mut Pages) -> u64 {
    write_failures(rt, pages);
    let session = session_of(rt, alloc, pages);
    expect_number(rt, session.lost, 0, 0);
    match pages.sheet.bytes.strip_prefix(pages.replies.as_slice()) {
        // An offer was refused, so its job was not fetched.
        None => expect(rt, session.met == 1),
        Some(replies) => {
            expect_number(rt, session.offered, 130, 0);
            expect_again(rt, replies, &mut pages.line);
        }
    }
    session.met
}

// Runs a session at whose end all jobs are held, and fail. A job whose failure is refused is lost.
// Returns the number of refusals.
fn refused_endings(rt: &impl Abort, alloc: Global, pages: &mut Pages) -> u64 {
    write_fetches(rt, pages);
    let session = session_of(rt, alloc, pages);
    if pages.sheet.bytes == pages.replies {
        expect_number(rt, session.offered.saturating_add(session.lost), 128, 0);
    } else {
        // An offer was refused, so its job was not fetched.
        expect(rt, session.met == 1 && session.lost == 0);
    }
    session.met
}

// Asserts that a refused failure takes no id: the job stays held, and the end of the session offers it
// under the next id.
fn expect_failure(rt: &impl Abort, session: Session, pages: &mut Pages, standing: u64) {
    expect_number(rt, session.lost, 0, 0);
    let Some(reply) = pages.sheet.bytes.strip_prefix(pages.replies.as_slice()) else {
        // An offer was refused.
        expect(rt, session.met == 1);
        return;
    };
    let next_id = standing.saturating_add(1);
    expect(rt, session.last == Some((next_id, 0, 2)));
    if reply != REFUSED {
        pages.line.clear();
        push_line(rt, &mut pages.line, b"AGAIN ", next_id, b" 1100\n");
        expect_bytes(rt, reply, &pages.line, 0);
    }
}

// Runs a session in which a job is fetched, `standing` others are offered, and the job fails, which is
// the script's last line. Returns the number of refusals. The pages have the lines before that one.
fn refused_failure_among(rt: &impl Abort, alloc: Global, pages: &mut Pages, standing: u64) -> u64 {
    let len = pages.script.len();
    pages.push(rt, b"FAIL 0\n", b"");
    let session = session_of(rt, alloc, pages);
    expect_failure(rt, session, pages, standing);
    pages.script.truncate(len);
    session.met
}

// Runs sessions in which one job fails, while so many elements stand, and none after one that met a
// refusal: no other is to come. Returns the number of refusals.
fn refused_failures_among(
    rt: &impl Abort,
    alloc: Global,
    pages: &mut Pages,
    standing: Range<u64>,
) -> u64 {
    pages.begin(
        rt,
        b"AT 100\nOFFER 0 j\nPOLL\n",
        b"NOW 100\nOFFERED 0 100\nITEM 0 100 1 j\n",
    );
    for id in 1..=standing.start {
        pages.push_standing(rt, id);
    }
    for count in standing {
        let met = refused_failure_among(rt, alloc, pages, count);
        if met > 0 {
            return met;
        }
        pages.push_standing(rt, count.saturating_add(1));
    }
    0
}

fn refused_sessions(rt: &impl Abort, alloc: Global) -> u64 {
    let mut pages = blank_pages(rt, alloc);
    let offer = refused_offer(rt, alloc, &mut pages);
    let failures = refused_failures(rt, alloc, &mut pages);
    let endings = refused_endings(rt, alloc, &mut pages);
    offer.saturating_add(failures).saturating_add(endings)
}

fn expect_refusals(rt: &impl Abort, refusals: u64) {
    expect_same(rt, refusals, u64::from(REFUSALS));
}

#[test]
fn a_refused_allocation_refuses_one_request(rt: HostRuntime) {
    expect_refusals(&rt, refused_sessions(&rt, rt.alloc()));
}

fn expect_among(rt: &impl Abort, alloc: Global, standing: Range<u64>) {
    let mut pages = blank_pages(rt, alloc);
    expect_refusals(rt, refused_failures_among(rt, alloc, &mut pages, standing));
}

// The next five tests let a job fail while 0, 1, and so on up to 64 elements stand. They are five, since
// for each refusal a test runs from its beginning.

#[test]
fn a_failure_is_refused_among_up_to_12(rt: HostRuntime) {
    expect_among(&rt, rt.alloc(), 0..13);
}

#[test]
fn a_failure_is_refused_among_13_to_25(rt: HostRuntime) {
    expect_among(&rt, rt.alloc(), 13..26);
}

#[test]
fn a_failure_is_refused_among_26_to_38(rt: HostRuntime) {
    expect_among(&rt, rt.alloc(), 26..39);
}

#[test]
fn a_failure_is_refused_among_39_to_51(rt: HostRuntime) {
    expect_among(&rt, rt.alloc(), 39..52);
}

#[test]
fn a_failure_is_refused_among_52_to_64(rt: HostRuntime) {
    expect_among(&rt, rt.alloc(), 52..65);
}
