// Each allocation of a server, and of what is printed and written at its end, is refused in turn.

ghost use Rattle.std.specs.Prelude.{◌≤◌};

use crate::tests::devices::{
    Counts, DELIVERIES, Received, at_once, counts_of, expect, expect_bytes, expect_counts,
    expect_made, expect_number, hundred_calls, planned, served_so,
};
use rb_delayed::Payload;
use rb_ending::BrokerFault;
use rb_history::HistoryRoom;
use rb_kept::{Kept, Outcome, Step};
use rb_ledger::Books;
use rb_queue::{Ask, Draft, Reply};
use rb_serving::{ServeReport, end_server};
use rb_session::Delivery;
use rb_timer::ListTimer;
use std::alloc::{AllocError, Global};
use std::process::Abort;
use std::sync::Wait;
use std::sync::atomic::AtomicU64;
use std::thread::Threads;
use std::time;

// The number of refusals that the test meets. `dev/refuse_allocations` sets 1 and refuses each
// allocation of the test in turn.
const REFUSALS: u32 = 0;

// A number of bytes that no text of a run reaches.
const PAGE_BYTES: usize = 1024;

// Makes room for a text, and tries once more if memory is refused.
fn page(alloc: Global) -> Result<Vec<u8>, AllocError> {
    match Vec::with_capacity(alloc, PAGE_BYTES) {
        Ok(page) => Ok(page),
        Err(_) => Vec::with_capacity(alloc, PAGE_BYTES),
    }
}

// Takes the room for a history's text, and tries once more if memory is refused.
fn text_room(alloc: Global) -> Result<HistoryRoom, AllocError> {
    match HistoryRoom::new(alloc) {
        Ok(room) => Ok(room),
        Err(_) => HistoryRoom::new(alloc),
    }
}

// The lines that each visitor of a server sends.
const LINES: &[u8] = b"OFFER 0 a\nQUIT\n";

// The numbers of visitors that were sent id 0, that were sent id 1, that were sent a refusal, and
// that were sent nothing.
#[derive(Clone, Copy)]
struct Sent {
    first: u64,
    second: u64,
    refused: u64,
    nothing: u64,
}

const NOBODY: Sent = Sent {
    first: 0,
    second: 0,
    refused: 0,
    nothing: 0,
};

impl Sent {
    fn note(&mut self, text: &[u8]) {
        match text {
            b"OFFERED 0 7\nBYE\n" => self.first = self.first.saturating_add(1),
            b"OFFERED 1 7\nBYE\n" => self.second = self.second.saturating_add(1),
            b"ERR 7 memory\nBYE\n" => self.refused = self.refused.saturating_add(1),
            b"" => self.nothing = self.nothing.saturating_add(1),
            _ => {}
        }
    }

    fn offered(self) -> u64 {
        self.first.saturating_add(self.second)
    }

    // Returns whether each of `visitors` visitors was sent an id of its own.
    fn is_whole(self, visitors: u64) -> bool {
        self.first == 1 && self.second == visitors.saturating_sub(1) && self.offered() == visitors
    }
}

// How a server ended, and what its visitors were sent.
#[derive(Drop)]
struct Served {
    outcome: Result<ServeReport<ListTimer>, BrokerFault>,
    sent: Sent,
}

// The number of workers and the number of visitors, each 1 or 2. There are never more workers than
// visitors.
#[derive(Clone, Copy)]
struct Crowd {
    workers: u64,
    visitors: u64,
    ghost some: { 1 ≤ workers },
    ghost few: { workers ≤ 2 },
}

const ALONE: Crowd = Crowd {
    workers: 1,
    visitors: 1,
};

// One worker serves the second visitor, whatever became of the first.
const IN_TURN: Crowd = Crowd {
    workers: 1,
    visitors: 2,
};

const AT_ONCE: Crowd = Crowd {
    workers: 2,
    visitors: 2,
};

// Serves the visitors of `crowd`. Returns how the server ended and what they were sent.
fn served_lines<R: Threads + Wait + time::Clock + Abort + Sync>(
    rt: &R,
    alloc: Global,
    delivery: Delivery,
    crowd: Crowd,
) -> Served {
    let first = expect_made(rt, page(alloc));
    let second = expect_made(rt, page(alloc));
    served_into(rt, alloc, delivery, crowd, first, second)
}

fn served_into<R: Threads + Wait + time::Clock + Abort + Sync>(
    rt: &R,
    alloc: Global,
    delivery: Delivery,
    crowd: Crowd,
    first: Vec<u8>,
    second: Vec<u8>,
) -> Served {
    let turns = AtomicU64::new(0);
    let (first, second) = (Received::into(first), Received::into(second));
    let plans = [
        planned(at_once(LINES), &first, &turns),
        planned(at_once(LINES), &second, &turns),
    ];
    let visitors = if crowd.visitors == 1 { 1 } else { 2 };
    let options = hundred_calls(rt, crowd.workers);
    let outcome = served_so(rt, alloc, delivery, &plans[..visitors], &options);
    let mut sent = NOBODY;
    sent.note(first.lock(rt).text.as_slice());
    if visitors == 2 {
        sent.note(second.lock(rt).text.as_slice());
    }
    Served { outcome, sent }
}

// Asserts that a server that ended well has served each visitor, and has the calls of those that were
// sent an id.
fn expect_report(rt: &impl Abort, counts: Counts, events: usize, sent: Sent, visitors: u64) {
    expect_counts(rt, counts, visitors, 0, 0);
    let (audit, offered) = (counts.audit, sent.offered());
    expect_number(rt, offered.saturating_add(sent.refused), visitors);
    expect(rt, sent.first <= 1 && sent.second <= sent.first);
    expect_number(rt, audit.calls, offered);
    expect_number(rt, audit.offered, offered);
    expect_number(rt, audit.left, offered);
    expect(rt, u64::try_from(events) == Ok(offered));
}

// Asserts what visitors were sent by a server that ended with a fault: nothing, whether memory was
// missing or a worker could not be started.
fn expect_fault(rt: &impl Abort, fault: BrokerFault, sent: Sent, visitors: u64) {
    expect(
        rt,
        fault == BrokerFault::Memory || fault == BrokerFault::Worker,
    );
    expect_number(rt, sent.nothing, visitors);
}

fn offered_id(rt: &impl Abort, step: &Step) -> u64 {
    match step {
        Ok(Outcome::Done(Reply::Offered(element))) => element.id,
        _ => rt.abort(),
    }
}

// Asserts that one more offer gets this id, so that no refused offer has used one up.
fn expect_next_id(rt: &impl Abort, kept: &mut Kept<ListTimer>, wanted: u64) {
    let payload = Payload::new(b"b").ok().expect(rt, "a payload");
    let (_, mut tally) = Books::new();
    let step = kept.act(&mut tally, 0, 7, Ask::Offer(Draft::first(7, payload)));
    expect_number(rt, offered_id(rt, &step), wanted);
}

// Returns the report of a server that met no refusal, or `None` if it met one. Asserts what its
// visitors were sent in either case, and the next id after a refusal.
fn whole_report(rt: &impl Abort, served: Served, visitors: u64) -> Option<ServeReport<ListTimer>> {
    let Served { outcome, sent } = served;
    match outcome {
        Ok(mut report) => {
            let events = report.kept.history().len();
            expect_report(rt, counts_of(&report), events, sent, visitors);
            if sent.is_whole(visitors) {
                Some(report)
            } else {
                expect_next_id(rt, &mut report.kept, sent.offered());
                None
            }
        }
        Err(fault) => {
            expect_fault(rt, fault, sent, visitors);
            None
        }
    }
}

// Returns that report, and the number of refusals that were met. Runs the server once more if one
// was met.
fn report_at_last<R: Threads + Wait + time::Clock + Abort + Sync>(
    rt: &R,
    alloc: Global,
    delivery: Delivery,
    crowd: Crowd,
) -> (ServeReport<ListTimer>, u32) {
    let visitors = crowd.visitors;
    if let Some(report) = whole_report(rt, served_lines(rt, alloc, delivery, crowd), visitors) {
        return (report, 0);
    }
    let report = whole_report(rt, served_lines(rt, alloc, delivery, crowd), visitors);
    (report.expect(rt, "a report the second time"), 1)
}

const PRINTED: &[u8] =
    b"sessions 1 faults 0 lost 0\n{\"calls\":1,\"cleared\":0,\"given\":0,\"left\":1,\"offered\":1,\
        \"opening\":0,\"removed\":0}\n";

const SERVED_HISTORY: &[u8] = b"history 3\nopen 0 0 0\n1 7 7 offer 0 7 0 7 1 a\nend 1\n";

// What the end of a server leaves.
#[derive(Drop)]
struct End {
    outcome: Result<(), BrokerFault>,
    printed: Vec<u8>,
    history: Option<Vec<u8>>,
}

fn ended(rt: &impl Abort, alloc: Global, report: &ServeReport<ListTimer>) -> End {
    let printed = expect_made(rt, page(alloc));
    let history = expect_made(rt, page(alloc));
    let text = expect_made(rt, text_room(alloc));
    ended_into(alloc, text, report, printed, Some(history))
}

fn ended_into(
    alloc: Global,
    text: HistoryRoom,
    report: &ServeReport<ListTimer>,
    mut printed: Vec<u8>,
    mut history: Option<Vec<u8>>,
) -> End {
    let outcome = end_server(alloc, text, report, &mut printed, history.as_mut()).result();
    End {
        outcome,
        printed,
        history,
    }
}

// Returns whether the end met no refusal. If it met one, asserts that nothing was printed. The
// history is whole in either case.
fn is_whole(rt: &impl Abort, end: &End) -> bool {
    let printed = end.printed.as_slice();
    let history = end.history.as_ref().expect(rt, "a history").as_slice();
    expect_bytes(rt, history, SERVED_HISTORY);
    if end.outcome.is_ok() {
        expect_bytes(rt, printed, PRINTED);
        return true;
    }
    expect(rt, end.outcome == Err(BrokerFault::Memory));
    expect_bytes(rt, printed, b"");
    false
}

// Returns the number of refusals that the end of a server met. If it met one, ends the server once
// more and asserts that nothing is missing.
fn refused_ends(rt: &impl Abort, alloc: Global, report: &ServeReport<ListTimer>) -> u32 {
    if is_whole(rt, &ended(rt, alloc, report)) {
        return 0;
    }
    expect(rt, is_whole(rt, &ended(rt, alloc, report)));
    1
}

// Returns the number of refusals that servers of each crowd meet, and the end of one of them.
fn refused_servers<R: Threads + Wait + time::Clock + Abort + Sync>(
    rt: &R,
    alloc: Global,
    delivery: Delivery,
) -> u32 {
    let (report, one) = report_at_last(rt, alloc, delivery, ALONE);
    let ends = refused_ends(rt, alloc, &report);
    let (_, in_turn) = report_at_last(rt, alloc, delivery, IN_TURN);
    let (_, at_once) = report_at_last(rt, alloc, delivery, AT_ONCE);
    one.saturating_add(ends)
        .saturating_add(in_turn)
        .saturating_add(at_once)
}

fn expect_refusals(rt: &impl Abort, refusals: u32) {
    assert_eq!(rt; refusals, REFUSALS);
}

#[test]
fn a_refused_allocation_is_answered(rt: HostRuntime) {
    let mut refusals: u32 = 0;
    for delivery in DELIVERIES {
        refusals = refusals.saturating_add(refused_servers(&rt, rt.alloc(), delivery));
    }
    expect_refusals(&rt, refusals);
}
