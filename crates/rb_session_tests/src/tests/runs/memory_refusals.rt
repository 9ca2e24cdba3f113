// Each allocation of a script's run, and of a replay, an audit line, an opening and a read of a
// file, is refused in turn.

use crate::tests::devices::{expect, expect_bytes, expect_made, expect_same};
use crate::tests::runs::devices::{Sink, Source, WAYS, Way, recorded};
use rb_ending::{BrokerFault, audit_line};
use rb_options::ReplayOptions;
use rb_queue::{Audit, Opening};
use rb_retry::Policy;
use rb_runs::{opening_in, read_all, run_replay};
use rb_session::Ended;
use std::alloc::Global;
use std::process::Abort;

// The number of refusals that the test meets. `dev/refuse_allocations` sets 1 and refuses each
// allocation of the test in turn.
const REFUSALS: u32 = 0;

// A number of bytes that no text of a run reaches.
const PAGE_BYTES: usize = 1024;

// Two elements are offered and drained. The job of the first fails by a request, and the job of the
// second at the end of the session.
const SCRIPT: &[u8] = b"OFFER 1 a\nOFFER 2 b\nAT 5\nDRAIN 9\nFAIL 0\nQUIT\n";

// The replies of a run of the script, its number of lost jobs, and its history.
struct Run<'a> {
    replies: &'a [u8],
    lost: u64,
    history: &'a [u8],
}

const WHOLE_REPLIES: &[u8] =
    b"OFFERED 0 1\nOFFERED 1 2\nNOW 5\nDRAINED 2\nITEM 0 1 1 a\nITEM 1 2 1 b\nAGAIN 2 1005\nBYE\n";

const WHOLE_HISTORY: &[u8] =
    b"history 3\nopen 0 0 0\n0 0 0 offer 0 1 0 1 1 a\n0 0 0 offer 1 2 1 2 1 b\n0 5 5 drain 9 0 1\n\
        0 5 5 offer 2 1005 0 1 2 a\n0 5 5 offer 3 1005 1 2 2 b\nend 5\n";

const WHOLE_AUDIT: &str =
    "{\"calls\":5,\"cleared\":0,\"given\":2,\"left\":2,\"offered\":4,\"opening\":0,\"removed\":0}\n";

const WHOLE: Run<'static> = Run {
    replies: WHOLE_REPLIES,
    lost: 0,
    history: WHOLE_HISTORY,
};

// The runs in which memory is refused to one request (the first offer, the second offer, the drain
// or the failure), and the run in which it is refused to the failure at the end.
const REFUSED: [Run<'static>; 5] = [
    Run {
        replies: b"ERR 7 memory\nOFFERED 0 2\nNOW 5\nDRAINED 1\nITEM 0 2 1 b\nAGAIN 1 1005\nBYE\n",
        lost: 0,
        history: b"history 3\nopen 0 0 0\n0 0 0 offer 0 2 0 2 1 b\n0 5 5 drain 9 0\n\
            0 5 5 offer 1 1005 0 2 2 b\nend 3\n",
    },
    Run {
        replies: b"OFFERED 0 1\nERR 7 memory\nNOW 5\nDRAINED 1\nITEM 0 1 1 a\nAGAIN 1 1005\nBYE\n",
        lost: 0,
        history: b"history 3\nopen 0 0 0\n0 0 0 offer 0 1 0 1 1 a\n0 5 5 drain 9 0\n\
            0 5 5 offer 1 1005 0 1 2 a\nend 3\n",
    },
    Run {
        replies: b"OFFERED 0 1\nOFFERED 1 2\nNOW 5\nERR 7 memory\nERR 5 not-held\nBYE\n",
        lost: 0,
        history: b"history 3\nopen 0 0 0\n0 0 0 offer 0 1 0 1 1 a\n0 0 0 offer 1 2 1 2 1 b\nend 2\n",
    },
    Run {
        replies: b"OFFERED 0 1\nOFFERED 1 2\nNOW 5\nDRAINED 2\nITEM 0 1 1 a\nITEM 1 2 1 b\nERR 7 memory\nBYE\n",
        lost: 0,
        history: WHOLE_HISTORY,
    },
    Run {
        replies: WHOLE_REPLIES,
        lost: 1,
        history: b"history 3\nopen 0 0 0\n0 0 0 offer 0 1 0 1 1 a\n0 0 0 offer 1 2 1 2 1 b\n\
            0 5 5 drain 9 0 1\n0 5 5 offer 2 1005 0 1 2 a\nend 4\n",
    },
];

// Makes room for a text, and tries once more if memory is refused.
fn page(rt: &impl Abort, alloc: Global) -> Vec<u8> {
    match Vec::with_capacity(alloc, PAGE_BYTES) {
        Ok(page) => page,
        Err(_) => expect_made(rt, Vec::with_capacity(alloc, PAGE_BYTES)),
    }
}

// How a run of the script ended, the number of the script's bytes that were not read, and what the
// devices received.
#[derive(Drop)]
struct Outcome {
    ended: Result<Ended, BrokerFault>,
    unread: usize,
    replies: Vec<u8>,
    history: Vec<u8>,
}

impl Outcome {
    fn is_as(&self, run: &Run<'_>) -> bool {
        self.ended == Ok(Ended::Quit { lost: run.lost })
            && self.replies.as_slice() == run.replies
            && self.history.as_slice() == run.history
    }

    // Asserts that the run met one refusal. A run that came to its end is one of `REFUSED`. Any
    // other ended with `Memory`: it could not begin and did nothing.
    fn expect_refused(&self, rt: &impl Abort) {
        if self.ended.is_ok() {
            expect(rt, REFUSED.iter().any(|run| self.is_as(run)));
            return;
        }
        expect(rt, self.ended == Err(BrokerFault::Memory));
        expect(rt, self.unread == SCRIPT.len());
        expect_bytes(rt, &self.replies, b"", 0);
        expect_bytes(rt, &self.history, b"", 0);
    }

    // Returns whether the run is whole. If it is not, asserts that it met a refusal.
    fn is_whole(&self, rt: &impl Abort) -> bool {
        if self.is_as(&WHOLE) {
            return true;
        }
        self.expect_refused(rt);
        false
    }
}

fn run_once(rt: &impl Abort, alloc: Global, way: Way) -> Outcome {
    let (sink, mut history) = (Sink::of(page(rt, alloc)), Some(Sink::of(page(rt, alloc))));
    let source = Source::of(SCRIPT, usize::MAX);
    let ran = recorded(rt, alloc, way, 100, source, sink, &mut history);
    Outcome {
        ended: ran.ended,
        unread: ran.unread,
        replies: ran.bytes,
        history: history.expect(rt, "a history").bytes,
    }
}

fn runs(rt: &impl Abort, alloc: Global, way: Way) -> bool {
    run_once(rt, alloc, way).is_whole(rt)
}

// Returns whether the run met a refusal. If it did, runs the script once more and asserts that the
// second run is whole.
fn refused_run(rt: &impl Abort, alloc: Global, way: Way) -> bool {
    !runs(rt, alloc, way) && again(rt, runs(rt, alloc, way))
}

// Asserts that a call that is not whole ended with `Memory`. Returns false: the call is not whole.
fn is_refused(rt: &impl Abort, fault: BrokerFault) -> bool {
    expect(rt, fault == BrokerFault::Memory);
    false
}

// Each of the next four functions makes a call. It returns true if the call is whole, and false if
// the call met a refusal.

fn replays(rt: &impl Abort, alloc: Global) -> bool {
    let chains = Policy::fixed(1_000, 3);
    expect(rt, chains.is_some());
    match run_replay(alloc, &ReplayOptions { chains }, WHOLE_HISTORY) {
        Ok((line, status)) => {
            expect(rt, (line.as_str(), status) == (WHOLE_AUDIT, 0));
            true
        }
        Err(fault) => is_refused(rt, fault),
    }
}

fn tells(rt: &impl Abort, alloc: Global) -> bool {
    let audit = Audit {
        calls: 5,
        offered: 4,
        given: 2,
        removed: 0,
        cleared: 0,
        left: 2,
        opening: 0,
    };
    match audit_line(alloc, &audit) {
        Ok(line) => {
            expect(rt, line.as_str() == WHOLE_AUDIT);
            true
        }
        Err(fault) => is_refused(rt, fault),
    }
}

fn opens(rt: &impl Abort, alloc: Global) -> bool {
    match opening_in(alloc, WHOLE_HISTORY) {
        Ok(opening) => {
            expect(rt, (opening.next_id, opening.last_at) == (4, 5));
            expect(rt, opening.elements.as_slice().len() == 2);
            true
        }
        Err(fault) => is_refused(rt, fault),
    }
}

fn reads(rt: &impl Abort, alloc: Global) -> bool {
    let mut reader = Source::of(WHOLE_HISTORY, usize::MAX);
    match read_all(alloc, &mut reader) {
        Ok(text) => {
            expect_bytes(rt, &text, WHOLE_HISTORY, 0);
            true
        }
        Err(fault) => is_refused(rt, fault),
    }
}

// Asserts that the second call, which is made after a refusal, is whole. Returns true.
fn again(rt: &impl Abort, is_whole: bool) -> bool {
    expect(rt, is_whole);
    true
}

fn refused_replay(rt: &impl Abort, alloc: Global) -> bool {
    !replays(rt, alloc) && again(rt, replays(rt, alloc))
}

fn refused_audit(rt: &impl Abort, alloc: Global) -> bool {
    !tells(rt, alloc) && again(rt, tells(rt, alloc))
}

fn refused_opening(rt: &impl Abort, alloc: Global) -> bool {
    !opens(rt, alloc) && again(rt, opens(rt, alloc))
}

fn refused_reading(rt: &impl Abort, alloc: Global) -> bool {
    !reads(rt, alloc) && again(rt, reads(rt, alloc))
}

fn refused_runs(rt: &impl Abort, alloc: Global) -> u32 {
    let mut refusals = 0_u32;
    for way in WAYS {
        refusals = refusals.saturating_add(u32::from(refused_run(rt, alloc, way)));
    }
    refusals
}

fn refused_calls(rt: &impl Abort, alloc: Global) -> u32 {
    let mut refusals = 0_u32;
    for refused in [
        refused_replay(rt, alloc),
        refused_audit(rt, alloc),
        refused_opening(rt, alloc),
        refused_reading(rt, alloc),
    ] {
        refusals = refusals.saturating_add(u32::from(refused));
    }
    refusals
}

#[test]
fn a_refused_allocation_is_answered(rt: HostRuntime) {
    let refusals = refused_runs(&rt, rt.alloc()).saturating_add(refused_calls(&rt, rt.alloc()));
    expect_same(&rt, refusals, REFUSALS);
}
