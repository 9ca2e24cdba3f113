ghost use Rattle.rb_retry.specs.KeptLaws.{kept_makes, kept_gives_once, kept_refuses, kept_stays};
ghost use Rattle.rb_retry.specs.KeptLaws.{kept_tries_once, kept_keeps_name, kept_sets_no_name};
ghost use Rattle.rb_retry.specs.KeptSteps.{KeptState, KeptSteps, NeverMisses, SetsKept, made_at};
ghost use Rattle.std.specs.Prelude.{◌≡◌, ℕ};

use crate::tests::devices::{NEVER, Sheet, expect_bytes, expect_end, expect_number, with_kept};
use rb_binary::BinaryTimer;
use rb_delayed::Element;
use rb_kept::{CallFault, Kept};
use rb_ledger::Tally;
use rb_queue::{Ask, Draft, Reply};
use rb_retry::{Desk, DeskFault, KeptDesk, Policy};
use rb_session::{Ended, SessionFault, run_session};
use rb_timer::Timer;
use std::alloc::Global;
use std::cell::Cell;
use std::process::Abort;

/// A kept desk that counts how often its clock is read, and notes what it hears.
#[derive(Drop)]
pub struct CountingDesk<'a, T: Timer> {
    desk: KeptDesk<'a, T>,
    readings: Cell<u64>,
    // What was heard, one digit each behind a 1: 1 if there is more to serve, and 2 more if jobs are held.
    heard: Cell<u64>,
}

impl<'a, T: Timer> Desk for CountingDesk<'a, T> {
    ghost State = { KeptState };

    ghost state = { λ counting. ⟦<KeptDesk<'a, T> as Desk>⟧.state counting.desk };

    ghost Name = { ℕ };

    ghost name = { λ state. state.name };

    ghost mine = { made_at };

    ghost gives = { λ state moment. moment ≡ state.moment };

    ghost Sets = { SetsKept };

    ghost Steps = { KeptSteps };

    ghost Tries = { KeptSteps };

    ghost Misses = { NeverMisses };

    type Witness = Kept<T>;

    ghost shows = { λ state kept. kept ≡ state.log };

    fn witness(&self) -> &Kept<T> {
        self.desk.witness()
    }

    fn now(&self) -> u64 {
        self.readings.set(self.readings.get().saturating_add(1));
        self.desk.now()
    }

    fn hear(&self, holds: bool, has_more: bool) {
        let digit = 2 * u64::from(holds) + u64::from(has_more);
        self.heard
            .set(self.heard.get().saturating_mul(10).saturating_add(digit));
    }

    fn set(&mut self, moment: u64) -> Option<u64> {
        self.desk.set(moment)
    }

    fn call(&mut self, asked: u64, ask: Ask) -> Result<Reply, DeskFault> {
        self.desk.call(asked, ask)
    }

    fn try_call(&mut self, asked: u64, ask: Ask) -> Option<Result<Reply, DeskFault>> {
        self.desk.try_call(asked, ask)
    }

    fn offer(&mut self, asked: u64, draft: Draft) -> Result<Element, CallFault> {
        self.desk.offer(asked, draft)
    }

    ghost makes = { kept_makes };

    ghost gives_once = { kept_gives_once };

    ghost refuses = { kept_refuses };

    ghost stays = { kept_stays };

    ghost tries_once = { kept_tries_once };

    ghost tries_again = { λ old mid new handed ask answer missed. absurd missed };

    ghost misses = { λ old new missed. absurd missed };

    ghost keeps_name = { kept_keeps_name };

    ghost misses_no_name = { λ old new missed. absurd missed };

    ghost sets_no_name = { kept_sets_no_name };
}

// The outcome of a session, the number of times that it read the desk's clock, and what it told the desk.
#[derive(Drop)]
struct Outcome {
    ended: Result<Ended, SessionFault>,
    text: Vec<u8>,
    readings: u64,
    heard: u64,
}

fn ran(rt: &impl Abort, alloc: Global, script: &[u8]) -> Outcome {
    let policy = Policy::fixed(1_000, 3).expect(rt, "a policy");
    with_kept(rt, alloc, 100, |kept, tally| {
        ran_over(alloc, kept, tally, &policy, script)
    })
}

fn ran_over(
    alloc: Global,
    kept: &mut Kept<BinaryTimer>,
    tally: &mut Tally,
    policy: &Policy,
    script: &[u8],
) -> Outcome {
    let (mut reader, mut writer) = (script, Sheet::new(alloc, NEVER));
    let mut desk = CountingDesk {
        desk: KeptDesk::new(kept, tally),
        readings: Cell::new(0),
        heard: Cell::new(1),
    };
    let ended = run_session(alloc, &mut reader, &mut writer, &mut desk, policy);
    Outcome {
        ended,
        text: writer.bytes,
        readings: desk.readings.get(),
        heard: desk.heard.get(),
    }
}

fn expect_readings(
    rt: &impl Abort,
    alloc: Global,
    (script, replies): (&[u8], &[u8]),
    ended: Ended,
    readings: u64,
) {
    let outcome = ran(rt, alloc, script);
    expect_end(rt, outcome.ended, Ok(ended), 0);
    expect_bytes(rt, &outcome.text, replies, 0);
    expect_number(rt, outcome.readings, readings, 0);
    drop(outcome);
}

// A script with each kind of request.
const SCRIPT: &[u8] =
    b"AT 100\nOFFER 0 a\nOFFERAT 99 b\nOFFER 9 c\nPEEK\nPOLL\nPOLLFOR 5\nPOLL\nTAKE\nDONE 1\n\
        FAIL 0\nFAIL 7\nREMOVE 2\nSIZE\nDRAIN 3\nCLEAR\nQUIT\n";

const REPLIES: &[u8] =
    b"NOW 100\nOFFERED 0 100\nOFFERED 1 99\nOFFERED 2 109\nHEAD 1 99 1 b\nITEM 1 99 1 b\n\
        ITEM 0 100 1 a\nNONE\nSTOPPED\nDONE 1\nAGAIN 3 1100\nERR 5 not-held\nREMOVED yes\nSIZE 1\n\
        DRAINED 0\nCLEARED\nBYE\n";

#[test]
fn a_request_reads_the_clock_once(rt: HostRuntime) {
    let ended = Ended::Quit { lost: 0 };
    expect_readings(&rt, rt.alloc(), (SCRIPT, REPLIES), ended, 17);
}

#[test]
fn what_is_no_request_reads_no_clock(rt: HostRuntime) {
    let script = b"poll\nDONE 01\nOFFER 1 \xff\nSIZE".as_slice();
    let replies = b"ERR 1 syntax\nERR 2 number\nERR 4 payload\nERR 8 line\n".as_slice();
    let ended = Ended::EndOfInput { lost: 0 };
    expect_readings(&rt, rt.alloc(), (script, replies), ended, 0);
}

// At the end of a session the clock is read once for each job that is still held.
#[test]
fn a_job_that_is_held_at_the_end_reads_the_clock_once(rt: HostRuntime) {
    let script = b"OFFERAT 0 a\nOFFERAT 1 b\nAT 1\nDRAIN 9\n".as_slice();
    let replies =
        b"OFFERED 0 0\nOFFERED 1 1\nNOW 1\nDRAINED 2\nITEM 0 0 1 a\nITEM 1 1 1 b\n".as_slice();
    let ended = Ended::EndOfInput { lost: 0 };
    expect_readings(&rt, rt.alloc(), (script, replies), ended, 6);
}

fn expect_heard(rt: &impl Abort, alloc: Global, script: &[u8], heard: u64) {
    expect_number(rt, ran(rt, alloc, script).heard, heard, 0);
}

// Once before each read, and once before each request: the job is held from the second request to the third, and
// behind each of them more was read.
#[test]
fn a_desk_hears_how_its_session_stands(rt: HostRuntime) {
    expect_heard(&rt, rt.alloc(), b"OFFERAT 0 a\nPOLL\nDONE 0\nSI", 101_130);
    expect_heard(&rt, rt.alloc(), b"OFFERAT 0 a\nPOLL\n", 10_102);
}
