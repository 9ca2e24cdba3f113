// When a server's recorder begins.

ghost use Rattle.std.specs.Prelude.{false};

use crate::tests::devices::{
    Received, at_once, expect, expect_number, expect_text, hundred_calls, planned, recorded,
};
use rb_ending::{BrokerFault, Recorder};
use rb_protocol::WriteFault;
use std::alloc::Global;
use std::process::Abort;
use std::sync::Wait;
use std::sync::atomic::{AtomicU64, Ordering};
use std::test::Fail;
use std::thread::Threads;
use std::time;

// Counts how often it begins, and how many visitors had been asked for then.
#[derive(Drop)]
struct Counting<'a> {
    taken: &'a AtomicU64,
    begins: u64,
    asked_for: u64,
    fails: bool,
}

impl<'a> Recorder for Counting<'a> {
    type Begun = ();

    ghost has_begun = { λ old new. Unit {0} };

    ghost has_failed = { λ old new. Unit {0} };

    ghost keeps = { λ recorder. false };

    fn begin(&mut self) -> Result<(), WriteFault> {
        self.begins = self.begins.saturating_add(1);
        self.asked_for = self.taken.load(Ordering::SeqCst);
        if self.fails { Err(WriteFault) } else { Ok(()) }
    }

    fn records(&self) -> bool {
        false
    }
}

// Serves a visitor by four workers, whose recorder may fail. Asserts that it began once, before any
// visitor was asked for, and what the visitor was sent.
fn expect_begun<R: Threads + Wait + time::Clock + Abort + Sync>(
    rt: &R,
    alloc: Global,
    fails: bool,
    fault: Option<BrokerFault>,
    text: &[u8],
) {
    let taken = AtomicU64::new(0);
    let counting = Counting {
        taken: &taken,
        begins: 0,
        asked_for: 0,
        fails,
    };
    let received = Received::none(alloc);
    let turns = AtomicU64::new(0);
    let plans = [planned(at_once(b"SIZE\n"), &received, &turns)];
    let options = hundred_calls(rt, 4);
    let (recorder, served) = recorded(rt, alloc, &taken, &plans, &options, counting);
    expect(rt, served.err() == fault);
    expect_number(rt, recorder.begins, 1);
    expect_number(rt, recorder.asked_for, 0);
    expect_text(rt, &received, text);
}

#[test]
fn a_recorder_begins_before_anybody_is_let_in(rt: HostRuntime) -> Result<(), Fail> {
    expect_begun(&rt, rt.alloc(), false, None, b"SIZE 0\n");
    Ok(())
}

#[test]
fn nobody_is_let_in_if_a_recorder_cannot_begin(rt: HostRuntime) -> Result<(), Fail> {
    let fault = Some(BrokerFault::WriteHistory);
    expect_begun(&rt, rt.alloc(), true, fault, b"");
    Ok(())
}
