use crate::tests::devices::{
    Dialogue, NEVER, Sheet, expect_bytes, expect_end, push, push_line, run_by, with_kept,
};
use rb_binary::BinaryTimer;
use rb_kept::Kept;
use rb_ledger::Tally;
use rb_retry::Policy;
use rb_session::{Ended, SessionFault};
use std::alloc::Global;
use std::process::Abort;

// Two jobs that expire at 150 and at 160 are fetched at moment 300. The first fails by its line,
// the second at the end of the session. `REMOVE 2` takes out the first job's next attempt.
const SCRIPT: &[u8] = b"AT 300\nOFFERAT 150 a\nPOLL\nOFFERAT 160 b\nPOLL\nFAIL 0\nREMOVE 2\n";

const FETCHED: &[u8] = b"NOW 300\nOFFERED 0 150\nITEM 0 150 1 a\nOFFERED 1 160\nITEM 1 160 1 b\n";

// The script of a second session, which shows what the first one left.
const AFTER: &[u8] = b"PEEK\nSIZE\n";

// The outcome of two sessions over one queue, one after the other.
#[derive(Drop)]
struct Outcome {
    ended: Result<Ended, SessionFault>,
    after: Result<Ended, SessionFault>,
    text: Vec<u8>,
}

fn ran_twice(rt: &impl Abort, alloc: Global, script: &[u8], policy: &Policy) -> Outcome {
    with_kept(rt, alloc, 3_000, |kept, tally| {
        ran_both(alloc, kept, tally, script, policy)
    })
}

fn ran_both(
    alloc: Global,
    kept: &mut Kept<BinaryTimer>,
    tally: &mut Tally,
    script: &[u8],
    policy: &Policy,
) -> Outcome {
    let mut writer = Sheet::new(alloc, NEVER);
    let (mut first, mut second) = (script, AFTER);
    let ended = run_by(alloc, kept, tally, &mut first, &mut writer, policy);
    let after = run_by(alloc, kept, tally, &mut second, &mut writer, policy);
    Outcome {
        ended,
        after,
        text: writer.bytes,
    }
}

// Asserts that both sessions reach the end of their input, and that the text is `replies` followed
// by `wanted`.
fn expect_outcome(rt: &impl Abort, outcome: Outcome, replies: &[u8], wanted: &[u8], at: usize) {
    expect_end(rt, outcome.ended, Ok(Ended::EndOfInput { lost: 0 }), at);
    expect_end(rt, outcome.after, Ok(Ended::EndOfInput { lost: 0 }), at);
    let text = outcome.text.as_slice();
    expect_bytes(rt, text.get(..replies.len()).unwrap_or(text), replies, at);
    expect_bytes(rt, text.get(replies.len()..).unwrap_or(text), wanted, at);
    drop(outcome);
}

fn expect_failures(
    rt: &impl Abort,
    alloc: Global,
    policy: Option<Policy>,
    wanted: &[u8],
    at: usize,
) {
    let policy = policy.expect(rt, "a policy");
    let outcome = ran_twice(rt, alloc, SCRIPT, &policy);
    expect_outcome(rt, outcome, FETCHED, wanted, at);
}

// A delay counts from the failure, and a rate from the first expiry. Neither leads past 2^64 - 1.
#[test]
fn what_fails_follows_the_policy(rt: HostRuntime) {
    for (at, (policy, wanted)) in [
        (
            Policy::fixed(0, 1_000),
            b"AGAIN 2 300\nREMOVED yes\nHEAD 3 300 2 b\nSIZE 1\n".as_slice(),
        ),
        (
            Policy::fixed(7, 1_000),
            b"AGAIN 2 307\nREMOVED yes\nHEAD 3 307 2 b\nSIZE 1\n".as_slice(),
        ),
        (
            Policy::fixed(u64::MAX, 1_000),
            b"AGAIN 2 18446744073709551615\nREMOVED yes\nHEAD 3 18446744073709551615 2 b\nSIZE 1\n".as_slice(),
        ),
        (
            Policy::fixed_rate(0, 1_000),
            b"AGAIN 2 150\nREMOVED yes\nHEAD 3 160 2 b\nSIZE 1\n".as_slice(),
        ),
        (
            Policy::fixed_rate(7, 1_000),
            b"AGAIN 2 157\nREMOVED yes\nHEAD 3 167 2 b\nSIZE 1\n".as_slice(),
        ),
        (
            Policy::fixed_rate(u64::MAX, 1_000),
            b"AGAIN 2 18446744073709551615\nREMOVED yes\nHEAD 3 18446744073709551615 2 b\nSIZE 1\n".as_slice(),
        ),
    ]
    .into_iter()
    .enumerate()
    {
        expect_failures(&rt, rt.alloc(), policy, wanted, at);
    }
}

#[test]
fn the_first_attempt_may_be_the_last(rt: HostRuntime) {
    for (at, policy) in [
        Policy::fixed(0, 1),
        Policy::fixed(7, 1),
        Policy::fixed(u64::MAX, 1),
        Policy::fixed_rate(0, 1),
        Policy::fixed_rate(7, 1),
        Policy::fixed_rate(u64::MAX, 1),
    ]
    .into_iter()
    .enumerate()
    {
        let wanted = b"DEAD 0\nREMOVED no\nNONE\nSIZE 0\n";
        expect_failures(&rt, rt.alloc(), policy, wanted, at);
    }
}

// A job that fails at 2^64 - 1, the greatest moment. Its first attempt expires at 5. The attempt
// after k failures expires k times `step` after `start`, or at the greatest moment if that is
// earlier.
#[derive(Clone, Copy)]
struct Chain {
    start: u64,
    step: u64,
}

impl Chain {
    fn expiry(&self, failures: u64) -> u64 {
        if failures == 0 {
            return 5;
        }
        self.start
            .saturating_add(self.step.saturating_mul(failures))
    }

    // Appends the line of the attempt that follows `failures` failures. The attempt's id is that
    // number, because each failure gives the next id.
    fn push_attempt(&self, rt: &impl Abort, replies: &mut Vec<u8>, word: &[u8], failures: u64) {
        push_line(rt, replies, word, failures, b" ");
        push_line(rt, replies, b"", self.expiry(failures), b" ");
        push_line(rt, replies, b"", failures.saturating_add(1), b" j\n");
    }

    // Appends the fetch and the failure of the attempt that follows `failures` failures.
    fn push_failure(&self, rt: &impl Abort, dialogue: &mut Dialogue, failures: u64) {
        push_line(rt, &mut dialogue.script, b"POLL\nFAIL ", failures, b"\n");
        self.push_attempt(rt, &mut dialogue.replies, b"ITEM ", failures);
        let next = failures.saturating_add(1);
        push_line(rt, &mut dialogue.replies, b"AGAIN ", next, b" ");
        push_line(rt, &mut dialogue.replies, b"", self.expiry(next), b"\n");
    }

    // Appends the offer of a job that fails `failures` times and is then fetched once more.
    fn push_failures(&self, rt: &impl Abort, dialogue: &mut Dialogue, failures: u64) {
        dialogue.push(
            rt,
            b"AT 18446744073709551615\nOFFERAT 5 j\n",
            b"NOW 18446744073709551615\nOFFERED 0 5\n",
        );
        for failure in 0..failures {
            self.push_failure(rt, dialogue, failure);
        }
        push(rt, &mut dialogue.script, b"POLL\n");
        self.push_attempt(rt, &mut dialogue.replies, b"ITEM ", failures);
    }
}

// Asserts that a 1,000th attempt is offered if the 999th is held at the end.
fn expect_one_more(rt: &impl Abort, alloc: Global, policy: &Policy, chain: Chain, at: usize) {
    let mut dialogue = Dialogue::new(alloc);
    chain.push_failures(rt, &mut dialogue, 998);
    let outcome = ran_twice(rt, alloc, &dialogue.script, policy);
    let mut left = Vec::new(alloc);
    chain.push_attempt(rt, &mut left, b"HEAD ", 999);
    push(rt, &mut left, b"SIZE 1\n");
    expect_outcome(rt, outcome, &dialogue.replies, &left, at);
    drop(dialogue);
}

// Asserts that nothing follows the 1,000th attempt, which is held at the end or fails by its line.
// `last` is the rest of the script, and what both sessions reply from there on.
fn expect_no_more(
    rt: &impl Abort,
    alloc: Global,
    policy: &Policy,
    chain: Chain,
    last: (&[u8], &[u8]),
    at: usize,
) {
    let mut dialogue = Dialogue::new(alloc);
    chain.push_failures(rt, &mut dialogue, 999);
    push(rt, &mut dialogue.script, last.0);
    let outcome = ran_twice(rt, alloc, &dialogue.script, policy);
    expect_outcome(rt, outcome, &dialogue.replies, last.1, at);
    drop(dialogue);
}

fn expect_attempts(
    rt: &impl Abort,
    alloc: Global,
    policy: Option<Policy>,
    chain: Chain,
    at: usize,
) {
    let policy = policy.expect(rt, "a policy");
    expect_one_more(rt, alloc, &policy, chain, at);
    let held = (b"".as_slice(), b"NONE\nSIZE 0\n".as_slice());
    expect_no_more(rt, alloc, &policy, chain, held, at);
    let failed = (
        b"FAIL 999\n".as_slice(),
        b"DEAD 999\nNONE\nSIZE 0\n".as_slice(),
    );
    expect_no_more(rt, alloc, &policy, chain, failed, at);
}

fn chain_from(start: u64, step: u64) -> Chain {
    Chain { start, step }
}

#[test]
fn a_job_has_a_thousand_attempts(rt: HostRuntime) {
    for (at, (policy, chain)) in [
        (Policy::fixed(0, 1_000), chain_from(u64::MAX, 0)),
        (Policy::fixed(7, 1_000), chain_from(u64::MAX, 0)),
        (Policy::fixed(u64::MAX, 1_000), chain_from(u64::MAX, 0)),
        (Policy::fixed_rate(0, 1_000), chain_from(5, 0)),
        (Policy::fixed_rate(7, 1_000), chain_from(5, 7)),
        (Policy::fixed_rate(u64::MAX, 1_000), chain_from(5, u64::MAX)),
    ]
    .into_iter()
    .enumerate()
    {
        expect_attempts(&rt, rt.alloc(), policy, chain, at);
    }
}
