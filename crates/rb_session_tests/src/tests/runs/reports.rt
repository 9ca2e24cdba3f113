// What a run reports of its session and of its history, each by itself.

use crate::tests::devices::expect;
use crate::tests::runs::devices::{End, Fault, Sink, Source, delivered, expect_history, options};
use rb_history::HistoryFault;
use rb_options::TimerKind;
use rb_queue::Opening;
use rb_runs::{Recording, ScriptReport};
use rb_session::{Delivery, Ended, HandsOn, SessionFault};
use std::alloc::Global;
use std::process::Abort;

const REQUESTS: &[u8] = b"OFFER 5 a\n";

const HISTORY: &[u8] = b"history 3\nopen 0 0 0\n0 0 0 offer 0 5 0 5 1 a\nend 1\n";

// Ends of the input, each with the end of the session there.
const ENDS: [(End, Result<Ended, SessionFault>); 2] = [
    (End::Comes, Ok(Ended::EndOfInput { lost: 0 })),
    (End::Fails, Err(SessionFault::Read { lost: 0 })),
];

fn reported(
    rt: &impl Abort,
    alloc: Global,
    end: End,
    device: &mut Option<Sink<'static>>,
) -> ScriptReport {
    let (mut source, mut sink) = (Source::ending(REQUESTS, end), Sink::new(alloc));
    delivered(
        alloc,
        &options(rt, TimerKind::Heap, 10),
        Delivery::Gathered(HandsOn::BeforeReads),
        Opening::empty(alloc),
        &mut source,
        &mut sink,
        device.as_mut(),
    )
}

fn expect_report(
    rt: &impl Abort,
    report: ScriptReport,
    session: Result<Ended, SessionFault>,
    recording: Recording,
) {
    expect(rt, report.session == session);
    expect(rt, report.recording == recording);
}

fn expect_written(rt: &impl Abort, alloc: Global, end: End, session: Result<Ended, SessionFault>) {
    let mut device = Some(Sink::new(alloc));
    let report = reported(rt, alloc, end, &mut device);
    expect_report(rt, report, session, Recording::Written);
    expect_history(rt, &device, HISTORY, 0);
}

fn expect_failed(rt: &impl Abort, alloc: Global, end: End, session: Result<Ended, SessionFault>) {
    let mut device = Some(Sink::faulty(alloc, 0, Fault::Fails));
    let report = reported(rt, alloc, end, &mut device);
    expect_report(rt, report, session, Recording::Failed(HistoryFault::Write));
    expect_history(rt, &device, b"", 0);
}

fn expect_unasked(rt: &impl Abort, alloc: Global, end: End, session: Result<Ended, SessionFault>) {
    let report = reported(rt, alloc, end, &mut None);
    expect_report(rt, report, session, Recording::NotAsked);
}

#[test]
fn a_report_tells_of_the_history_after_each_end(rt: HostRuntime) {
    for (end, session) in ENDS {
        expect_written(&rt, rt.alloc(), end, session);
        expect_failed(&rt, rt.alloc(), end, session);
        expect_unasked(&rt, rt.alloc(), end, session);
    }
}
