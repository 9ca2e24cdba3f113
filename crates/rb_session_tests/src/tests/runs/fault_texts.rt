use crate::tests::devices::{expect_made, expect_same};
use rb_ending::BrokerFault;
use rb_replay::HistoryFault;
use rb_session::SessionFault;
use std::alloc::Global;
use std::process::Abort;

fn expect_fault(rt: &impl Abort, alloc: Global, fault: BrokerFault, status: u8, text: &str) {
    let shown = expect_made(rt, fault.to_string(alloc));
    expect_same(rt, fault.status(), status);
    expect_same(rt, shown.as_str(), text);
}

#[test]
fn faults_have_a_status_and_a_text(rt: HostRuntime) {
    let alloc = rt.alloc();
    for (session, fault, status, text) in [
        (
            SessionFault::Read { lost: 1 },
            BrokerFault::Read,
            3,
            "cannot read input",
        ),
        (
            SessionFault::Write { lost: 1 },
            BrokerFault::Write,
            3,
            "cannot write output",
        ),
        (
            SessionFault::ReadTurns { lost: 1 },
            BrokerFault::ReadTurns,
            3,
            "too many reads",
        ),
        (
            SessionFault::Memory,
            BrokerFault::Memory,
            4,
            "out of memory",
        ),
    ] {
        expect_same(&rt, BrokerFault::from(session), fault);
        expect_fault(&rt, alloc, fault, status, text);
    }
}

#[test]
fn faults_of_files_and_servers_have_a_status_and_a_text(rt: HostRuntime) {
    let alloc = rt.alloc();
    for (fault, status, text) in [
        (BrokerFault::ReadHistory, 3, "cannot read history"),
        (BrokerFault::WriteHistory, 3, "cannot write history"),
        (BrokerFault::BadOpening, 1, "bad opening"),
        (BrokerFault::Listen, 3, "cannot listen"),
        (BrokerFault::Worker, 3, "cannot start worker"),
        (BrokerFault::NotGathered, 3, "passes not gathered"),
    ] {
        expect_fault(&rt, alloc, fault, status, text);
    }
    let written = BrokerFault::from(HistoryFault::Write);
    expect_same(&rt, written, BrokerFault::WriteHistory);
    let missing = BrokerFault::from(HistoryFault::Memory);
    expect_same(&rt, missing, BrokerFault::Memory);
}
