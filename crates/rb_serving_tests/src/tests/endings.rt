// What a server prints and what it leaves behind.

ghost use Rattle.std.specs.Prelude.{◌≡◌};

use crate::tests::devices::{expect, expect_bytes};
use rb_ending::BrokerFault;
use rb_history::HistoryRoom;
use rb_kept::Kept;
use rb_queue::Audit;
use rb_serving::{ServeReport, end_server, print_listening};
use rb_timer::ListTimer;
use std::alloc::Global;
use std::io::{self, ErrorKind, Write};
use std::process::Abort;

// The numbers are not those of a run: they all differ.
const TEXT: &[u8] =
    b"sessions 8 faults 9 lost 18446744073709551615\n{\"calls\":1,\"cleared\":2,\"given\":3,\
        \"left\":4,\"offered\":5,\"opening\":6,\"removed\":7}\n";

const HISTORY: &[u8] = b"history 3\nopen 0 0 0\nend 0\n";

// A writer that holds what is written. If `fails_at` is a number, the call with that number fails.
// Writes and flushes are counted together, from 0.
#[derive(Drop)]
struct Held {
    bytes: Vec<u8>,
    calls: usize,
    fails_at: Option<usize>,
}

impl Held {
    fn is_failing(&mut self) -> bool {
        let call = self.calls;
        self.calls = call.saturating_add(1);
        self.fails_at == Some(call)
    }
}

impl Write for Held {
    fn write(&mut self, buf: &[u8]) -> io::Result<usize> {
        if self.is_failing() {
            return Err(ErrorKind::BrokenPipe.into());
        }
        self.bytes.extend_from_slice(buf)?;
        Ok(buf.len())
    }

    fn flush(&mut self) -> io::Result<()> {
        if self.is_failing() {
            return Err(ErrorKind::BrokenPipe.into());
        }
        Ok(())
    }
}

fn report(rt: &impl Abort, alloc: Global) -> ServeReport<ListTimer> {
    let (kept, _) = Kept::new(alloc, 1).ok().expect(rt, "memory");
    let audit = Audit {
        calls: 1,
        cleared: 2,
        given: 3,
        left: 4,
        offered: 5,
        opening: 6,
        removed: 7,
    };
    ServeReport {
        sessions: 8,
        faults: 9,
        lost: u64::MAX,
        audit,
        kept,
    }
}

// Makes a device that fails at call `fails_at`, if a number is given.
fn device_failing(alloc: Global, fails_at: Option<usize>) -> Held {
    Held {
        bytes: Vec::new(alloc),
        calls: 0,
        fails_at,
    }
}

fn text_room(rt: &impl Abort, alloc: Global) -> HistoryRoom {
    HistoryRoom::new(alloc).ok().expect(rt, "a room")
}

fn expect_outcome(
    rt: &impl Abort,
    outcome: Result<(), BrokerFault>,
    wanted: Result<(), BrokerFault>,
) {
    assert_eq!(rt; outcome, wanted);
}

// How a server ends: the calls at which its writer and its history's device fail, the outcome that
// is returned, and what both of them receive.
#[derive(Clone, Copy)]
struct End {
    writer_fails_at: Option<usize>,
    device_fails_at: Option<usize>,
    outcome: Result<(), BrokerFault>,
    text: &'static [u8],
    history: &'static [u8],
}

fn expect_end(rt: &impl Abort, alloc: Global, end: &End) {
    let report = report(rt, alloc);
    let mut writer = device_failing(alloc, end.writer_fails_at);
    let mut device = Some(device_failing(alloc, end.device_fails_at));
    let text = text_room(rt, alloc);
    let outcome = end_server(alloc, text, &report, &mut writer, device.as_mut()).result();
    expect_outcome(rt, outcome, end.outcome);
    expect_bytes(rt, &writer.bytes, end.text);
    expect_held(rt, &device, end.history);
}

fn expect_held(rt: &impl Abort, device: &Option<Held>, wanted: &[u8]) {
    match device {
        Some(device) => expect_bytes(rt, &device.bytes, wanted),
        None => expect(rt, false),
    }
}

const WHOLE: End = End {
    writer_fails_at: None,
    device_fails_at: None,
    outcome: Ok(()),
    text: TEXT,
    history: HISTORY,
};

#[test]
fn a_server_leaves_its_history_and_two_lines(rt: HostRuntime) {
    let alloc = rt.alloc();
    expect_end(&rt, alloc, &WHOLE);
    expect_end_without_history(&rt, alloc);
}

fn expect_end_without_history(rt: &impl Abort, alloc: Global) {
    let report = report(rt, alloc);
    let mut writer = device_failing(alloc, None);
    let mut none: Option<Held> = None;
    let text = text_room(rt, alloc);
    let outcome = end_server(alloc, text, &report, &mut writer, none.as_mut()).result();
    expect_outcome(rt, outcome, Ok(()));
    expect_bytes(rt, &writer.bytes, TEXT);
    expect(rt, none.is_none());
}

// Each device gets a write, which is call 0, and then a flush, which is call 1.
#[test]
fn the_first_fault_of_an_end_is_answered(rt: HostRuntime) {
    let alloc = rt.alloc();
    for (call, text) in [(0, b"".as_slice()), (1, TEXT)] {
        let end = End {
            writer_fails_at: Some(call),
            outcome: Err(BrokerFault::Write),
            text,
            ..WHOLE
        };
        expect_end(&rt, alloc, &end);
    }
    for (call, history) in [(0, b"".as_slice()), (1, HISTORY)] {
        let end = End {
            device_fails_at: Some(call),
            outcome: Err(BrokerFault::WriteHistory),
            history,
            ..WHOLE
        };
        expect_end(&rt, alloc, &end);
    }
    let end = End {
        writer_fails_at: Some(0),
        device_fails_at: Some(0),
        outcome: Err(BrokerFault::WriteHistory),
        text: b"",
        history: b"",
    };
    expect_end(&rt, alloc, &end);
}

fn expect_listening(rt: &impl Abort, alloc: Global, port: u16, line: &[u8]) {
    let mut writer = device_failing(alloc, None);
    let printed = print_listening(alloc, &mut writer, port);
    expect_outcome(rt, printed, Ok(()));
    expect_bytes(rt, &writer.bytes, line);
}

#[test]
fn a_server_says_where_it_listens(rt: HostRuntime) {
    let alloc = rt.alloc();
    expect_listening(&rt, alloc, 1, b"listening 127.0.0.1:1\n");
    expect_listening(&rt, alloc, 65_535, b"listening 127.0.0.1:65535\n");
    // Call 1 is the flush.
    let printed = print_listening(alloc, &mut device_failing(alloc, Some(1)), 80);
    expect_outcome(&rt, printed, Err(BrokerFault::Write));
}
