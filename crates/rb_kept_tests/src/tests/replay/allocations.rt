// Writing through a room takes no memory. Both tests of this file make the same things, and only
// `each_of_the_calls` writes, so both have to allocate equally often. `dev/refuse_allocations` counts
// their allocations.

use crate::tests::fixtures::expect_made;
use crate::tests::replay::devices::{Scale, expect, expect_count, write_in};
use crate::tests::replay::fixtures::{Deed, EMPTY, history_of, opening, push_row};
use rb_history::HistoryRoom;
use rb_replay::History;
use std::alloc::Global;
use std::process::Abort;

// The numbers of events of the histories, which are none, some, and several pieces, and of the bytes of their
// texts: the lines around the events have 21, and 6, 8 and 10 bytes. Of each two events one is a drain with a line
// of 20 bytes, and one a count with a line of 13.
const SIZES: [(u64, usize); 3] = [
    (0, 27),
    (100, 21 + 50 * 33 + 8),
    (10_000, 21 + 5_000 * 33 + 10),
];

#[test]
fn none_of_the_calls(rt: HostRuntime) {
    for (count, _) in SIZES {
        drop(made(&rt, rt.alloc(), count));
    }
}

#[test]
fn each_of_the_calls(rt: HostRuntime) {
    for (count, bytes) in SIZES {
        let (room, history) = made(&rt, rt.alloc(), count);
        is_written(&rt, room, history, bytes);
    }
}

fn made(rt: &impl Abort, alloc: Global, count: u64) -> (HistoryRoom, History) {
    let mut events = Vec::new(alloc);
    for _ in 0..count / 2 {
        let drain = Deed::Drain(3, [Some(7), Some(8), Some(9)]);
        push_row(rt, alloc, &mut events, (0, 0, 0, drain));
        push_row(rt, alloc, &mut events, (0, 0, 0, Deed::Size(0)));
    }
    let room = expect_made(rt, HistoryRoom::new(alloc));
    (room, history_of(rt, opening(rt, alloc, EMPTY), events))
}

fn is_written(rt: &impl Abort, room: HistoryRoom, history: History, bytes: usize) {
    let mut scale = Scale { bytes: 0 };
    let ended = write_in(rt, room, history.opening(), history.events(), &mut scale);
    expect(rt, ended.is_ok());
    expect_count(rt, scale.bytes, bytes);
    drop(history);
}
