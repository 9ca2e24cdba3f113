// Entries that expire where levels of the wheel begin, each put in while the wheel's base stands at
// such a moment.

use super::fixtures::answers_of;
use rb_timer::TimerAnswer::{Entry, Inserted, Removed};
use rb_timer::TimerCommand::{Due, Insert, Least, Remove};
use rb_wheel::WheelTimer;
use std::alloc::Global;
use std::process::Abort;

// 0, the greatest moment, and 64^k - 1, 64^k and 64^k + 1 for each k from 1 to 10: where a level
// begins, and a moment on each side of that.
static BOUNDARIES: [u64; 32] = [
    0,
    63,
    64,
    65,
    4095,
    4096,
    4097,
    262143,
    262144,
    262145,
    16777215,
    16777216,
    16777217,
    1073741823,
    1073741824,
    1073741825,
    68719476735,
    68719476736,
    68719476737,
    4398046511103,
    4398046511104,
    4398046511105,
    281474976710655,
    281474976710656,
    281474976710657,
    18014398509481983,
    18014398509481984,
    18014398509481985,
    1152921504606846975,
    1152921504606846976,
    1152921504606846977,
    18446744073709551615,
];

// Returns whether an entry that expires at `moment` is found due then, and not one nanosecond
// before, by a wheel whose base is `from` when the entry is put in. The base got there when an entry
// that expires at 0 left one that expires at `from` behind.
fn finds_due(rt: &impl Abort, alloc: Global, from: u64, moment: u64) -> bool {
    let found = Entry(Some((0, moment)));
    let commands = [
        Insert(1, 0),
        Insert(2, from),
        Remove(1),
        Insert(0, moment),
        Remove(2),
        Least,
        Due(moment.saturating_sub(1)),
        Due(moment),
        Remove(0),
        Least,
    ];
    let early = if moment == 0 { found } else { Entry(None) };
    let expected = [
        Inserted,
        Inserted,
        Removed(0),
        Inserted,
        Removed(from),
        found,
        early,
        found,
        Removed(moment),
        Entry(None),
    ];
    let answers = answers_of::<WheelTimer>(rt, alloc, 3, &commands);
    answers.as_slice() == expected.as_slice()
}

fn expect_due(rt: &impl Abort, alloc: Global, from: u64, moment: u64) {
    assert!(rt; finds_due(rt, alloc, from, moment), "{moment} from {from}");
}

fn expect_each_due(rt: &impl Abort, alloc: Global, from: u64) {
    for moment in &BOUNDARIES {
        expect_due(rt, alloc, from, *moment);
    }
}

#[test]
fn finds_each_boundary_from_each(rt: HostRuntime) {
    for from in &BOUNDARIES {
        expect_each_due(&rt, rt.alloc(), *from);
    }
}
