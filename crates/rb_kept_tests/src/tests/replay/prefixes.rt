// A text that stops before its end is refused, wherever it stops. The other faults of texts are
// cases, in `cases/unreadable.case` and `cases/replays.case`.

use crate::tests::replay::devices::{expect, expect_unreadable};
use rb_replay::{TextReason, read_history};
use std::alloc::Global;
use std::process::Abort;

const NEXT_RUN: &[u8] =
    b"history 3\nopen 2 0 1\nkeep 1 1000 0 0 2 a\n0 0 0 size 1\n0 1000 1000 poll 1\n\
        0 1000 1000 offer 2 1000 2 1000 1 b\nend 3\n";

// A text of version 1.
const FIRST_VERSION: &[u8] =
    b"history 1\n0 10 10 offer 0 10 0 1 a\n1 5 10 poll 0\n1 3 10 pollfor 3 4 none\n0 11 11 size 0\nend 4\n";

// Asserts that the first fault of the text is `reason`, on line `line`.
fn unreadable(rt: &impl Abort, alloc: Global, text: &[u8], line: u64, reason: TextReason) {
    expect_unreadable(rt, read_history(alloc, text).err(), line, reason);
}

// Asserts that each part of a text is refused after its last whole line. The header is the first.
fn expect_prefixes(rt: &impl Abort, alloc: Global, text: &[u8]) {
    let (mut line, mut reason) = (1_u64, TextReason::Header);
    for (len, byte) in text.iter().enumerate() {
        let part = text.get(..len).unwrap_or_default();
        unreadable(rt, alloc, part, line, reason);
        if *byte == b'\n' {
            line = line.saturating_add(1);
            reason = TextReason::End;
        }
    }
    expect(rt, read_history(alloc, text).is_ok());
}

#[test]
fn each_prefix_of_a_text_is_refused(rt: HostRuntime) {
    expect_prefixes(&rt, rt.alloc(), NEXT_RUN);
    expect_prefixes(&rt, rt.alloc(), FIRST_VERSION);
}
