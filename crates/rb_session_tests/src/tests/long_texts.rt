use crate::tests::devices::{expect, expect_bytes, expect_count, expect_made};
use rb_protocol::{LineReply, write_reply};
use std::alloc::Global;
use std::process::Abort;

// The number of lines. With 26 bytes each, they have more than a megabyte.
const LINES: usize = 50_000;

const LINE: &[u8] = b"SIZE 18446744073709551615\n";

fn text_of_lines(rt: &impl Abort, alloc: Global) -> Vec<u8> {
    let mut text = Vec::new(alloc);
    for _ in 0..LINES {
        expect_made(rt, write_reply(&LineReply::Size(u64::MAX), &mut text));
    }
    text
}

fn expect_lines(rt: &impl Abort, text: &[u8]) {
    expect_count(rt, text.len(), LINES.saturating_mul(LINE.len()), 0);
    for line in text.split_inclusive(|&byte| byte == b'\n') {
        expect_bytes(rt, line, LINE, 0);
    }
}

// One more reply can be appended to a text, however long it is.
#[test]
fn a_reply_is_written_behind_a_megabyte(rt: HostRuntime) {
    let text = text_of_lines(&rt, rt.alloc());
    expect(&rt, text.len() > 1 << 20);
    expect_lines(&rt, &text);
}
