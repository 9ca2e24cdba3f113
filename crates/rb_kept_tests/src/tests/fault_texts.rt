use super::fixtures::{expect_made, expect_same};
use rb_delayed::PayloadFault;
use rb_kept::{CallFault, NewFault};
use std::alloc::Global;
use std::fmt::Display;
use std::process::Abort;

fn expect_text<F: Display>(rt: &impl Abort, alloc: Global, fault: &F, text: &str) {
    let shown = expect_made(rt, fault.to_string(alloc));
    expect_same(rt, shown.as_str(), text);
}

#[test]
fn shows_faults(rt: HostRuntime) {
    let alloc = rt.alloc();
    let bad_byte = "the byte at place 7 is not a visible ASCII character";
    let empty = "a payload has at least one byte";
    expect_text(&rt, alloc, &PayloadFault::Empty, empty);
    let too_long = "a payload has at most 64 bytes";
    expect_text(&rt, alloc, &PayloadFault::TooLong, too_long);
    expect_text(&rt, alloc, &PayloadFault::BadByte(7), bad_byte);
    expect_text(&rt, alloc, &NewFault::Memory, "out of memory");
    expect_text(&rt, alloc, &CallFault::Memory, "out of memory");
}
