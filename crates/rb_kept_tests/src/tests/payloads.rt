use super::fixtures::{expect, expect_made, expect_same, payload};
use rb_delayed::{Payload, PayloadFault};
use std::alloc::Global;
use std::process::Abort;

fn refuses(rt: &impl Abort, bytes: &[u8], fault: PayloadFault) {
    expect_same(rt, Payload::new(bytes).err(), Some(fault));
}

fn accepts(rt: &impl Abort, bytes: &[u8]) {
    expect_same(rt, payload(rt, bytes).as_bytes(), bytes);
}

#[test]
fn a_payload_is_1_to_64_visible_bytes(rt: HostRuntime) {
    refuses(&rt, b"", PayloadFault::Empty);
    refuses(&rt, &[b'a'; 65], PayloadFault::TooLong);
    refuses(&rt, &[b' '; 65], PayloadFault::TooLong);
    refuses(&rt, b"a b", PayloadFault::BadByte(1));
    refuses(&rt, b"\x7Fab", PayloadFault::BadByte(0));
    refuses(&rt, &[b'a', 0x20], PayloadFault::BadByte(1));
    refuses(&rt, &[b'a', b'b', 0xFF, 0x00], PayloadFault::BadByte(2));
    accepts(&rt, b"!");
    accepts(&rt, b"~");
    accepts(&rt, b"a");
    accepts(&rt, &[b'z'; 64]);
}

fn are_equal(one: &[u8], other: &[u8]) -> bool {
    Payload::new(one).ok() == Payload::new(other).ok()
}

#[test]
fn equal_payloads_have_equal_bytes(rt: HostRuntime) {
    expect(&rt, are_equal(b"ab", b"ab"), "equal payloads");
    expect(&rt, !are_equal(b"ab", b"a"), "other payloads");
}

fn shows(rt: &impl Abort, alloc: Global, payload: Payload) {
    let text = expect_made(rt, format!(in alloc; "{payload:?}"));
    expect_same(rt, text.as_str(), "Payload(\"job\")");
}

#[test]
fn shows_its_text(rt: HostRuntime) {
    shows(&rt, rt.alloc(), payload(&rt, b"job"));
}
