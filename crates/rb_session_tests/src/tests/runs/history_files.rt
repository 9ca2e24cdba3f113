use crate::tests::devices::{expect_bytes, expect_count, expect_made, expect_same, push};
use crate::tests::runs::devices::{End, Fault, Source};
use rb_ending::BrokerFault;
use rb_runs::read_all;
use std::alloc::Global;
use std::process::Abort;

// Returns 200,000 bytes: three pieces of 64 KiB, and a rest.
fn long_text(rt: &impl Abort, alloc: Global) -> Vec<u8> {
    let mut text = Vec::new(alloc);
    for byte in 0..200_000_u32 {
        push(rt, &mut text, &[(byte % 251) as u8]);
    }
    text
}

// Asserts that `source` is read as the bytes `wanted`. Returns the number of reads.
fn expect_text(
    rt: &impl Abort,
    alloc: Global,
    source: Source<'_>,
    wanted: &[u8],
    at: usize,
) -> usize {
    let mut source = source;
    let text = expect_made(rt, read_all(alloc, &mut source));
    expect_bytes(rt, &text, wanted, at);
    source.calls
}

fn expect_fault(rt: &impl Abort, alloc: Global, source: Source<'_>, wanted: BrokerFault) -> usize {
    let mut source = source;
    let fault = read_all(alloc, &mut source).err();
    expect_same(rt, fault, Some(wanted));
    source.calls
}

#[test]
fn a_file_is_read_in_pieces_of_any_size(rt: HostRuntime) {
    let alloc = rt.alloc();
    let long = long_text(&rt, alloc);
    for most in [1_000, 65_536, usize::MAX] {
        expect_text(&rt, alloc, Source::of(&long, most), &long, most);
    }
    for call in 0..3 {
        let source = Source::faulty(&long, usize::MAX, call, Fault::Fails);
        expect_fault(&rt, alloc, source, BrokerFault::ReadHistory);
    }
}

// The five reads give three whole pieces, the rest, and the end.
#[test]
fn a_read_of_a_file_takes_64_kib(rt: HostRuntime) {
    let alloc = rt.alloc();
    let long = long_text(&rt, alloc);
    let reads = expect_text(&rt, alloc, Source::of(&long, usize::MAX), &long, 0);
    expect_count(&rt, reads, 5, 0);
}

// An interrupted read counts like a read that gives a byte.
#[test]
fn a_file_without_an_end_is_given_up(rt: HostRuntime) {
    let source = Source::ending(b"", End::NeverComes);
    let reads = expect_fault(&rt, rt.alloc(), source, BrokerFault::ReadTurns);
    expect_count(&rt, reads, 10_000_000, 0);
}

// Asserts that a file takes `wanted` reads if each gives one byte.
fn expect_reads(rt: &impl Abort, alloc: Global, text: &[u8], wanted: usize) {
    let reads = expect_text(rt, alloc, Source::of(text, 1), text, wanted);
    expect_count(rt, reads, wanted, wanted);
}

#[test]
fn nothing_is_read_behind_the_end_of_a_file(rt: HostRuntime) {
    let alloc = rt.alloc();
    expect_reads(&rt, alloc, b"", 1);
    expect_reads(&rt, alloc, b"a", 2);
    expect_reads(&rt, alloc, b"ab", 3);
}

#[test]
fn an_interrupted_read_of_a_file_is_made_again(rt: HostRuntime) {
    for call in 0..3 {
        let source = Source::faulty(b"ab", 1, call, Fault::IsInterrupted);
        expect_text(&rt, rt.alloc(), source, b"ab", call);
    }
}
