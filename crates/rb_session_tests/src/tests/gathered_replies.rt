use crate::tests::devices::{Sheet, expect_bytes, expect_end, push, with_kept};
use rb_binary::BinaryTimer;
use rb_protocol::{LimitedReader, LimitedWriter, WriterStatus};
use rb_retry::{KeptDesk, Policy};
use rb_session::{Delivery, Ended, HandsOn, SessionFault, run_limited};
use std::alloc::Global;
use std::process::Abort;

/// Returns `line`, `count` times.
pub fn repeated(rt: &impl Abort, alloc: Global, line: &[u8], count: usize) -> Vec<u8> {
    let mut text = Vec::new(alloc);
    for _ in 0..count {
        push(rt, &mut text, line);
    }
    text
}

type Slipped = (Result<Ended, SessionFault>, Vec<u8>);

fn slipped(rt: &impl Abort, alloc: Global, script: &[u8]) -> Slipped {
    let policy = Policy::fixed(1_000, 3).expect(rt, "a policy");
    with_kept(rt, alloc, 1, |kept, tally| {
        slipped_at(alloc, &mut KeptDesk::new(kept, tally), &policy, script)
    })
}

fn slipped_at(
    alloc: Global,
    desk: &mut KeptDesk<'_, BinaryTimer>,
    policy: &Policy,
    script: &[u8],
) -> Slipped {
    let (mut reader, mut writer) = (script, Sheet::of_bytes(alloc));
    let mut reader = LimitedReader::new(&mut reader);
    let delivery = Delivery::Gathered(HandsOn::BeforeReads);
    let mut status = WriterStatus::of(&writer);
    let outlet = LimitedWriter::new(&mut writer, &mut status);
    let (_, ended) = run_limited(alloc, &mut reader, outlet, desk, policy, delivery);
    (ended, writer.bytes)
}

// All replies are gathered, and go out in as many writes as they have bytes.
#[test]
fn a_batch_may_be_taken_a_byte_at_a_time(rt: HostRuntime) {
    let alloc = rt.alloc();
    let script = repeated(&rt, alloc, b"AT 7\n", 10_000);
    let replies = repeated(&rt, alloc, b"NOW 7\n", 10_000);
    let (ended, bytes) = slipped(&rt, alloc, &script);
    expect_end(&rt, ended, Ok(Ended::EndOfInput { lost: 0 }), 0);
    expect_bytes(&rt, &bytes, &replies, 0);
}
