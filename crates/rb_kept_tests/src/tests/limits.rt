use super::fixtures::expect_number;
use rb_delayed::{
    GREATEST_ATTEMPT, GREATEST_MOMENT, GREATEST_PAYLOAD_BYTE, LEAST_PAYLOAD_BYTE,
    MOST_PAYLOAD_BYTES,
};
use rb_kept::MOST_CALLS;
use rb_ledger::GREATEST_COUNT;
use rb_queue::{GREATEST_OPENING_ID, MOST_OPENING_ELEMENTS};

#[test]
fn limits_have_their_values(rt: HostRuntime) {
    expect_number(&rt, MOST_PAYLOAD_BYTES as u64, 64);
    expect_number(&rt, u64::from(LEAST_PAYLOAD_BYTE), 0x21);
    expect_number(&rt, u64::from(GREATEST_PAYLOAD_BYTE), 0x7E);
    expect_number(&rt, u64::from(GREATEST_ATTEMPT), 1_000);
    expect_number(&rt, GREATEST_MOMENT, 18_446_744_073_709_551_615);
    expect_number(&rt, MOST_OPENING_ELEMENTS as u64, 1_000_000);
    expect_number(&rt, GREATEST_OPENING_ID, 1_099_511_627_776);
    expect_number(&rt, MOST_CALLS, 1_000_000);
    expect_number(&rt, GREATEST_COUNT, 18_446_744_073_709_551_615);
}
