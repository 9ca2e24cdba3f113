use super::fixtures::{answers_of, expect_same, push};
use rand_pcg::Pcg32;
use rand_pcg::rand_core::Rng;
use rb_binary::BinaryTimer;
use rb_pairing::PairingTimer;
use rb_timer::TimerAnswer::Entry;
use rb_timer::TimerCommand::{Clear, Due, Insert, Least, Remove};
use rb_timer::{ListTimer, Timer, TimerAnswer, TimerCommand};
use rb_wheel::WheelTimer;
use std::alloc::Global;
use std::process::Abort;

// Returns a random number of random size: another random number says how many bits it has, so that
// each level of a wheel has its share.
fn of_any_size(random: &mut Pcg32) -> u64 {
    let size = random.next_u32() % 64;
    random.next_u64() >> size
}

// Returns a random command. Its slot is one of 48, and its moment is `now` or lies on either side
// of it.
fn next_command(random: &mut Pcg32, now: u64) -> TimerCommand {
    let slot = (random.next_u32() % 48) as usize;
    match random.next_u32() % 64 {
        0..=23 => Insert(slot, now.saturating_add(of_any_size(random))),
        24..=27 => Insert(slot, now.saturating_sub(of_any_size(random))),
        28..=39 => Remove(slot),
        40..=47 => Least,
        48..=50 => Due(now.saturating_sub(of_any_size(random))),
        51 if random.next_u32() % 16 == 0 => Clear,
        _ => Due(now),
    }
}

// Returns 20,024 commands in run 0 and 1,000 in each other run. The time starts at 0 and goes on by
// steps of any size, shifted right by `run % 60` bits. It stays at the greatest moment once it is
// there.
fn next_commands(
    rt: &impl Abort,
    random: &mut Pcg32,
    alloc: Global,
    run: u32,
) -> Vec<TimerCommand> {
    let mut now = 0u64;
    let mut commands = Vec::new(alloc);
    let count = if run == 0 { 20_024 } else { 1000u32 };
    for _ in 0..count {
        now = now.saturating_add(of_any_size(random) >> (run % 60));
        push(rt, &mut commands, next_command(random, now));
    }
    commands
}

// Asserts that two answers are equal. Entries agree if their expiries are equal, since any entry of
// least expiry may be given.
fn expect_agree(rt: &impl Abort, one: &TimerAnswer, other: &TimerAnswer, run: u32) {
    let agree = match (one, other) {
        (Entry(Some((_, expiry))), Entry(Some((_, another)))) => expiry == another,
        _ => one == other,
    };
    assert!(rt; agree, "run {run}");
}

fn expect_agreement(rt: &impl Abort, answers: &[TimerAnswer], expected: &[TimerAnswer], run: u32) {
    expect_same(rt, answers.len(), expected.len());
    for (one, other) in answers.iter().zip(expected) {
        expect_agree(rt, one, other, run);
    }
}

fn expect_agrees<T: Timer>(rt: &impl Abort, alloc: Global, commands: &[TimerCommand], run: u32) {
    let expected = answers_of::<ListTimer>(rt, alloc, 48, commands);
    let answers = answers_of::<T>(rt, alloc, 48, commands);
    expect_agreement(rt, &answers, &expected, run);
}

// Asserts that a timer agrees with the list in 100 runs. The seed is fixed, so the runs are the
// same each time.
fn expect_always_agrees<T: Timer>(rt: &impl Abort, alloc: Global) {
    let mut random = Pcg32::new(88172645463325252, 1);
    for run in 0..100u32 {
        let commands = next_commands(rt, &mut random, alloc, run);
        expect_agrees::<T>(rt, alloc, &commands, run);
    }
}

#[test]
fn the_binary_heap_agrees_with_the_list(rt: HostRuntime) {
    expect_always_agrees::<BinaryTimer>(&rt, rt.alloc());
}

#[test]
fn the_pairing_heap_agrees_with_the_list(rt: HostRuntime) {
    expect_always_agrees::<PairingTimer>(&rt, rt.alloc());
}

#[test]
fn the_wheel_agrees_with_the_list(rt: HostRuntime) {
    expect_always_agrees::<WheelTimer>(&rt, rt.alloc());
}
