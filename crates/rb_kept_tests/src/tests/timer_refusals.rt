// Each growth of a timer's room, and a run of commands, refused in turn. For each timer the same
// holds: after a refusal it has its entries and its room as before, and the call, made again, finds
// memory.

use super::fixtures::{expect, expect_entry, expect_number, puts, takes};
use rb_binary::BinaryTimer;
use rb_pairing::PairingTimer;
use rb_timer::TimerAnswer::{self, Entry, Inserted, Refused, Removed};
use rb_timer::TimerCommand::{self, Due, Insert, Least, Remove};
use rb_timer::{ListTimer, Timer, run_timer};
use rb_wheel::WheelTimer;
use std::alloc::Global;
use std::process::Abort;

// The rooms that a timer gets, one after the other. Each is filled before the next is asked for,
// and most arrays have to move to grow that far.
const ROOMS: [usize; 4] = [3, 8, 20, MOST];

const MOST: usize = 70;

// Returns the expiry of the entry at `slot`. The higher the slot, the sooner it expires: from 1,000
// down to 931.
fn expiry_of(slot: usize) -> u64 {
    1_000_u64.saturating_sub(slot as u64)
}

// Returns the entry of least expiry when exactly the slots below `count` are filled.
fn least_of(count: usize) -> Option<(usize, u64)> {
    let slot = count.checked_sub(1)?;
    Some((slot, expiry_of(slot)))
}

// Asserts that the timer has exactly `count` slots, and an entry in each.
fn expect_filled<T: Timer>(rt: &impl Abort, timer: &T, count: usize) {
    expect_number(rt, timer.room() as u64, count as u64);
    expect_number(rt, timer.len() as u64, count as u64);
    expect_entry(rt, timer.least(), least_of(count));
    for slot in 0..count {
        expect(
            rt,
            timer.get(slot) == Some(expiry_of(slot)),
            "a slot's entry",
        );
    }
}

// Asks a timer whose `count` slots are filled for a room of `wanted` slots, and once more after a
// refusal. Returns the number of refusals.
fn reserves<T: Timer>(rt: &impl Abort, timer: &mut T, count: usize, wanted: usize) -> u32 {
    if timer.reserve(wanted).is_ok() {
        return 0;
    }
    expect_filled(rt, timer, count);
    expect(rt, timer.reserve(wanted).is_ok(), "no memory for a room");
    1
}

// Fills the new slots. The last one, which expires first, is emptied and filled again. By then the
// wheel's base has moved past its expiry, so everything that comes later is early for the wheel.
fn fills<T: Timer>(rt: &impl Abort, timer: &mut T, count: usize, room: usize) {
    for slot in count..room {
        expect(rt, puts(timer, slot, expiry_of(slot)), "a slot is filled");
    }
    let last = room.saturating_sub(1);
    let expiry = expiry_of(last);
    let is_again = takes(timer, last, expiry) && puts(timer, last, expiry);
    expect(rt, is_again, "the last slot is filled again");
    expect_filled(rt, timer, room);
}

// Grows from room to room, and returns the number of refusals.
fn grows<T: Timer>(rt: &impl Abort, timer: &mut T) -> u32 {
    let (mut met, mut count) = (0_u32, 0);
    for room in ROOMS {
        met = met.saturating_add(reserves(rt, timer, count, room));
        fills(rt, timer, count, room);
        count = room;
    }
    met
}

// Commands that leave a filled timer as it was. `ANSWERS` has their answers.
const COMMANDS: [TimerCommand; 7] = [
    Least,
    Remove(0),
    Remove(0),
    Insert(0, 1_000),
    Insert(MOST, 1),
    Due(930),
    Due(931),
];

const ANSWERS: [TimerAnswer; 7] = [
    Entry(Some((69, 931))),
    Removed(1_000),
    Refused,
    Inserted,
    Refused,
    Entry(None),
    Entry(Some((69, 931))),
];

fn has_run<T: Timer>(rt: &impl Abort, alloc: Global, timer: &mut T) -> bool {
    let ran = run_timer(alloc, timer, &COMMANDS);
    expect_filled(rt, timer, MOST);
    match ran {
        Ok(answers) => {
            expect(rt, answers.as_slice() == ANSWERS.as_slice(), "the answers");
            true
        }
        Err(_) => false,
    }
}

// Runs the commands, once more after a refusal, and returns the number of refusals.
fn runs<T: Timer>(rt: &impl Abort, alloc: Global, timer: &mut T) -> u32 {
    if has_run(rt, alloc, timer) {
        return 0;
    }
    expect(rt, has_run(rt, alloc, timer), "no memory for a run");
    1
}

// Takes out all entries, each when the timer gives it as the due one.
fn drains<T: Timer>(rt: &impl Abort, timer: &mut T) {
    for taken in 0..MOST {
        let count = MOST.saturating_sub(taken);
        expect_entry(rt, timer.due(1_000), least_of(count));
        let slot = count.saturating_sub(1);
        let is_taken = takes(timer, slot, expiry_of(slot));
        expect(rt, is_taken, "the due entry leaves");
    }
    expect_number(rt, timer.len() as u64, 0);
}

fn refusals_over<T: Timer>(rt: &impl Abort, alloc: Global) -> u32 {
    let mut timer = T::new(alloc);
    let growing = grows(rt, &mut timer);
    let running = runs(rt, alloc, &mut timer);
    drains(rt, &mut timer);
    growing.saturating_add(running)
}

/// Makes the calls of each timer that may take memory, and returns the number of refusals.
pub fn timer_refusals(rt: &impl Abort, alloc: Global) -> u32 {
    let list = refusals_over::<ListTimer>(rt, alloc);
    let heap = refusals_over::<BinaryTimer>(rt, alloc);
    let pairing = refusals_over::<PairingTimer>(rt, alloc);
    let wheel = refusals_over::<WheelTimer>(rt, alloc);
    list.saturating_add(heap)
        .saturating_add(pairing)
        .saturating_add(wheel)
}
