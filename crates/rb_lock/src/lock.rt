//! The lock: its word, and how the pair in its slot is taken, used and given back.
ghost use Rattle.std.specs.Prelude.{◌≡◌, ◌≤◌, [], ◌∷◌, Some, None, length, true, false};
ghost use Rattle.rb_queue.specs.History.{IsLegal};
ghost use Rattle.rb_lock.specs.LockSteps.{HasOneWord, AtRest, IsNote, TakesLock, MayGive, MayDraw};
ghost use Rattle.rb_lock.specs.LockSteps.{ActsIn, ActsOn, NamesIn, NamesOn, HasLearned, in_hand};
ghost use Rattle.rb_lock.specs.Views.{caught_up, has_drawn, note_of};
ghost use Rattle.rb_lock.specs.declared.stage.Stage.TheVariants.{Idle};

use crate::pair::Pair;
use crate::rule::{LockTable, PassSeat};
use crate::steps::{Compare, Draw, Give, Learn, Noting, Take};
use rb_kept::{CallFault, Outcome};
use rb_ledger::Tally;
use rb_queue::Ask;
use rb_timer::Timer;
use std::hint::spin_loop;
use std::sync::Wait;

// No seat holds the lock.
pub(crate) const FREE: u64 = 0;

// A seat holds the lock.
const HELD: u64 = 1;

// A seat holds the lock, and another may sleep until it is given back.
const SLEPT_ON: u64 = 2;

// How often a thread that finds the lock taken looks at it before it sleeps. Most calls are over before
// a sleep would begin.
const LOOKS: u32 = 4;

// How often it pauses between two looks: 3 to 8 microseconds, by the processor. A look takes the word's cache line away
// from the thread that holds the lock, and whoever gets the lock needs all that a call reads in its own processor's
// cache. So a thread that makes call after call makes many before another one looks.
const PAUSES: u32 = 512;

/// Takes the lock, and with it the pair in its slot. If another seat holds the lock, it watches it for
/// a while, and then sleeps until it is given back.
pub(crate) fn take<T: Timer, R: Wait>(table: &LockTable<T>, rt: &R, seat: &mut PassSeat<T>)
    requires lock { HasOneWord table.now.table_id }
    requires table { seat.old.table_id ≡ table.now.table_id }
    requires rest { AtRest seat.old.table_id seat.old.me }
    ensures table { seat.new.table_id ≡ seat.old.table_id }
    ensures taken { TakesLock seat.old.me seat.new.me }
{
    if has_taken(table, seat) {
        return;
    }
    watch(table);
    if has_taken(table, seat) {
        return;
    }
    for _ in rt.forever() {
        // From now on the word says that a thread may sleep, whoever holds the lock.
        if table.swap::<Take>(seat, 0, SLEPT_ON) == FREE {
            return;
        }
        table.park(rt, 0, SLEPT_ON as u32);
        watch(table);
    }
    unreachable!()
}

// Tries once, and does not announce a sleeper. Whether it took the lock.
fn has_taken<T: Timer>(table: &LockTable<T>, seat: &mut PassSeat<T>) -> bool
    requires lock { HasOneWord table.now.table_id }
    requires table { seat.old.table_id ≡ table.now.table_id }
    requires rest { AtRest seat.old.table_id seat.old.me }
    ensures table { seat.new.table_id ≡ seat.old.table_id }
    ensures taken { result ≡ true → TakesLock seat.old.me seat.new.me }
    ensures lost { result ≡ false → seat.new.me ≡ seat.old.me }
{
    table.compare_exchange::<Take>(seat, 0, FREE, HELD) == FREE
}

// Watches the lock for a while, as long as it is taken.
fn watch<T: Timer>(table: &LockTable<T>)
    requires lock { HasOneWord table.now.table_id }
{
    for _ in 0..LOOKS {
        if table.peek(0) == FREE {
            return;
        }
        pause();
    }
}

// Lets the time between two looks pass.
fn pause() {
    for _ in 0..PAUSES {
        spin_loop();
    }
}

/// Gives the lock back, and with it the pair. It wakes a sleeper, if there may be one.
pub(crate) fn give<T: Timer>(table: &LockTable<T>, seat: &mut PassSeat<T>)
    requires lock { HasOneWord table.now.table_id }
    requires table { seat.old.table_id ≡ table.now.table_id }
    requires holds { MayGive seat.old.me }
    ensures table { seat.new.table_id ≡ seat.old.table_id }
    ensures seen { seat.new.me ≡ (caught_up seat.old.me.0 (in_hand seat.old.me.1) Idle, []) }
{
    let found = table.swap::<Give>(seat, 0, FREE);
    wake(table, found);
}

/// Gives the lock back, and draws the name that was noted when it was taken.
pub(crate) fn give_and_draw<T: Timer>(table: &LockTable<T>, seat: &mut PassSeat<T>)
    requires lock { HasOneWord table.now.table_id }
    requires table { seat.old.table_id ≡ table.now.table_id }
    requires holds { MayDraw seat.old.me }
    ensures table { seat.new.table_id ≡ seat.old.table_id }
    ensures drawn { seat.new.me ≡ (has_drawn seat.old.me.0 (in_hand seat.old.me.1), []) }
{
    let found = table.swap::<Draw>(seat, 0, FREE);
    wake(table, found);
}

// Wakes a sleeper if there may be one. `found` is the word that was found when the lock was given back.
pub(crate) fn wake<T: Timer>(table: &LockTable<T>, found: u64)
    requires lock { HasOneWord table.now.table_id }
{
    if found == SLEPT_ON {
        table.wake_one(0);
    }
}

/// Calls the kept queue in place, in the slot that the seat has in hand.
pub(crate) fn act<T: Timer>(
    table: &LockTable<T>,
    seat: &mut PassSeat<T>,
    tally: &mut Tally,
    name: u64,
    asked: u64,
    ask: Ask,
) -> Result<Outcome, CallFault>
    requires table { seat.old.table_id ≡ table.now.table_id }
    requires hand { (pair : Pair T) × (seat.old.me.1 ≡ (0, Some pair) ∷ []) }
    ensures table { seat.new.table_id ≡ seat.old.table_id }
    ensures acts { ActsIn (record { seat = name; asked = asked; ask = ask }) result
        tally.old tally.new seat.old.me seat.new.me }
{
    let slot = seat.slot_mut(table, 0);
    act_on(slot, tally, name, asked, ask)
}

fn act_on<T: Timer>(
    slot: &mut Option<Pair<T>>,
    tally: &mut Tally,
    name: u64,
    asked: u64,
    ask: Ask,
) -> Result<Outcome, CallFault>
    requires { (pair : Pair T) × (slot.old ≡ Some pair) }
    ensures { ActsOn (record { seat = name; asked = asked; ask = ask }) result tally.old tally.new slot.old slot.new }
{
    let Some(pair) = slot else { unreachable!() };
    // For the proof: the history is legal.
    let _ = pair.kept.history();
    pair.kept.act(tally, name, asked, ask)
}

/// Gives the next name of the pair in the slot that the seat has in hand. `None` if all are given.
pub(crate) fn next_name<T: Timer>(table: &LockTable<T>, seat: &mut PassSeat<T>) -> Option<u64>
    requires table { seat.old.table_id ≡ table.now.table_id }
    requires hand { (pair : Pair T) × (seat.old.me.1 ≡ (0, Some pair) ∷ []) }
    ensures table { seat.new.table_id ≡ seat.old.table_id }
    ensures names { NamesIn result seat.old.me seat.new.me }
{
    let slot = seat.slot_mut(table, 0);
    next_name_of(slot)
}

fn next_name_of<T: Timer>(slot: &mut Option<Pair<T>>) -> Option<u64>
    requires { (pair : Pair T) × (slot.old ≡ Some pair) }
    ensures { NamesOn result slot.old slot.new }
{
    let Some(pair) = slot else { unreachable!() };
    pair.give_name()
}

/// Cuts a note of what a seat has seen off it. The seat is at rest, and stays as it is.
pub(crate) fn cut_note<T: Timer>(table: &LockTable<T>, seat: &mut PassSeat<T>) -> PassSeat<T>
    requires lock { HasOneWord table.now.table_id }
    requires table { seat.old.table_id ≡ table.now.table_id }
    requires rest { AtRest seat.old.table_id seat.old.me }
    ensures table { seat.new.table_id ≡ seat.old.table_id }
    ensures same { seat.new.me ≡ seat.old.me }
    ensures note_table { result.table_id ≡ table.now.table_id }
    ensures note { result.me ≡ (note_of seat.old.me.0, []) }
{
    table.split_seat::<Noting>(seat)
}

/// Lets a seat, which is at rest, learn what a note tells.
pub(crate) fn learn<T: Timer>(table: &LockTable<T>, seat: &mut PassSeat<T>, note: PassSeat<T>)
    requires lock { HasOneWord table.now.table_id }
    requires table { seat.old.table_id ≡ table.now.table_id }
    requires rest { AtRest seat.old.table_id seat.old.me }
    requires note_table { note.table_id ≡ table.now.table_id }
    requires note { IsNote note.me }
    ensures table { seat.new.table_id ≡ seat.old.table_id }
    ensures learned { HasLearned seat.old.me.0 note.me.0 seat.new.me }
{
    table.join_seat::<Compare>(seat, note);
    table.load::<Learn>(seat, 0);
}

/// Moves the pair out of the slot that the seat has in hand.
pub(crate) fn take_out<T: Timer>(table: &LockTable<T>, seat: &mut PassSeat<T>) -> Pair<T>
    requires table { seat.old.table_id ≡ table.now.table_id }
    requires hand { (pair : Pair T) × (seat.old.me.1 ≡ (0, Some pair) ∷ []) }
    ensures table { seat.new.table_id ≡ seat.old.table_id }
    ensures out { seat.old.me.1 ≡ (0, Some result) ∷ [] }
    ensures empty { seat.new.me ≡ (seat.old.me.0, (0, None) ∷ []) }
    ensures legal { IsLegal result.kept.opening result.kept.history }
    ensures fits { length result.kept.history ≤ result.kept.capacity }
{
    let pair = table.exchange(seat, 0, None).unwrap();
    // For the proof: the history is legal and has room.
    let _ = pair.kept.history();
    let _ = pair.kept.capacity();
    pair
}

/// Moves a pair into the slot that the seat has in hand, which is empty.
pub(crate) fn put_back<T: Timer>(table: &LockTable<T>, seat: &mut PassSeat<T>, pair: Pair<T>)
    requires table { seat.old.table_id ≡ table.now.table_id }
    requires empty { seat.old.me.1 ≡ (0, None) ∷ [] }
    ensures table { seat.new.table_id ≡ seat.old.table_id }
    ensures back { seat.new.me ≡ (seat.old.me.0, (0, Some pair) ∷ []) }
{
    drop(table.exchange(seat, 0, Some(pair)));
}
