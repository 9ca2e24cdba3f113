ghost use Rattle.std.specs.Prelude.{◌≡◌, ◌≢◌, ◌<◌, ◌≤◌, ℕ, Some, None, length, MatchOption};
ghost use Rattle.rb_wheel.specs.declared.cells.TheConstants.{CELLS};
ghost use Rattle.rb_wheel.specs.Lists.{cell_at, IsVacant, IsLeastIn, HasExpiries};
ghost use Rattle.rb_wheel.specs.Wheel.{LieRight, Stand, AreCopies, IsThere, AreStillThere, ExpireTogether, IsFirst};

use crate::cells::DIGITS;
use crate::lists::Lists;
use crate::marks::Marks;
use rb_timer::Timer;

/// The first entry after a slot's was taken out: the one so far or, if that was this one, the next.
pub(crate) fn first_without<E: Timer>(
    lists: &Lists,
    early: &mut E,
    waiting: &mut Marks,
    walked: &mut Marks,
    base: u64,
    first: Option<(usize, u64)>,
    slot: usize,
) -> Option<(usize, u64)>
    requires right { LieRight base lists.now.expiries lists.now.cells }
    requires stand { Stand lists.now.expiries lists.now.cells (E.content early.old) waiting.old }
    requires in_room { length lists.now.expiries ≤ E.room early.old }
    requires others { MatchOption first (IsFirst lists.now.expiries (E.content early.old) None)
        (λ entry. entry.0 ≢ slot → IsFirst lists.now.expiries (E.content early.old) (Some entry)) }
    ensures stand { Stand lists.now.expiries lists.now.cells (E.content early.new) waiting.new }
    ensures room { E.room early.new ≡ E.room early.old }
    ensures first { IsFirst lists.now.expiries (E.content early.new) result }
{
    match first {
        Some((other, _)) if other == slot => next_first(lists, early, waiting, walked, base),
        _ => first,
    }
}

/// Finds an entry of least expiry among those that stand in cells alone.
///
/// It lies in the first waiting cell. A cell that is searched for the first time is walked over. One
/// that is searched again is put into `early`, and waits no longer, so that no cell is walked over a third
/// time, whatever leaves it. On the lowest level all expire together, and one step finds the least.
fn next_first<E: Timer>(
    lists: &Lists,
    early: &mut E,
    waiting: &mut Marks,
    walked: &mut Marks,
    base: u64,
) -> Option<(usize, u64)>
    requires right { LieRight base lists.now.expiries lists.now.cells }
    requires stand { Stand lists.now.expiries lists.now.cells (E.content early.old) waiting.old }
    requires in_room { length lists.now.expiries ≤ E.room early.old }
    ensures stand { Stand lists.now.expiries lists.now.cells (E.content early.new) waiting.new }
    ensures room { E.room early.new ≡ E.room early.old }
    ensures first { IsFirst lists.now.expiries (E.content early.new) result }
{
    while let Some(cell) = waiting.first() {
        if let Some(entry) = least_or_copied(lists, early, walked, cell) {
            return Some(entry);
        }
        waiting.remove(cell);
        walked.remove(cell);
    }
    None
}

// An entry of least expiry among those of the cell, or none if all of these are now in `early`.
fn least_or_copied<E: Timer>(
    lists: &Lists,
    early: &mut E,
    walked: &mut Marks,
    cell: usize,
) -> Option<(usize, u64)>
    requires in_wheel { cell < CELLS }
    requires expiries { HasExpiries lists.now.cells lists.now.expiries cell }
    requires together { cell < DIGITS → ExpireTogether lists.now.expiries lists.now.cells cell }
    requires in_room { length lists.now.expiries ≤ E.room early.old }
    requires copies { AreCopies lists.now.expiries (E.content early.old) }
    ensures copies { AreCopies lists.now.expiries (E.content early.new) }
    ensures kept { AreStillThere lists.now.expiries (E.content early.old) (E.content early.new) }
    ensures room { E.room early.new ≡ E.room early.old }
    ensures least { MatchOption result
        ((slot : ℕ) → cell_at lists.now.cells slot ≡ Some cell → IsThere lists.now.expiries (E.content early.new) slot)
        (λ entry. IsLeastIn lists.now.cells lists.now.expiries cell entry.0 entry.1) }
{
    if cell < DIGITS {
        return one_in(lists, cell);
    }
    if walked.contains(cell) {
        lists.copy_into(early, cell);
        return None;
    }
    walked.insert(cell);
    lists.least_in(cell)
}

// An entry of the cell, on the lowest level, where all expire together.
fn one_in(lists: &Lists, cell: usize) -> Option<(usize, u64)>
    requires expiries { HasExpiries lists.now.cells lists.now.expiries cell }
    requires together { ExpireTogether lists.now.expiries lists.now.cells cell }
    ensures { MatchOption result (IsVacant lists.now.cells cell)
        (λ entry. IsLeastIn lists.now.cells lists.now.expiries cell entry.0 entry.1) }
{
    let slot = lists.first_in(cell)?;
    Some((slot, lists.expiry(slot).unwrap()))
}
