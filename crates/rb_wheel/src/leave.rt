ghost use Rattle.std.specs.Prelude.{◌≡◌, ◌≢◌, ◌<◌, ℕ, Some, None, length};
ghost use Rattle.std.specs.FinMap as map;
ghost use Rattle.rb_wheel.specs.Lists.{cell_at};
ghost use Rattle.rb_wheel.specs.Wheel.{LiesRight, Waits, IsSameElsewhere};

use crate::cells::cell_of;
use crate::lists::Lists;
use crate::marks::Marks;
use rb_timer::Timer;

/// Takes the entry at a slot out of a timer, if it has one there. An empty timer is not asked, since what
/// it has at a slot is seldom in the cache.
pub(crate) fn take_out<E: Timer>(early: &mut E, slot: usize)
    ensures here { map.get (E.content early.new) slot ≡ None }
    ensures others { IsSameElsewhere slot (E.content early.old) (E.content early.new) }
    ensures room { E.room early.new ≡ E.room early.old }
{
    if early.len() == 0 {
        return;
    }
    if early.get(slot).is_some() {
        early.remove(slot);
    }
}

/// Takes a slot out of its cell, if its entry lay in one. A cell that holds no other slot waits no longer,
/// and is not walked over.
pub(crate) fn leave_cell(
    lists: &mut Lists,
    waiting: &mut Marks,
    walked: &mut Marks,
    base: u64,
    slot: usize,
    expiry: u64,
)
    requires in_room { slot < length lists.old.cells }
    requires lies { LiesRight base (Some expiry) (cell_at lists.old.cells slot) }
    ensures expiries { lists.new.expiries ≡ lists.old.expiries }
    ensures room { length lists.new.cells ≡ length lists.old.cells }
    ensures here { cell_at lists.new.cells slot ≡ None }
    ensures others { (other : ℕ) → other ≢ slot → cell_at lists.new.cells other ≡ cell_at lists.old.cells other }
    ensures waits { (other : ℕ) → other ≢ slot → Waits waiting.old (cell_at lists.old.cells other)
        → Waits waiting.new (cell_at lists.old.cells other) }
{
    if expiry < base {
        return;
    }
    lists.remove(slot);
    let cell = cell_of(base, expiry);
    if lists.first_in(cell).is_none() {
        waiting.remove(cell);
        walked.remove(cell);
    }
}
