ghost use Rattle.std.specs.Prelude.{◌≡◌, ◌≤◌, ℕ, IsSome, IfSome, length, max, min};
ghost use Rattle.rb_wheel.specs.Lists.{cell_at, slot_expiry};
ghost use Rattle.rb_wheel.specs.Wheel.{LieRight, StillWait};

use crate::cells::{DIGITS, cell_of};
use crate::lists::Lists;
use crate::marks::Marks;

/// Moves the base up to `now`, or to the least expiry if that is earlier, and spreads the cell that the
/// base has entered over lower levels. That cell then holds nothing, so it waits no longer, and is not
/// walked over.
pub(crate) fn advance(
    lists: &mut Lists,
    waiting: &mut Marks,
    walked: &mut Marks,
    base: &mut u64,
    now: u64,
    least: u64,
)
    requires right { LieRight base.old lists.old.expiries lists.old.cells }
    requires least { (slot : ℕ) → IsSome (cell_at lists.old.cells slot)
        → IfSome (slot_expiry lists.old.expiries slot) (λ expiry. least ≤ expiry) }
    ensures base { base.new ≡ max base.old (min now least) }
    ensures expiries { lists.new.expiries ≡ lists.old.expiries }
    ensures right { LieRight base.new lists.old.expiries lists.new.cells }
    ensures room { length lists.new.cells ≡ length lists.old.cells }
    ensures waits { StillWait waiting.old lists.old.cells waiting.new lists.new.cells }
{
    let next = now.min(least);
    if next <= *base {
        return;
    }
    let cell = cell_of(*base, next);
    *base = next;
    if cell >= DIGITS && lists.first_in(cell).is_some() {
        lists.spread(waiting, next, cell);
        waiting.remove(cell);
        walked.remove(cell);
    }
}
