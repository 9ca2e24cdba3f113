ghost use Rattle.std.specs.Prelude.{◌≡◌, ◌<◌, Some, IfSome, length, slice_set};
ghost use Rattle.rb_wheel.specs.Wheel.{LieRight, MaySpread, StillWait};
ghost use Rattle.rb_wheel.specs.WheelLinks.{head_at, cells_of, expiries_of, with_put, AreSoundLists};

use crate::cells::{CELLS, cell_of};
use crate::marks::Marks;
use crate::node::{Node, set_previous};
use rb_timer::optional_index::OptionalIndex;

/// Puts a slot first in the list of a cell, whatever its own place was.
pub(crate) fn put_first(heads: &mut [OptionalIndex], nodes: &mut [Node], slot: usize, cell: usize)
    requires in_heads { cell < length heads.old }
    requires in_wheel { cell < CELLS }
    requires in_room { slot < length nodes.old }
    requires first_in_room { IfSome (head_at heads.old cell) (λ first. first < length nodes.old) }
    ensures heads { heads.new ≡ slice_set heads.old cell (Some slot) }
    ensures nodes { nodes.new ≡ with_put heads.old nodes.old cell slot }
{
    let next = heads[cell];
    let link = OptionalIndex::some(slot);
    set_previous(nodes, next, link);
    nodes[slot].put_first(cell, next);
    heads[cell] = link;
}

/// Moves the slots of a cell to the lower cells where they belong, now that the base has entered it,
/// and marks these as waiting.
///
/// The list is taken off as a whole, so each of its slots is linked only once.
pub(crate) fn spread(
    heads: &mut [OptionalIndex],
    nodes: &mut [Node],
    waiting: &mut Marks,
    base: u64,
    cell: usize,
)
    requires sound { AreSoundLists heads.old nodes.old }
    requires in_heads { cell < length heads.old }
    requires may { MaySpread base cell (expiries_of nodes.old) (cells_of nodes.old) }
    ensures sound { AreSoundLists heads.new nodes.new }
    ensures expiries { expiries_of nodes.new ≡ expiries_of nodes.old }
    ensures right { LieRight base (expiries_of nodes.old) (cells_of nodes.new) }
    ensures room { length (cells_of nodes.new) ≡ length (cells_of nodes.old) }
    ensures waits { StillWait waiting.old (cells_of nodes.old) waiting.new (cells_of nodes.new) }
{
    let mut rest = heads[cell].take();
    while let Some(slot) = rest {
        let node = nodes[slot];
        rest = node.next.as_option();
        let lower = cell_of(base, node.expiry);
        put_first(heads, nodes, slot, lower);
        waiting.insert(lower);
    }
}
