ghost use Rattle.std.specs.Prelude.{◌≡◌, ◌<◌, Some, None, IfSome, length};
ghost use Rattle.rb_wheel.specs.Nodes.{vacant, expiry_of, with_next, with_previous};

use crate::cells::CELLS;
use rb_timer::optional_index::OptionalIndex;

/// What a slot of the room holds: its entry's expiry, if it has one, and where the slot lies.
#[derive(Clone, Copy, Debug)]
pub(crate) struct Node {
    // In nanoseconds. It means nothing if the slot has no entry.
    pub(crate) expiry: u64,
    // The neighbours in the list of the cell.
    pub(crate) next: OptionalIndex,
    pub(crate) previous: OptionalIndex,
    // The cell that the slot lies in.
    pub(crate) cell: Option<u16>,
    // Whether the slot has an entry.
    pub(crate) is_taken: bool,
}

// Two nodes share a cache line.
const _: () = prove!(size_of::<Node>() == 32);

impl Node {
    /// A slot with no entry, which lies in no cell.
    pub(crate) fn vacant() -> Self
        ensures { result ≡ vacant }
    {
        Node {
            expiry: 0,
            next: OptionalIndex::none(),
            previous: OptionalIndex::none(),
            cell: None,
            is_taken: false,
        }
    }

    /// The expiry of the slot's entry, if it has one.
    pub(crate) fn expiry(&self) -> Option<u64>
        ensures { result ≡ expiry_of self.now }
    {
        if self.is_taken {
            Some(self.expiry)
        } else {
            None
        }
    }

    /// Puts the slot first in the list of a cell, before `next`.
    pub(crate) fn put_first(&mut self, cell: usize, next: OptionalIndex)
        requires { cell < CELLS }
        ensures { self.new ≡ record self.old { next = next; previous = None; cell = Some cell } }
    {
        self.next = next;
        self.previous = OptionalIndex::none();
        self.cell = Some(cell as u16);
    }

    /// Takes the slot out of its cell.
    pub(crate) fn take_out(&mut self)
        ensures { self.new ≡ record self.old { next = None; previous = None; cell = None } }
    {
        self.next = OptionalIndex::none();
        self.previous = OptionalIndex::none();
        self.cell = None;
    }
}

/// Notes what precedes the slot, if there is a slot.
pub(crate) fn set_previous(nodes: &mut [Node], slot: OptionalIndex, previous: OptionalIndex)
    requires { IfSome slot (λ slot. slot < length nodes.old) }
    ensures { nodes.new ≡ with_previous nodes.old slot previous }
{
    if let Some(slot) = slot.as_option() {
        nodes[slot].previous = previous;
    }
}

/// Notes what follows the slot, if there is a slot.
pub(crate) fn set_next(nodes: &mut [Node], slot: OptionalIndex, next: OptionalIndex)
    requires { IfSome slot (λ slot. slot < length nodes.old) }
    ensures { nodes.new ≡ with_next nodes.old slot next }
{
    if let Some(slot) = slot.as_option() {
        nodes[slot].next = next;
    }
}
