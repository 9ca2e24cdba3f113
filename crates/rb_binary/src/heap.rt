ghost use Rattle.std.specs.Prelude.{◌≡◌, ℕ, ◌+◌, ◌*◌, ◌-◌, ◌/◌, ◌<◌, ◌≤◌, None, Some, length, replicate, slice_set};
ghost use Rattle.rb_binary.specs.Layout.{Agrees, slot_at, IsPutAt, IsOrderedBut, MayRise, MaySink, IsLeastChild, Sifts};

use rb_timer::optional_index::OptionalIndex;

/// A slot and its expiry, in nanoseconds.
#[derive(Clone, Copy, Debug)]
pub(crate) struct Entry {
    pub(crate) slot: usize,
    pub(crate) expiry: u64,
}

// Puts the entry at this place, and notes the place at its slot.
fn put(heap: &mut [Entry], places: &mut [OptionalIndex], place: usize, entry: Entry)
    requires in_heap { place < length heap.old }
    requires in_room { entry.slot < length places.old }
    ensures heap { heap.new ≡ slice_set heap.old place entry }
    ensures places { places.new ≡ slice_set places.old entry.slot (Some place) }
{
    heap[place] = entry;
    places[entry.slot] = OptionalIndex::some(place);
}

/// Moves the entry up until it does not expire before its parent.
///
/// Its place need not have been noted.
pub(crate) fn sift_up(heap: &mut [Entry], places: &mut [OptionalIndex], mut place: usize)
    requires put { IsPutAt heap.old places.old place }
    requires ordered { MayRise heap.old place }
    ensures { Sifts heap.old places.old place heap.new places.new }
{
    let entry = heap[place];
    while place > 0 {
        let parent = (place - 1) / 2;
        let above = heap[parent];
        if above.expiry <= entry.expiry {
            break;
        }
        put(heap, places, place, above);
        place = parent;
    }
    put(heap, places, place, entry);
}

// Moves the entry down until no child expires before it. Its place need not have been noted.
fn sift_down(heap: &mut [Entry], places: &mut [OptionalIndex], mut place: usize)
    requires put { IsPutAt heap.old places.old place }
    requires ordered { MaySink heap.old place }
    ensures { Sifts heap.old places.old place heap.new places.new }
{
    let entry = heap[place];
    while place < heap.len() / 2 {
        let child = least_child(heap, place);
        let below = heap[child];
        if entry.expiry <= below.expiry {
            break;
        }
        put(heap, places, place, below);
        place = child;
    }
    put(heap, places, place, entry);
}

// The child that expires first.
fn least_child(heap: &[Entry], place: usize) -> usize
    requires { 2 * place + 1 < length heap.now }
    ensures { IsLeastChild heap.now place result }
{
    let left = 2 * place + 1;
    let right = left + 1;
    let is_right = right < heap.len() && heap[right].expiry < heap[left].expiry;
    // Not a branch, which a processor would mispredict every other time.
    left + usize::from(is_right)
}

/// Moves the entry up or down to where it belongs. Its place need not have been noted.
pub(crate) fn sift(heap: &mut [Entry], places: &mut [OptionalIndex], place: usize)
    requires put { IsPutAt heap.old places.old place }
    requires ordered { IsOrderedBut heap.old place }
    ensures { Sifts heap.old places.old place heap.new places.new }
{
    if place > 0 && heap[place].expiry < heap[(place - 1) / 2].expiry {
        sift_up(heap, places, place);
    } else {
        sift_down(heap, places, place);
    }
}

/// Notes at each slot that it has no entry. The cost grows with the entries, not with the room.
pub(crate) fn forget_all(heap: &[Entry], places: &mut [OptionalIndex])
    requires { Agrees heap.now places.old }
    ensures { places.new ≡ replicate (length places.old) None }
{
    for entry in heap {
        places[entry.slot] = OptionalIndex::none();
    }
}
