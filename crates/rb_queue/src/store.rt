ghost use Rattle.std.specs.Prelude.{◌≡◌, ℕ, Some, None, IfSome, IfNone, OnOk, OnErr};
ghost use Rattle.std.specs.FinMap as map;
ghost use Rattle.rb_queue.specs.Bag.{NoneExpired};
ghost use Rattle.rb_queue.specs.Head.{IsHead, IsLeast, IsNextExpiry};
ghost use Rattle.std.specs.Prelude.{MatchOption};
ghost use Rattle.rb_timer.specs.Content.{Content};
ghost use Rattle.rb_queue.specs.Filing.{IsFiled};

use indexmap::IndexMap;
use rb_delayed::{Delayed, Element};
use rb_timer::{Timer, clears_one_by_one};
use slab::Slab;
use std::alloc::{AllocError, Global};
use std::marker::Model;

/// The elements of a queue, found by id and by expiry.
///
/// Each element lies in a slot. The timer knows the expiry at each slot, and the directory the slot
/// of each id: all three have an entry for exactly the same elements. Only `insert` takes memory.
#[derive(Drop)]
pub(crate) struct Store<T: Timer> {
    elements: Slab<Element>,
    timer: T,
    directory: IndexMap<u64, usize>,
}

impl<T: Timer> Model for Store<T> {
    ghost use Rattle.rb_queue.specs.Bag.{Bag};
    ghost use Rattle.rb_queue.specs.Queue.{bag_code};

    ghost Value = { Bag };

    ghost coded = { bag_code };

    ghost use Rattle.rb_queue.specs.Filing.{bag_of, IsFiled};

    ghost view = { λ s. bag_of s.elements.slots };

    ghost invariant = { λ s. IsFiled s.elements (T.content s.timer) s.directory };
}

impl<T: Timer> Store<T> {
    /// An empty store, which takes no memory.
    pub(crate) fn new(alloc: Global) -> Self
        ensures { result ≡ map.empty }
    {
        Store {
            elements: Slab::new(alloc),
            timer: T::new(alloc),
            directory: IndexMap::new(alloc),
        }
    }

    /// Inserts an element under its id, which no element here has.
    ///
    /// All memory is taken before anything changes: on `Err` there was not enough, and the store is
    /// unchanged.
    pub(crate) fn insert(&mut self, element: &Element) -> Result<(), AllocError>
        requires { map.get self.old element.now.id ≡ None }
        ensures ok { OnOk result (self.new ≡ map.insert self.old element.now.id element.now) }
        ensures err { OnErr result (self.new ≡ self.old) }
    {
        self.elements.reserve(1)?;
        let capacity = self.elements.capacity();
        self.timer.reserve(capacity)?;
        self.directory.reserve(1)?;
        let slot = self.elements.insert_reserved(*element);
        self.timer.insert(slot, element.expiry());
        self.directory.insert(element.id(), slot).unwrap();
        Ok(())
    }

    /// Takes out an element of least expiry that has expired at `now`. `None` exactly if none has
    /// expired.
    pub(crate) fn remove_due(&mut self, now: u64) -> Option<Element>
        ensures none { IfNone result (NoneExpired self.old now) }
        ensures head { IfSome result (IsHead self.old now) }
        ensures removed { IfSome result (λ element. self.new ≡ map.remove self.old element.id) }
        ensures same { IfNone result (self.new ≡ self.old) }
    {
        let (slot, _) = self.timer.due(now)?;
        self.timer.remove(slot);
        let element = self.elements.remove(slot);
        self.directory.swap_remove(&element.id);
        Some(element)
    }

    /// Takes out the element of the id, if there is one.
    // A removal spends its time here, and a call that is not inlined copies the element.
    #[inline(always)]
    pub(crate) fn remove(&mut self, id: u64) -> Option<Element>
        ensures element { result ≡ map.get self.old id }
        ensures removed { self.new ≡ map.remove self.old id }
    {
        let slot = self.directory.swap_remove(&id)?;
        self.timer.remove(slot);
        Some(self.elements.remove(slot))
    }

    /// An element of least expiry. `None` exactly if the store is empty.
    pub(crate) fn least(&self) -> Option<Element>
        ensures { MatchOption result (self.now ≡ map.empty) (IsLeast self.now) }
    {
        let (slot, _) = self.timer.least()?;
        self.elements.get(slot).copied()
    }

    /// The least expiry, in nanoseconds. `None` exactly if the store is empty.
    pub(crate) fn least_expiry(&self) -> Option<u64>
        ensures { IsNextExpiry self.now result }
    {
        let (_, expiry) = self.timer.least()?;
        Some(expiry)
    }

    /// The number of elements.
    pub(crate) fn len(&self) -> usize
        ensures { result ≡ map.len self.now }
    {
        self.elements.len()
    }

    /// Discards all elements. The cost grows with their number, not with the room or with how many there
    /// once were.
    pub(crate) fn clear(&mut self)
        ensures { self.new ≡ map.empty }
    {
        discard_all(&mut self.elements, &mut self.directory);
        self.timer.clear();
    }
}

// Discards the elements in all slots, and their ids. Their order does not matter, so the timer is not
// asked for it, and clears itself.
fn discard_all(elements: &mut Slab<Element>, directory: &mut IndexMap<u64, usize>)
    requires { (content : Content) × IsFiled elements.old content directory.old }
    ensures { IsFiled elements.new map.empty directory.new }
{
    if clears_one_by_one(elements.len(), elements.capacity()) {
        while let Some((_, slot)) = directory.pop() {
            elements.remove(slot);
        }
    } else {
        elements.clear();
        directory.clear();
    }
}
