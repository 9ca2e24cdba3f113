ghost use Rattle.std.specs.Prelude.{◌≡◌, ◌<◌, length, IfOk, OnOk, IfSome};
ghost use Rattle.std.specs.Ordering.{nat_cmp};
ghost use Rattle.std.specs.BTreeMap as tree;
ghost use Rattle.std.specs.FinMap as map;
ghost use Rattle.rb_queue.specs.Bag.{bag_from};
ghost use Rattle.rb_queue.specs.Opening.{AreInOrder};
ghost use Rattle.rb_replay.specs.ReplayedQueue.{HasElements};
ghost use Rattle.rb_queue.specs.Head.{IsNextExpiry};
ghost use Rattle.rb_queue.specs.History.{opening_queue};
ghost use Rattle.rb_queue.specs.Calls.{Acts};
ghost use Rattle.rb_queue.specs.Effect.{effect_of, queue_after};
ghost use Rattle.rb_queue.specs.declared.act.Act.TheVariants as acts;

use rb_binary::BinaryTimer;
use rb_delayed::Element;
use rb_queue::{DelayQueue, Draft, Items, Opening};
use std::alloc::{AllocError, Global};
use std::collections::BTreeMap;
use std::marker::Model;

/// The queue that a history leads to.
///
/// The queue finds the least expiry, and the map finds the element of an id. Both have the same elements.
#[derive(Drop)]
pub(crate) struct ReplayedQueue {
    queue: DelayQueue<BinaryTimer>,
    elements: BTreeMap<u64, Element>,
    alloc: Global,
}

impl Model for ReplayedQueue {
    ghost use Rattle.rb_queue.specs.Queue.{Queue, queue_code};

    ghost Value = { Queue };

    ghost coded = { queue_code };

    ghost use Rattle.rb_replay.specs.ReplayedQueue.{HasElements};

    ghost view = { λ s. s.queue };

    ghost invariant = { λ s. HasElements s.queue.bag s.queue.next_id s.elements };
}

impl ReplayedQueue {
    /// The queue before the first event.
    pub(crate) fn new_from(alloc: Global, opening: &Opening) -> Result<Self, AllocError>
        ensures { IfOk result (λ queue. queue ≡ opening_queue opening.now) }
    {
        let queue = DelayQueue::new_from(alloc, opening)?;
        let elements = elements_of(alloc, opening.elements.as_slice(), opening.next_id)?;
        Ok(ReplayedQueue {
            queue,
            elements,
            alloc,
        })
    }

    /// The id that the next offer gets.
    pub(crate) fn next_id(&self) -> u64
        ensures { result ≡ self.now.next_id }
    {
        self.queue.next_id()
    }

    /// The number of elements.
    pub(crate) fn size(&self) -> u64
        ensures { result ≡ map.len self.now.bag }
    {
        self.queue.size()
    }

    /// The least expiry, in nanoseconds. `None` exactly if the queue is empty.
    pub(crate) fn next_expiry(&self) -> Option<u64>
        ensures { IsNextExpiry self.now.bag result }
    {
        self.queue.next_expiry()
    }

    /// The element of this id, if it is in the queue.
    pub(crate) fn get(&self, id: u64) -> Option<Element>
        ensures element { result ≡ map.get self.now.bag id }
        ensures named { IfSome result (λ element. element.id ≡ id) }
    {
        self.elements.get(&id).copied()
    }

    /// Inserts an element under the next id. `Err` means that there was not enough memory; the queue is then
    /// empty.
    pub(crate) fn insert(&mut self, element: &Element) -> Result<(), AllocError>
        requires next { element.now.id ≡ self.old.next_id }
        requires left { self.old.next_id < u64.MAX }
        ensures { OnOk result (self.new ≡ queue_after self.old (effect_of (acts.Offer element.now))) }
    {
        let draft = Draft {
            expiry: element.expiry,
            origin: Some(element.origin),
            first: Some(element.first),
            attempt: element.attempt,
            payload: element.payload,
        };
        let filed = self.elements.insert(element.id, *element).is_ok();
        if filed && self.queue.offer(draft).is_ok() {
            return Ok(());
        }
        self.queue.clear();
        self.elements.clear();
        Err(AllocError)
    }

    /// Takes out the element of this id, if it is in the queue.
    pub(crate) fn remove(&mut self, id: u64)
        ensures bag { self.new.bag ≡ map.remove self.old.bag id }
        ensures next_id { self.new.next_id ≡ self.old.next_id }
    {
        self.queue.remove(id);
        self.elements.remove(&id);
    }

    /// The elements, in rising order of their ids.
    pub(crate) fn elements(&self) -> Result<Items, AllocError>
        ensures bag { IfOk result (λ items. bag_from items ≡ self.now.bag) }
        ensures order { IfOk result (λ items. AreInOrder items self.now.next_id) }
        ensures counted { IfOk result (λ items. length items ≡ map.len self.now.bag) }
    {
        Ok(Items::new(values_of(self.alloc, &self.elements)?))
    }

    /// Takes out all elements.
    pub(crate) fn clear(&mut self)
        ensures { self.new ≡ queue_after self.old (effect_of acts.Clear) }
    {
        self.queue.clear();
        self.elements.clear();
    }
}

// The elements under their ids.
fn elements_of(
    alloc: Global,
    elements: &[Element],
    end: u64,
) -> Result<BTreeMap<u64, Element>, AllocError>
    requires { AreInOrder elements.now end }
    ensures { IfOk result (HasElements (bag_from elements.now) end) }
{
    let mut map = BTreeMap::new(alloc);
    for element in elements {
        map.insert(element.id, *element)?;
    }
    Ok(map)
}

// The elements of a map, in the order of their ids.
fn values_of(alloc: Global, elements: &BTreeMap<u64, Element>) -> Result<Vec<Element>, AllocError>
    ensures values { IfOk result (λ found. found.items ≡ tree.values elements.now) }
    ensures ordered { tree.IsOrdered nat_cmp elements.now }
{
    elements.values().copied().collect(alloc)
}
