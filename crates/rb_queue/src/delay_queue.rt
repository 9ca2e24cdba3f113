ghost use Rattle.std.specs.Prelude.{◌≡◌, ◌<◌, ◌≤◌, ℕ, length, Some, IfSome, IfOk, OnErr};
ghost use Rattle.std.specs.FinMap as map;
ghost use Rattle.rb_queue.specs.Queue.{empty_queue};
ghost use Rattle.rb_queue.specs.Opening.{ids_of};
ghost use Rattle.rb_queue.specs.Draft.{IsDrafted};
ghost use Rattle.rb_queue.specs.Head.{IsNextExpiry};
ghost use Rattle.rb_queue.specs.History.{opening_queue};
ghost use Rattle.rb_queue.specs.Replies.{elements_in};
ghost use Rattle.rb_queue.specs.Calls.{Acts, id_of};
ghost use Rattle.rb_queue.specs.declared.act.Act.TheVariants as acts;

use crate::draft::Draft;
use crate::opening::Opening;
use crate::sequence::Items;
use crate::store::Store;
use rb_delayed::Element;
use rb_timer::Timer;
use std::alloc::{AllocError, Global};
use std::marker::Model;

/// A delay queue over any timer, like `DelayQueue` (Java SE 17), for one thread.
///
/// Only `new_from`, `offer` and `drain` take memory.
///
/// What a call costs: `offer`, `poll` and `remove` change the timer once, and besides that cost a
/// constant on average. An offer that finds no room doubles it, which moves all elements. `drain`
/// costs a poll for each element that it takes, and one more. `peek` and `next_expiry` cost the
/// timer's `least`, and `size` and `next_id` a constant. `clear` costs a removal for each element if
/// they are few beside the room, and one pass over the room otherwise. `new_from` costs an offer
/// for each element. These costs are not part of the contract.
#[derive(Drop)]
pub struct DelayQueue<T: Timer> {
    store: Store<T>,
    next_id: u64,
    alloc: Global,
}

impl<T: Timer> Model for DelayQueue<T> {
    ghost use Rattle.rb_queue.specs.Queue.{Queue, queue_code};

    ghost Value = { Queue };

    ghost coded = { queue_code };

    ghost use Rattle.rb_queue.specs.Filing.{AreBelow};

    ghost view = { λ q. record { bag = q.store; next_id = q.next_id } };

    ghost invariant = { λ q. AreBelow q.store q.next_id };
}

impl<T: Timer> DelayQueue<T> {
    /// An empty queue, whose ids begin at 0. It takes no memory until the first offer.
    pub fn new(alloc: Global) -> Self
        ensures { result ≡ empty_queue }
    {
        DelayQueue {
            store: Store::new(alloc),
            next_id: 0,
            alloc,
        }
    }

    /// The queue with which a run of this opening begins. It takes memory for each element. `Err` means
    /// that there was not enough.
    pub fn new_from(alloc: Global, opening: &Opening) -> Result<Self, AllocError>
        ensures { IfOk result (λ queue. queue ≡ opening_queue opening.now) }
    {
        let mut store = Store::new(alloc);
        for element in opening.elements.as_slice() {
            store.insert(element)?;
        }
        Ok(DelayQueue {
            store,
            next_id: opening.next_id,
            alloc,
        })
    }

    /// Inserts an element under the next id, like `DelayQueue.offer`, and returns it. It never waits.
    ///
    /// All memory is taken before anything changes: on `Err` there was not enough, and the queue is
    /// unchanged. It requires that an id is left, so that the next id is below 2^64 - 1.
    pub fn offer(&mut self, draft: Draft) -> Result<Element, AllocError>
        requires { self.old.next_id < u64.MAX }
        ensures offers { IfOk result (λ element. (now : ℕ) → Acts self.old now (acts.Offer element) self.new) }
        ensures drafted { IfOk result (IsDrafted draft) }
        ensures err { OnErr result (self.new ≡ self.old) }
    {
        let element = draft.element(self.next_id);
        self.store.insert(&element)?;
        self.next_id += 1;
        Ok(element)
    }

    /// Takes out the head, an element of least expiry that has expired at `now`, like
    /// `DelayQueue.poll`. `None` exactly if nothing has expired.
    pub fn poll(&mut self, now: u64) -> Option<Element>
        ensures polls { Acts self.old now (acts.Poll (id_of result)) self.new }
        ensures element { IfSome result (λ element. map.get self.old.bag element.id ≡ Some element) }
    {
        self.store.remove_due(now)
    }

    /// An element of least expiry, expired or not, which stays in the queue. `None` exactly if the
    /// queue is empty.
    ///
    /// Like `DelayQueue.peek`, except that any element of least expiry may be shown.
    pub fn peek(&self) -> Option<Element>
        ensures peeks { (now : ℕ) → Acts self.now now (acts.Peek (id_of result)) self.now }
        ensures element { IfSome result (λ element. map.get self.now.bag element.id ≡ Some element) }
    {
        self.store.least()
    }

    /// Takes out the element of this id, expired or not, like `DelayQueue.remove`, and returns
    /// whether there was one.
    pub fn remove(&mut self, id: u64) -> bool
        ensures { (now : ℕ) → Acts self.old now (acts.Remove id result) self.new }
    {
        self.store.remove(id).is_some()
    }

    /// Takes out heads one after the other, at most `max`, while one has expired at `now`, like
    /// `DelayQueue.drainTo`, and returns them in that order.
    ///
    /// It first takes memory for `max` elements, or for all if that is fewer. On `Err` there was not
    /// enough, and the queue is unchanged.
    pub fn drain(&mut self, now: u64, max: u64) -> Result<Items, AllocError>
        ensures drains { IfOk result (λ items. Acts self.old now (acts.Drain max (ids_of items)) self.new) }
        ensures elements { IfOk result (λ items. elements_in self.old.bag (ids_of items) ≡ Some items) }
        ensures few { IfOk result (λ items. length items ≤ map.len self.old.bag) }
        ensures err { OnErr result (self.new ≡ self.old) }
    {
        let most = max.min(self.size()) as usize;
        let mut items = Vec::with_capacity(self.alloc, most)?;
        for _ in 0..max {
            let Some(element) = self.poll(now) else {
                break;
            };
            items.push_reserved(element);
        }
        Ok(Items::new(items))
    }

    /// Discards all elements, unexpired ones too, like `DelayQueue.clear`. The next id stays the same.
    pub fn clear(&mut self)
        ensures { (now : ℕ) → Acts self.old now acts.Clear self.new }
    {
        self.store.clear();
    }

    /// The number of elements, expired and unexpired, like `DelayQueue.size`.
    pub fn size(&self) -> u64
        ensures { (now : ℕ) → Acts self.now now (acts.Size result) self.now }
    {
        self.store.len() as u64
    }

    /// The id that the next offer gets.
    pub fn next_id(&self) -> u64
        ensures { result ≡ self.now.next_id }
    {
        self.next_id
    }

    /// The least expiry, in nanoseconds. `None` exactly if the queue is empty.
    pub fn next_expiry(&self) -> Option<u64>
        ensures { IsNextExpiry self.now.bag result }
    {
        self.store.least_expiry()
    }
}
