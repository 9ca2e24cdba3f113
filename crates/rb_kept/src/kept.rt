ghost use Rattle.std.specs.Prelude.{◌≡◌, ℕ, ◌+◌, ◌<◌, ◌≤◌, ◌↔◌, [], length, vec_capacity, IsErrOf, IsErrAnd, IfOk, IfErr, OnErr};
ghost use Rattle.rb_ledger.specs.Totals.{nothing};
ghost use Rattle.rb_queue.specs.History.{IsLegal, state_of};
ghost use Rattle.rb_queue.specs.Counts.{audit_of};
ghost use Rattle.rb_kept.specs.Log.{IsFull};
ghost use Rattle.rb_kept.specs.Tries.{TakesMemory, StepsTo, StepsAlong};
ghost use Rattle.rb_kept.specs.Shares.{Grows};

use crate::fault::{CallFault, NewFault};
use crate::outcome::{Outcome, Step};
use crate::perform::{Answer, Performed, perform};
use crate::tries::Try;
use rb_ledger::{Books, Tally};
use rb_queue::{Act, Ask, Audit, DelayQueue, Event, Opening, Sums, each_element_counted};
use rb_timer::Timer;
use std::alloc::{AllocError, Global};
use std::marker::Model;

/// The greatest number of calls that a history has room for.
pub const MOST_CALLS: u64 = 1_000_000;

/// A delay queue and the history of its calls, which leads from the opening to exactly this queue.
///
/// Each call that gets a reply appends one event; a refused one changes nothing. The memory for all
/// events is taken at the start, so only an offer and a drain can fail with `Memory`.
///
/// What a call costs: `act` costs what the queue's own call does, and a constant for the event and
/// the counts. A drain also copies the ids that it took, and keeps memory for just these. `run_tries`
/// costs an `act` for each try. `history`, `opening`, `capacity` and `audit` cost a constant, however
/// long the history is. These costs are not part of the contract.
#[derive(Drop)]
pub struct Kept<T: Timer> {
    queue: DelayQueue<T>,
    opening: Opening,
    history: Vec<Event>,
    capacity: u64,
    books: Books,
    sums: Sums,
    alloc: Global,
}

impl<T: Timer> Model for Kept<T> {
    ghost use Rattle.std.specs.Prelude.{vec_capacity};
    ghost use Rattle.rb_kept.specs.Log.{Log, log_code};

    ghost Value = { Log };

    ghost coded = { log_code };

    ghost use Rattle.rb_kept.specs.KeptInvariant.{IsKept};

    ghost view = { λ k. record { opening = k.opening; history = k.history.items; capacity = k.capacity } };

    ghost invariant = { λ k. IsKept k.queue
        (record { opening = k.opening; history = k.history.items; capacity = k.capacity })
        (vec_capacity k.history) k.books k.sums };
}

impl<T: Timer> Kept<T> {
    /// An empty queue with room for `capacity` calls, 1 to 1,000,000, and the first share of its
    /// totals. The memory for all events is taken at once.
    ///
    /// The faults are `BadCapacity`, exactly if the capacity is out of range, and `Memory`, if there is
    /// not enough for the events.
    pub fn new(alloc: Global, capacity: u64) -> Result<(Self, Tally), NewFault>
        ensures elements { IfOk result (λ made. made.0.opening.elements ≡ []) }
        ensures next_id { IfOk result (λ made. made.0.opening.next_id ≡ 0) }
        ensures last_at { IfOk result (λ made. made.0.opening.last_at ≡ 0) }
        ensures history { IfOk result (λ made. made.0.history ≡ []) }
        ensures capacity { IfOk result (λ made. made.0.capacity ≡ capacity) }
        ensures tally { IfOk result (λ made. made.1 ≡ nothing) }
        ensures bad_capacity { IsErrOf result NewFault.BadCapacity ↔ (¬ ((1 ≤ capacity) × (capacity ≤ MOST_CALLS))) }
    {
        match Kept::new_from(alloc, capacity, Opening::empty(alloc)) {
            Ok(made) => Ok(made),
            Err((_, fault)) => Err(fault),
        }
    }

    /// The queue of an opening, with room for `capacity` calls, 1 to 1,000,000, and the first share of
    /// its totals. The memory for the elements and for all events is taken at once.
    ///
    /// The faults are `BadCapacity`, exactly if the capacity is out of range, and `Memory`, if there is
    /// not enough for the elements or the events. Both hand the opening back.
    pub fn new_from(
        alloc: Global,
        capacity: u64,
        opening: Opening,
    ) -> Result<(Self, Tally), (Opening, NewFault)>
        ensures opening { IfOk result (λ made. made.0.opening ≡ opening) }
        ensures history { IfOk result (λ made. made.0.history ≡ []) }
        ensures capacity { IfOk result (λ made. made.0.capacity ≡ capacity) }
        ensures tally { IfOk result (λ made. made.1 ≡ nothing) }
        ensures bad_capacity { IsErrAnd result (λ refused. refused.1 ≡ NewFault.BadCapacity)
            ↔ (¬ ((1 ≤ capacity) × (capacity ≤ MOST_CALLS))) }
        ensures handed_back { IfErr result (λ refused. refused.0 ≡ opening) }
    {
        if !(1..=MOST_CALLS).contains(&capacity) {
            return Err((opening, NewFault::BadCapacity));
        }
        let Ok(history) = Vec::with_capacity(alloc, capacity as usize) else {
            return Err((opening, NewFault::Memory));
        };
        let Ok(queue) = DelayQueue::new_from(alloc, &opening) else {
            return Err((opening, NewFault::Memory));
        };
        let (books, tally) = Books::new();
        let kept = Kept {
            queue,
            opening,
            history,
            capacity,
            books,
            sums: Sums::NONE,
            alloc,
        };
        Ok((kept, tally))
    }

    /// Fills the history's room once, before the first call, and empties it again. So the system finds the memory for
    /// all events now, and not in the middle of calls for which others wait.
    pub fn touch_room(&mut self)
        requires { self.old.history ≡ [] }
        ensures { self.new ≡ self.old }
    {
        touch(&mut self.history, self.capacity);
    }

    /// Makes one call for a seat, at the later of the moment `asked`, in nanoseconds, and that of the
    /// last event, and counts it in the caller's share.
    ///
    /// `Done` means that exactly one event was appended. `Full` is returned exactly if the history has
    /// `capacity` events, whatever the ask. If there is room, `Later` is returned exactly if the ask
    /// would wait, and nothing changes. Only an offer and a drain are refused with `Memory`. A fault
    /// changes nothing.
    pub fn act(
        &mut self,
        tally: &mut Tally,
        seat: u64,
        asked: u64,
        ask: Ask,
    ) -> Result<Outcome, CallFault>
        ensures step { StepsTo self.old (record { seat = seat; asked = asked; ask = ask }) result self.new }
        ensures tally { Grows self.old self.new tally.old tally.new }
        ensures full { IsErrOf result CallFault.Full ↔ IsFull self.old }
        ensures memory { IsErrOf result CallFault.Memory → TakesMemory ask }
        ensures capacity { self.new.capacity ≡ self.old.capacity }
        ensures opening { self.new.opening ≡ self.old.opening }
        ensures err { OnErr result (self.new ≡ self.old) }
        ensures err_tally { OnErr result (tally.new ≡ tally.old) }
    {
        if self.history.len() as u64 == self.capacity {
            return Err(CallFault::Full);
        }
        let at = asked.max(last_moment(&self.opening, &self.history));
        let standing = self.queue.size();
        match perform(self.alloc, &mut self.queue, at, ask) {
            Performed::Done(Answer { act, reply }) => {
                self.books.note(tally, act.offered(), act.given());
                self.sums.note(&act, standing);
                self.history.push_reserved(Event {
                    seat,
                    asked,
                    at,
                    act,
                });
                Ok(Outcome::Done(reply))
            }
            Performed::Later(next) => Ok(Outcome::Later(next)),
            Performed::NoMemory => Err(CallFault::Memory),
        }
    }

    /// Makes the tries one after the other, and returns a step for each. A fault is its try's step, and
    /// the next try follows.
    ///
    /// The memory for the steps is taken before the first try: on `Err` there was not enough, and
    /// nothing has changed.
    pub fn run_tries(&mut self, tally: &mut Tally, tries: Vec<Try>) -> Result<Vec<Step>, AllocError>
        ensures steps { IfOk result (λ steps. StepsAlong self.old tries.items steps.items self.new) }
        ensures tally { Grows self.old self.new tally.old tally.new }
        ensures legal { IsLegal self.new.opening self.new.history }
        ensures err { OnErr result (self.new ≡ self.old) }
        ensures err_tally { OnErr result (tally.new ≡ tally.old) }
    {
        // For the proof: the history is legal.
        let _ = &self.history;
        let mut steps = Vec::with_capacity(self.alloc, tries.len())?;
        for one in &tries {
            steps.push_reserved(self.act(tally, one.seat, one.asked, one.ask));
        }
        Ok(steps)
    }

    /// The events, in order: a legal history from the opening on.
    pub fn history(&self) -> &[Event]
        ensures events { result.now ≡ self.now.history }
        ensures legal { IsLegal self.now.opening self.now.history }
    {
        &self.history
    }

    /// What the run began with.
    pub fn opening(&self) -> &Opening
        ensures { result.now ≡ self.now.opening }
    {
        &self.opening
    }

    /// How many events the history has room for, at most 1,000,000.
    pub fn capacity(&self) -> u64
        ensures capacity { result ≡ self.now.capacity }
        ensures few { length self.now.history ≤ self.now.capacity }
        ensures most { self.now.capacity ≤ MOST_CALLS }
    {
        self.capacity
    }

    /// The counts of the run so far. Nothing is lost: each element of the opening and each that was
    /// offered was given, removed or cleared, or is left.
    pub fn audit(&self) -> Audit
        ensures counts { result ≡ audit_of self.now.opening self.now.history }
        ensures balanced { result.offered + result.opening
            ≡ result.given + result.removed + result.cleared + result.left }
    {
        // For the proof: the law for every legal history.
        each_element_counted();
        Audit {
            calls: self.history.len() as u64,
            offered: self.books.offered(),
            given: self.books.given(),
            removed: self.sums.removed,
            cleared: self.sums.cleared,
            left: self.queue.size(),
            opening: self.opening.elements.as_slice().len() as u64,
        }
    }
}

// Fills this much of an empty history's room, and empties it again.
fn touch(history: &mut Vec<Event>, capacity: u64)
    requires empty { history.old.items ≡ [] }
    requires room { capacity ≤ vec_capacity history.old }
    ensures empty { history.new.items ≡ [] }
    ensures room { vec_capacity history.new ≡ vec_capacity history.old }
{
    for _place in 0..capacity {
        history.push_reserved(Event {
            seat: 0,
            asked: 0,
            at: 0,
            act: Act::Clear,
        });
    }
    history.clear();
}

// The moment of the last event or, if there is none, that of the opening.
fn last_moment(opening: &Opening, history: &[Event]) -> u64
    ensures { result ≡ (state_of opening.now history.now).moment }
{
    match history.last() {
        Some(event) => event.at,
        None => opening.last_at,
    }
}
