ghost use Rattle.std.specs.Prelude.{◌≡◌, ℕ, ◌<◌, ◌↔◌, Some, None, IsTrue};
ghost use Rattle.std.specs.FinMap as map;
ghost use Rattle.rb_queue.specs.Bag.{NoneExpired};
ghost use Rattle.rb_queue.specs.Head.{IsLeast};
ghost use Rattle.rb_queue.specs.declared.act.Act.TheVariants as acts;
ghost use Rattle.rb_replay.specs.Refusal.{Test, LeastTests, HeadTests, NoTest};
ghost use Rattle.rb_replay.specs.Judging.{Passes, Judges, Gave};

use crate::reason::Reason;
use crate::replayed_queue::ReplayedQueue;
use rb_delayed::{Element, add_capped};
use rb_queue::Act;

/// Why the queue did not repeat an act.
#[derive(Clone, Copy, Debug, PartialEq, Eq)]
pub(crate) enum JudgeFault {
    /// The queue could not have done it. The reason is that of the first test that fails.
    Refused(Reason),
    /// There is not enough memory to repeat it.
    Memory,
}

/// Makes the queue repeat an act, at this moment.
pub(crate) fn judge(queue: &mut ReplayedQueue, now: u64, act: &Act) -> Result<(), JudgeFault>
    requires { queue.old.next_id < u64.MAX }
    ensures { Judges queue.old now act.now result queue.new }
{
    match act {
        Act::Offer(element) => offer(queue, element),
        Act::Poll(Some(id)) => give(queue, now, *id),
        Act::Poll(None) => give_nothing(queue, now),
        Act::Take(id) => give(queue, now, *id),
        Act::PollFor { got: Some(id), .. } => give(queue, now, *id),
        Act::PollFor {
            start,
            timeout,
            got: None,
        } => give_up(queue, now, *start, *timeout),
        Act::Peek(shown) => peek(queue, *shown),
        Act::Remove { id, found } => remove(queue, *id, *found),
        Act::Drain { max, ids } => drain(queue, now, *max, ids.as_slice()),
        Act::Clear => {
            queue.clear();
            Ok(())
        }
        Act::Size(count) => ensure(*count == queue.size(), Reason::WrongSize),
    }
}

// An element comes in.
fn offer(queue: &mut ReplayedQueue, element: &Element) -> Result<(), JudgeFault>
    requires { queue.old.next_id < u64.MAX }
    ensures { (now : ℕ) → Judges queue.old now (acts.Offer element.now) result queue.new }
{
    ensure(element.id == queue.next_id(), Reason::BadId)?;
    let Ok(()) = queue.insert(element) else {
        return Err(JudgeFault::Memory);
    };
    Ok(())
}

// The element of the id is given.
fn give(queue: &mut ReplayedQueue, now: u64, id: u64) -> Result<(), JudgeFault>
    ensures { Passes (λ _. Gave queue.old now id queue.new)
        (HeadTests queue.old.bag now id NoTest) result }
{
    let element = find_least(queue, id)?;
    ensure(element.expiry <= now, Reason::NotExpired)?;
    queue.remove(id);
    Ok(())
}

// Nothing is given.
fn give_nothing(queue: &ReplayedQueue, now: u64) -> Result<(), JudgeFault>
    ensures { Passes (λ _. NoneExpired queue.now.bag now)
        (Test (NoneExpired queue.now.bag now) Reason.NotNone NoTest) result }
{
    ensure(none_expired(queue, now), Reason::NotNone)
}

// A timed poll gives nothing.
fn give_up(queue: &ReplayedQueue, now: u64, start: u64, timeout: u64) -> Result<(), JudgeFault>
    ensures { Judges queue.now now (acts.PollFor start timeout None) result queue.now }
{
    give_nothing(queue, now)?;
    ensure(add_capped(start, timeout) <= now, Reason::TooEarly)
}

// An element is shown, or nothing.
fn peek(queue: &ReplayedQueue, shown: Option<u64>) -> Result<(), JudgeFault>
    ensures { (now : ℕ) → Judges queue.now now (acts.Peek shown) result queue.now }
{
    match shown {
        Some(id) => {
            find_least(queue, id)?;
            Ok(())
        }
        None => ensure(queue.size() == 0, Reason::NotNone),
    }
}

// The element of the id is taken out, or there is none.
fn remove(queue: &mut ReplayedQueue, id: u64, found: bool) -> Result<(), JudgeFault>
    ensures { (now : ℕ) → Judges queue.old now (acts.Remove id found) result queue.new }
{
    ensure(found == queue.get(id).is_some(), Reason::WrongFound)?;
    if found {
        queue.remove(id);
    }
    Ok(())
}

// Elements are given one after the other.
fn drain(queue: &mut ReplayedQueue, now: u64, max: u64, ids: &[u64]) -> Result<(), JudgeFault>
    ensures { Judges queue.old now (acts.Drain max ids.now) result queue.new }
{
    let count = ids.len() as u64;
    ensure(count <= max, Reason::TooMany)?;
    for id in ids {
        give(queue, now, *id)?;
    }
    if count == max {
        return Ok(());
    }
    ensure(none_expired(queue, now), Reason::NotAll)
}

// The element of the id, if it is least.
fn find_least(queue: &ReplayedQueue, id: u64) -> Result<Element, JudgeFault>
    ensures { Passes (λ element. (map.get queue.now.bag id ≡ Some element) × IsLeast queue.now.bag element)
        (LeastTests queue.now.bag id NoTest) result }
{
    let Some(element) = queue.get(id) else {
        return Err(JudgeFault::Refused(Reason::NotInQueue));
    };
    let least = queue.next_expiry().unwrap_or(element.expiry);
    if least < element.expiry {
        return Err(JudgeFault::Refused(Reason::NotLeast));
    }
    Ok(element)
}

// Whether no element is expired.
fn none_expired(queue: &ReplayedQueue, now: u64) -> bool
    ensures { IsTrue result ↔ NoneExpired queue.now.bag now }
{
    match queue.next_expiry() {
        Some(least) => now < least,
        None => true,
    }
}

// The reason as a fault, unless the test holds.
fn ensure(holds: bool, reason: Reason) -> Result<(), JudgeFault>
    ensures { Passes (λ _. IsTrue holds) (Test (IsTrue holds) reason NoTest) result }
{
    if holds {
        Ok(())
    } else {
        Err(JudgeFault::Refused(reason))
    }
}
