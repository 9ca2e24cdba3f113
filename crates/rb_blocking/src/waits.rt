ghost use Rattle.std.specs.Prelude.{◌≡◌, ◌↔◌, ℕ, Bool};
ghost use Rattle.rb_queue.specs.declared.ask.Ask.TheVariants.{Take, PollFor};
ghost use Rattle.rb_kept.specs.Tries.{TakesMemory};
ghost use Rattle.rb_lock.specs.Passes.{Learns};
ghost use Rattle.rb_blocking.specs.GateSteps.{Sees};
ghost use Rattle.rb_blocking.specs.WaitingCalls.{Waited, IsReading, taken, polled};

use crate::clock::Clock;
use crate::fault::WaitFault;
use crate::gate::Gate;
use crate::rests::Rests;
use crate::waiter::Waiter;
use rb_bell::Bell;
use rb_delayed::Element;
use rb_kept::{CallFault, Outcome};
use rb_lock::{Pass, Shared};
use rb_queue::{Ask, Reply};
use rb_timer::Timer;
use std::sync::Wait;
use std::time;

/// Takes an element that has expired, waiting while there is none, like `DelayQueue.take` (Java SE 17).
///
/// Each try is at a fresh reading of the clock. After a try that finds nothing expired the gate is
/// asked, and if it lets the wait go on, the call rests at the bell. The reply is that of one
/// `Shared::call` with `Take` at a reading: the pass has seen a legal history that begins with all that
/// it had seen and ends with this call.
///
/// The faults are `Stopped`, only if the gate said no, and `Full`, if the history has as many events as
/// its capacity. After either no event was made. It takes no memory.
pub fn take<T: Timer, C: Clock, G: Gate, R: Wait + time::Clock>(
    rt: &R,
    shared: &Shared<T>,
    pass: &mut Pass<T>,
    clock: &C,
    gate: &mut G,
    bell: &Bell,
) -> Result<Element, WaitFault>
    requires pass { pass.old.table ≡ shared.now }
    ensures learns { Learns pass.old pass.new }
    ensures waited { Waited (IsReading C.gives C.reads clock.now) (G.answers gate.old) (Sees G.has_seen gate.old gate.new)
        pass.old pass.new Take (taken result) }
    ensures gate { (turns : ℕ) (goes_on : Bool) → G.answers gate.new turns goes_on ↔ G.answers gate.old turns goes_on }
{
    let waiter = Waiter {
        shared,
        clock,
        bell,
    };
    match call_and_wait(rt, &waiter, pass, gate, &Ask::Take)? {
        Reply::Item(element) => Ok(element),
        _ => unreachable!(),
    }
}

/// Takes an element that has expired, waiting for one until `timeout` nanoseconds after the moment
/// `start`, like `DelayQueue.poll` with a timeout (Java SE 17).
///
/// It is like `take`, by a call with `PollFor`. It returns `None` only at the deadline or later, if
/// nothing has expired.
pub fn poll_for<T: Timer, C: Clock, G: Gate, R: Wait + time::Clock>(
    rt: &R,
    shared: &Shared<T>,
    pass: &mut Pass<T>,
    clock: &C,
    gate: &mut G,
    bell: &Bell,
    start: u64,
    timeout: u64,
) -> Result<Option<Element>, WaitFault>
    requires pass { pass.old.table ≡ shared.now }
    ensures learns { Learns pass.old pass.new }
    ensures waited { Waited (IsReading C.gives C.reads clock.now) (G.answers gate.old) (Sees G.has_seen gate.old gate.new)
        pass.old pass.new (PollFor start timeout) (polled result) }
    ensures gate { (turns : ℕ) (goes_on : Bool) → G.answers gate.new turns goes_on ↔ G.answers gate.old turns goes_on }
{
    let waiter = Waiter {
        shared,
        clock,
        bell,
    };
    let ask = Ask::PollFor { start, timeout };
    match call_and_wait(rt, &waiter, pass, gate, &ask)? {
        Reply::Item(element) => Ok(Some(element)),
        Reply::Nothing => Ok(None),
        _ => unreachable!(),
    }
}

/// Tries an ask, which may not be an offer or a drain, until it gets a reply, the history is full, or the gate says no.
///
/// `take` and `poll_for` make this call, and unwrap the reply. A call that was woken but takes nothing wakes another.
pub fn call_and_wait<T: Timer, C: Clock, G: Gate, R: Wait + time::Clock>(
    rt: &R,
    waiter: &Waiter<'_, T, C>,
    pass: &mut Pass<T>,
    gate: &mut G,
    ask: &Ask,
) -> Result<Reply, WaitFault>
    requires pass { pass.old.table ≡ waiter.now.shared.now }
    requires memory { TakesMemory ask.now → ⊥ }
    ensures learns { Learns pass.old pass.new }
    ensures waited { Waited (IsReading C.gives C.reads waiter.now.clock.now) (G.answers gate.old) (Sees G.has_seen gate.old gate.new)
        pass.old pass.new ask.now result }
    ensures gate { (turns : ℕ) (goes_on : Bool) → G.answers gate.new turns goes_on ↔ G.answers gate.old turns goes_on }
{
    let mut rests = Rests::new(ask, waiter.bell.count(rt));
    let waited = try_often(rt, waiter, pass, gate, ask, &mut rests);
    rests.hand_on(rt, waiter.bell, &waited);
    waited
}

// The tries of a wait, with its rests between them.
//
// The lock is held only during a try. The bell's count was read before the try, so that a ring between the
// try and the rest is noticed.
fn try_often<T: Timer, C: Clock, G: Gate, R: Wait + time::Clock>(
    rt: &R,
    waiter: &Waiter<'_, T, C>,
    pass: &mut Pass<T>,
    gate: &mut G,
    ask: &Ask,
    rests: &mut Rests,
) -> Result<Reply, WaitFault>
    requires pass { pass.old.table ≡ waiter.now.shared.now }
    requires memory { TakesMemory ask.now → ⊥ }
    ensures learns { Learns pass.old pass.new }
    ensures waited { Waited (IsReading C.gives C.reads waiter.now.clock.now) (G.answers gate.old) (Sees G.has_seen gate.old gate.new)
        pass.old pass.new ask.now result }
    ensures gate { (turns : ℕ) (goes_on : Bool) → G.answers gate.new turns goes_on ↔ G.answers gate.old turns goes_on }
{
    // For the proof: the pass has seen a legal history.
    let _ = pass.name();
    let mut turns: u64 = 0;
    for _ in rt.forever() {
        let asked = waiter.clock.now_for_try(turns);
        let expiry = match waiter.shared.call(rt, pass, asked, *ask) {
            Ok(Outcome::Done(reply)) => return Ok(reply),
            Ok(Outcome::Later(expiry)) => expiry,
            Err(CallFault::Full) => return Err(WaitFault::Full),
            Err(CallFault::Memory) => unreachable!(),
        };
        rests.learn(asked, expiry);
        if !gate.turn(turns) {
            return Err(WaitFault::Stopped);
        }
        gate.rested(rests.rest(rt, waiter.bell), &*pass);
        turns = turns.saturating_add(1);
    }
    unreachable!()
}
