ghost use Rattle.std.specs.Prelude.{◌≡◌, ◌≤◌, length};
ghost use Rattle.rb_shared_desk.specs.WaitRules.{wait_rules};
ghost use Rattle.rb_shared_desk.specs.SharedSteps.{SharedState, SharedName, SharedSteps, TriesShared, MissesShared};
ghost use Rattle.rb_shared_desk.specs.SharedSteps.{SetsShared, made_through, name_of};
ghost use Rattle.rb_shared_desk.specs.SharedLaws.{shared_makes, shared_gives_once, shared_refuses, shared_stays};
ghost use Rattle.rb_shared_desk.specs.SharedLaws.{shared_keeps_name, shared_sets_no_name};
ghost use Rattle.rb_shared_desk.specs.TriedLaws.{shared_tries_once, shared_tries_again, shared_misses, shared_misses_no_name};

use rb_blocking::{Bell, Clock, Gate, WaitFault, Waiter, call_and_wait, offer_ring};
use rb_delayed::Element;
use rb_kept::{CallFault, MOST_CALLS, Outcome};
use rb_lock::{Pass, Shared};
use rb_queue::{Ask, Draft, Reply};
use rb_retry::{Desk, DeskFault};
use rb_timer::Timer;
use std::snapshot::Snapshot;
use std::sync::Wait;
use std::time;

/// A desk over a shared queue, with a clock that can't be set.
///
/// Its calls are those of its pass, and each waits while another pass calls. A take and a timed poll
/// also wait until they are answered or the gate stops them. An offer rings the bell, which wakes a
/// waiting call that would otherwise look again only after the element has expired, if there is one. The
/// desk takes no memory of its own.
pub struct SharedDesk<'a, T: Timer, C: Clock, G: Gate, R: Wait + time::Clock> {
    rt: &'a R,
    waiter: Waiter<'a, T, C>,
    pass: &'a mut Pass<T>,
    gate: &'a mut G,
    // The pass as it was when the desk was made, which only proofs read.
    start: Snapshot<Pass<T>>,
    ghost of: { pass.now.table ≡ waiter.shared.now },
    ghost earlier: { length start.value.mine ≤ length pass.now.mine },
}

impl<'a, T: Timer, C: Clock, G: Gate, R: Wait + time::Clock> SharedDesk<'a, T, C, G, R> {
    /// A desk that calls through this pass, which must be a pass of this queue. Its waits read the clock,
    /// and end when the gate says no.
    pub fn new(
        rt: &'a R,
        shared: &'a Shared<T>,
        pass: &'a mut Pass<T>,
        clock: &'a C,
        gate: &'a mut G,
        bell: &'a Bell,
    ) -> SharedDesk<'a, T, C, G, R>
        requires pass { pass.old.table ≡ shared.now }
        ensures state { ⟦<SharedDesk<'a, T, C, G, R> as Desk>⟧.state result
            ≡ record {
              reference = pass.entry.ghost_name;
              pass = pass.old;
              clock = clock.now;
              gate = gate.old;
              before = length pass.old.mine;
            } }
        ensures few { length (made_through (⟦<SharedDesk<'a, T, C, G, R> as Desk>⟧.state result)) ≤ MOST_CALLS }
    {
        // For the proof: the pass has seen a legal history.
        let _ = pass.name();
        let start = Snapshot::of(&*pass);
        let waiter = Waiter {
            shared,
            clock,
            bell,
        };
        SharedDesk {
            rt,
            waiter,
            pass,
            gate,
            start,
        }
    }
}

// Written by hand, to say that what the pass has seen stays with its owner.
impl<'a, T: Timer, C: Clock, G: Gate, R: Wait + time::Clock> Drop for SharedDesk<'a, T, C, G, R> {
    fn drop(self)
        ensures pass { self.exit.1.1.0.now ≡ self.entry.pass.now }
    {
        let SharedDesk {
            rt: _,
            waiter: _,
            pass: _,
            gate: _,
            start: _,
        } = self;
    }
}

impl<'a, T: Timer, C: Clock, G: Gate, R: Wait + time::Clock> Desk for SharedDesk<'a, T, C, G, R> {
    ghost State = { SharedState C G };

    ghost state = { λ desk. record {
      reference = desk.pass.ghost_name;
      pass = desk.pass.now;
      clock = desk.waiter.clock.now;
      gate = desk.gate.now;
      before = length desk.start.value.mine;
    } };

    ghost Name = { SharedName };

    ghost name = { name_of };

    ghost mine = { made_through };

    ghost gives = { λ state moment. C.gives state.clock moment };

    ghost Sets = { SetsShared };

    ghost Steps = { SharedSteps (wait_rules C.Clock G.Gate) };

    ghost Tries = { TriesShared (wait_rules C.Clock G.Gate) };

    ghost Misses = { MissesShared };

    type Witness = Pass<T>;

    ghost shows = { λ state pass. pass ≡ state.pass };

    fn witness(&self) -> &Pass<T> {
        self.pass
    }

    fn now(&self) -> u64 {
        self.waiter.clock.now()
    }

    fn set(&mut self, _moment: u64) -> Option<u64> {
        None
    }

    fn hear(&self, holds: bool, has_more: bool) {
        self.gate.hear(holds, has_more);
    }

    #[tactic(auto, using(crate::proofs::SharedEndings::call_endings))]
    fn call(&mut self, asked: u64, ask: Ask) -> Result<Reply, DeskFault> {
        // For the proof: the pass has seen a legal history.
        let _ = self.pass.name();
        match ask {
            Ask::Take | Ask::PollFor { .. } => {
                if !self.gate.begins() {
                    return Err(DeskFault::Stopped);
                }
                match call_and_wait(self.rt, &self.waiter, self.pass, self.gate, &ask) {
                    Ok(reply) => Ok(reply),
                    Err(WaitFault::Full) => Err(DeskFault::Full),
                    Err(WaitFault::Stopped) => Err(DeskFault::Stopped),
                }
            }
            Ask::Offer(draft) => Ok(Reply::Offered(self.offer(asked, draft)?)),
            _ => match self.waiter.shared.call(self.rt, self.pass, asked, ask)? {
                Outcome::Done(reply) => Ok(reply),
                Outcome::Later(_) => unreachable!(),
            },
        }
    }

    fn try_call(&mut self, asked: u64, ask: Ask) -> Option<Result<Reply, DeskFault>> {
        // For the proof: the pass has seen a legal history.
        let _ = self.pass.name();
        if !self.gate.begins() {
            return Some(Err(DeskFault::Stopped));
        }
        match self.waiter.shared.call(self.rt, self.pass, asked, ask) {
            Ok(Outcome::Done(reply)) => Some(Ok(reply)),
            Ok(Outcome::Later(_)) => None,
            Err(fault) => Some(Err(DeskFault::from(fault))),
        }
    }

    #[tactic(auto, using(crate::proofs::SharedEndings::few_through))]
    fn offer(&mut self, asked: u64, draft: Draft) -> Result<Element, CallFault> {
        // For the proof: the pass has seen a legal history.
        let _ = self.pass.name();
        let (shared, bell) = (self.waiter.shared, self.waiter.bell);
        offer_ring(self.rt, shared, self.pass, asked, draft, bell)
    }

    ghost makes = { shared_makes (wait_rules C.Clock G.Gate) };

    ghost gives_once = { shared_gives_once (wait_rules C.Clock G.Gate) };

    ghost refuses = { shared_refuses (wait_rules C.Clock G.Gate) };

    ghost stays = { shared_stays };

    ghost tries_once = { shared_tries_once (wait_rules C.Clock G.Gate) };

    ghost tries_again = { λ old mid new handed ask answer missed.
        shared_tries_again (wait_rules C.Clock G.Gate) old mid missed new handed ask answer };

    ghost misses = { shared_misses };

    ghost keeps_name = { shared_keeps_name (wait_rules C.Clock G.Gate) };

    ghost misses_no_name = { shared_misses_no_name };

    ghost sets_no_name = { shared_sets_no_name };
}
