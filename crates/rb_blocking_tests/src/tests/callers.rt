ghost use Rattle.std.specs.Prelude.{◌≡◌};

use crate::tests::fixtures::{ListPass, ListShared, draft, expect_opened};
use rb_blocking::{Bell, Clock, Gate, Rested, WaitFault, offer_ring, poll_for, take};
use rb_delayed::Element;
use rb_kept::{CallFault, Outcome};
use rb_lock::Pass;
use rb_queue::{Ask, Draft};
use rb_timer::Timer;
use std::alloc::{AllocError, Global};
use std::process::Abort;
use std::sync::atomic::{AtomicU64, Ordering};
use std::sync::{Mutex, Wait};
use std::thread::{Threads, map_indices};
use std::time;

/// Half the rest of a call that nobody wakes, in nanoseconds.
pub const SOON: u64 = 10_000_000;

/// A clock that always reads the moment that it holds.
#[derive(Drop)]
pub struct FixedClock(pub u64);

impl Clock for FixedClock {
    ghost gives = { λ clock moment. moment ≡ clock.0 };

    ghost reads = { λ _ _ _. Unit {0} };

    fn now(&self) -> u64 {
        self.0
    }

    fn now_for_try(&self, _tries: u64) -> u64 {
        self.now()
    }
}

/// What the callers of a queue count together.
#[derive(Drop)]
pub struct Counts {
    /// The waits whose first try found nothing.
    pub waits: AtomicU64,
    /// The turns of all waits.
    pub turns: AtomicU64,
    /// The elements that were taken, if a test counts them.
    pub taken: AtomicU64,
}

impl Counts {
    pub fn new() -> Counts {
        Counts {
            waits: AtomicU64::new(0),
            turns: AtomicU64::new(0),
            taken: AtomicU64::new(0),
        }
    }
}

/// A gate that counts the turns, and ends the wait after `limit` of them.
#[derive(Drop)]
pub struct CountingGate<'a> {
    counts: &'a Counts,
    limit: u64,
}

impl<'a> Gate for CountingGate<'a> {
    ghost answers = { λ _ _ _. Unit {0} };

    ghost has_seen = { λ _ _. Unit {0} };

    fn turn(&mut self, turns: u64) -> bool {
        if turns == 0 {
            self.counts.waits.fetch_add(1, Ordering::SeqCst);
        }
        self.counts.turns.fetch_add(1, Ordering::SeqCst);
        turns < self.limit
    }

    fn rested<T: Timer>(&mut self, _rested: Rested, _pass: &Pass<T>) {}
}

/// A caller of a shared queue: a pass, with its queue, a bell and what is counted. The value
/// carries the fact that the pass is of that queue. So code that hands a caller on, also to a
/// thread, has nothing to prove.
#[derive(Drop)]
pub struct Caller<'a> {
    pub shared: &'a ListShared,
    pub bell: &'a Bell,
    pub counts: &'a Counts,
    pub pass: ListPass,
    ghost of: { pass.table ≡ shared.now },
}

impl<'a> Caller<'a> {
    pub fn new(
        shared: &'a ListShared,
        bell: &'a Bell,
        counts: &'a Counts,
        pass: ListPass,
    ) -> Caller<'a>
        requires { pass.table ≡ shared.now }
    {
        Caller {
            shared,
            bell,
            counts,
            pass,
        }
    }

    /// Makes a further caller, with a new pass.
    pub fn another<R: Wait + Abort>(&mut self, rt: &R) -> Caller<'a> {
        let (shared, bell, counts) = (self.shared, self.bell, self.counts);
        let pass = shared
            .split(rt, &mut self.pass)
            .ok()
            .expect(rt, "a name is left");
        Caller {
            shared,
            bell,
            counts,
            pass,
        }
    }

    /// Returns how often gates were asked since this was last called.
    pub fn asked(&self) -> u64 {
        self.counts.turns.swap(0, Ordering::SeqCst)
    }

    /// Makes a call that rings no bell.
    pub fn call<R: Wait>(&mut self, rt: &R, asked: u64, ask: Ask) -> Result<Outcome, CallFault> {
        self.shared.call(rt, &mut self.pass, asked, ask)
    }

    /// Makes an offer at moment `asked`.
    pub fn offer_draft<R: Wait>(
        &mut self,
        rt: &R,
        asked: u64,
        draft: Draft,
    ) -> Result<Element, CallFault> {
        let (shared, bell) = (self.shared, self.bell);
        offer_ring(rt, shared, &mut self.pass, asked, draft, bell)
    }

    /// Offers an element with expiry `expiry` at moment `asked`.
    pub fn offer<R: Wait + Abort>(
        &mut self,
        rt: &R,
        asked: u64,
        expiry: u64,
    ) -> Result<Element, CallFault> {
        let draft = draft(rt, expiry);
        self.offer_draft(rt, asked, draft)
    }

    /// Offers an element that expires `ahead` nanoseconds from now.
    pub fn offer_ahead<C: Clock, R: Wait + Abort>(&mut self, rt: &R, clock: &C, ahead: u64) {
        let now = clock.now();
        let _ = self.offer(rt, now, now.saturating_add(ahead));
    }

    /// Takes an element, as soon as one is expired.
    pub fn take_by<C: Clock, G: Gate, R: Wait + time::Clock>(
        &mut self,
        rt: &R,
        clock: &C,
        gate: &mut G,
    ) -> Result<Element, WaitFault> {
        let (shared, bell) = (self.shared, self.bell);
        take(rt, shared, &mut self.pass, clock, gate, bell)
    }

    /// Does the same, with a gate that counts and allows `limit` turns.
    pub fn take<C: Clock, R: Wait + time::Clock>(
        &mut self,
        rt: &R,
        clock: &C,
        limit: u64,
    ) -> Result<Element, WaitFault> {
        let counts = self.counts;
        self.take_by(rt, clock, &mut CountingGate { counts, limit })
    }

    /// Takes an element and returns how long it had been due, in nanoseconds, or 2^64 - 1 if none
    /// came.
    pub fn lateness<C: Clock, R: Wait + time::Clock>(&mut self, rt: &R, clock: &C) -> u64 {
        match self.take(rt, clock, u64::MAX) {
            Ok(element) => clock.now().saturating_sub(element.expiry),
            Err(_) => u64::MAX,
        }
    }

    /// Polls with a gate that counts and allows `limit` turns, until `timeout` nanoseconds after
    /// `start`.
    pub fn poll<C: Clock, R: Wait + time::Clock>(
        &mut self,
        rt: &R,
        clock: &C,
        limit: u64,
        start: u64,
        timeout: u64,
    ) -> Result<Option<Element>, WaitFault> {
        let counts = self.counts;
        let gate = &mut CountingGate { counts, limit };
        self.poll_by(rt, clock, gate, start, timeout)
    }

    /// Does the same, with this gate.
    pub fn poll_by<C: Clock, G: Gate, R: Wait + time::Clock>(
        &mut self,
        rt: &R,
        clock: &C,
        gate: &mut G,
        start: u64,
        timeout: u64,
    ) -> Result<Option<Element>, WaitFault> {
        let (shared, bell) = (self.shared, self.bell);
        poll_for(
            rt,
            shared,
            &mut self.pass,
            clock,
            gate,
            bell,
            start,
            timeout,
        )
    }
}

/// Opens a shared queue with room for `capacity` calls, and has `work` done by its first caller.
pub fn with_caller<R: Abort, F: FnOnce(&R, &mut Caller<'_>)>(
    rt: &R,
    alloc: Global,
    capacity: u64,
    work: F,
)
    requires { F.IsAlwaysCallable work }
{
    let (shared, pass) = expect_opened(rt, alloc, capacity);
    let (bell, counts) = (Bell::new(), Counts::new());
    work(rt, &mut Caller::new(&shared, &bell, &counts, pass));
}

/// Opens a shared queue with room for `capacity` calls, and has `count` threads do `work`. Each has
/// a caller of its own, `scene`, which they share, and its number. Returns what each gave.
pub fn in_threads<
    R: Threads + Wait + Abort + AllocGlobal + Sync,
    S: Sync,
    F: Fn(&R, &mut Caller<'_>, &S, usize) -> u64 + Sync,
>(
    rt: &R,
    capacity: u64,
    counts: &Counts,
    count: usize,
    scene: &S,
    work: F,
) -> Result<Vec<u64>, AllocError>
    requires { F.IsAlwaysCallable work }
{
    let (shared, pass) = expect_opened(rt, rt.alloc(), capacity);
    let bell = Bell::new();
    let first = Mutex::new(Caller::new(&shared, &bell, counts, pass));
    map_indices(
        rt,
        rt.alloc(),
        count,
        &|number: usize| -> u64
            requires { F.IsAlwaysCallable work }
        { in_thread(rt, &first, scene, &work, number) },
    )
}

// Does the work of one thread, with a further caller.
fn in_thread<R: Wait + Abort, S, F: Fn(&R, &mut Caller<'_>, &S, usize) -> u64>(
    rt: &R,
    first: &Mutex<Caller<'_>>,
    scene: &S,
    work: &F,
    number: usize,
) -> u64
    requires { F.IsAlwaysCallable work.now }
{
    let mut caller = first.lock(rt).another(rt);
    work(rt, &mut caller, scene, number)
}
