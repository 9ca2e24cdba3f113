// A waiting call that was woken and takes nothing wakes another in its place, however its wait ends.

use crate::tests::callers::{Caller, Counts, FixedClock, in_threads};
use crate::tests::fixtures::{expect_given, expect_opened, expect_same, offer};
use rb_blocking::{Bell, Clock, Gate, Rested, WaitFault};
use rb_lock::Pass;
use rb_queue::Ask;
use rb_timer::Timer;
use std::process::Abort;
use std::sync::Wait;
use std::sync::atomic::{AtomicU64, Ordering};
use std::thread::sleep;
use std::time;
use std::time::Duration;

// The number of rests of the call that another wakes, and how long each lasts if it is not woken,
// in seconds.
const RESTS: u64 = 20;

const MISSED: u64 = 3;

// How a wait ends that takes nothing.
#[derive(Clone, Copy, Debug)]
enum End {
    Stopped,
    Full,
    Nothing,
}

// What the threads share: how the waits end, and `over`, which rises once the first thread rests no
// more.
#[derive(Drop)]
struct Scene {
    end: End,
    over: AtomicU64,
}

impl Scene {
    fn is_over(&self) -> bool {
        self.over.load(Ordering::SeqCst) > 0
    }
}

// Rests like a call that looks again at moment 10, and returns whether it was woken. A rest during
// which the bell has rung too often to know what for is followed by another.
fn is_woken<R: Wait + time::Clock>(rt: &R, bell: &Bell, scene: &Scene) -> bool {
    let (mut seen, mut woken) = (bell.count(rt), false);
    for _ in 0..RESTS {
        if !woken {
            let rested = bell.rest_until(rt, seen, 10, Duration::from_secs(MISSED));
            (seen, woken) = (rested.count(), rested.is_woken());
        }
    }
    scene.over.fetch_add(1, Ordering::SeqCst);
    woken
}

// A clock that reads 5 twice, and then 9.
#[derive(Drop)]
struct SteppingClock(AtomicU64);

impl Clock for SteppingClock {
    ghost gives = { λ _ _. Unit {0} };

    ghost reads = { λ _ _ _. Unit {0} };

    fn now(&self) -> u64 {
        if self.0.fetch_add(1, Ordering::SeqCst) < 2 {
            5
        } else {
            9
        }
    }

    fn now_for_try(&self, _tries: u64) -> u64 {
        self.now()
    }
}

// A gate that at the second turn makes both calls for which the history has room.
#[derive(Drop)]
struct FillingGate<'a, R> {
    rt: &'a R,
    other: Caller<'a>,
}

impl<'a, R: Wait> Gate for FillingGate<'a, R> {
    ghost answers = { λ _ _ _. Unit {0} };

    ghost has_seen = { λ _ _. Unit {0} };

    fn turn(&mut self, turns: u64) -> bool {
        if turns == 1 {
            let _ = self.other.call(self.rt, 5, Ask::Size);
            let _ = self.other.call(self.rt, 5, Ask::Size);
        }
        true
    }

    fn rested<T: Timer>(&mut self, _rested: Rested, _pass: &Pass<T>) {}
}

// Makes a wait at a queue with room for two calls, and asserts how it ends. Its clock stands at 5
// for two tries; the rest after the second of them is a whole one, in which it can be woken.
fn give_up<R: Wait + time::Clock + Abort>(rt: &R, caller: &mut Caller<'_>, end: End) {
    match end {
        End::Stopped => {
            let _ = caller.call(rt, 5, offer(rt, 9));
            let taken = caller.take(rt, &FixedClock(5), 2);
            expect_same(rt, taken, Err(WaitFault::Stopped));
        }
        End::Full => {
            let other = caller.another(rt);
            let taken = caller.take_by(rt, &FixedClock(5), &mut FillingGate { rt, other });
            expect_same(rt, taken, Err(WaitFault::Full));
        }
        End::Nothing => {
            let clock = SteppingClock(AtomicU64::new(0));
            let polled = caller.poll(rt, &clock, u64::MAX, 0, 9);
            expect_same(rt, polled, Ok(None));
        }
    }
}

// Gives up at a queue of its own, and rests at the bell of `caller`.
fn give_up_elsewhere<R: Wait + time::Clock + Abort + AllocGlobal>(
    rt: &R,
    caller: &Caller<'_>,
    end: End,
) {
    let (shared, pass) = expect_opened(rt, rt.alloc(), 2);
    give_up(
        rt,
        &mut Caller::new(&shared, caller.bell, caller.counts, pass),
        end,
    );
}

// The work of thread `number`. The first rests, and returns whether it was woken. Meanwhile the
// second announces what expires at 11, once a millisecond, and the third gives up again and again.
// An announcement wakes the call that gives up, and not the one that looks again at 10.
fn rest_or_wake<R: Wait + time::Clock + Abort + AllocGlobal>(
    rt: &R,
    caller: &mut Caller<'_>,
    scene: &Scene,
    number: usize,
) -> u64 {
    if number == 0 {
        return u64::from(is_woken(rt, caller.bell, scene));
    }
    for _ in rt.forever() {
        if scene.is_over() {
            return 0;
        }
        if number == 1 {
            sleep(rt, Duration::from_millis(1));
            caller.bell.announce(rt, 11);
        } else {
            give_up_elsewhere(rt, caller, scene.end);
        }
    }
    unreachable!()
}

#[test]
fn one_that_gives_up_wakes_another(rt: HostRuntime) {
    for end in [End::Stopped, End::Full, End::Nothing] {
        let over = AtomicU64::new(0);
        let scene = Scene { end, over };
        let woken = in_threads(&rt, 1, &Counts::new(), 3, &scene, rest_or_wake);
        expect_given(&rt, woken, &[1, 0, 0]);
    }
}
