// Eight threads offer elements that are due at once, and eight wait for them. The test bounds how
// late an element is taken.

use crate::tests::callers::{Caller, Counts, in_threads};
use crate::tests::fixtures::expect;
use rb_blocking::MachineClock;
use std::process::Abort;
use std::sync::Wait;
use std::sync::atomic::{AtomicU64, Ordering};
use std::thread::yield_now;
use std::time;

// The number of threads. Every second one offers.
const THREADS: usize = 16;

// The number of elements that each thread offers or takes.
const EACH: u64 = 12_500;

// The number of standing elements at which threads that offer wait for those that take.
const STANDING: u64 = 8;

// The lateness that no taken element may reach, in nanoseconds. It is as long as many rests, to
// allow for other work on the machine.
const LATEST: u64 = 1_000_000_000;

// What the threads share: the machine's clock, and the number of elements that stand.
#[derive(Drop)]
struct Crowd<'a, R: time::Clock> {
    clock: MachineClock<'a, R>,
    standing: AtomicU64,
}

// Waits until fewer than `STANDING` elements stand.
fn await_few(rt: &impl Wait, standing: &AtomicU64) {
    for _ in rt.forever() {
        if standing.load(Ordering::SeqCst) < STANDING {
            return;
        }
        yield_now();
    }
}

// The work of thread `number`: even ones offer `EACH` elements that are due, each once few elements
// stand. Odd ones take as many, and assert of each how long it had been due. Returns the number of
// calls that were answered.
fn offer_or_take<R: Wait + time::Clock + Abort>(
    rt: &R,
    caller: &mut Caller<'_>,
    crowd: &Crowd<'_, R>,
    number: usize,
) -> u64 {
    for _ in 0..EACH {
        if number % 2 == 0 {
            await_few(rt, &crowd.standing);
            crowd.standing.fetch_add(1, Ordering::SeqCst);
            caller.offer_ahead(rt, &crowd.clock, 0);
        } else {
            let late = caller.lateness(rt, &crowd.clock);
            crowd.standing.fetch_sub(1, Ordering::SeqCst);
            expect(rt, late < LATEST);
        }
    }
    caller.pass.calls()
}

#[test]
fn no_due_element_is_taken_late(rt: HostRuntime) {
    let crowd = Crowd {
        clock: MachineClock::new(&rt),
        standing: AtomicU64::new(0),
    };
    let calls = in_threads(
        &rt,
        16 * EACH,
        &Counts::new(),
        THREADS,
        &crowd,
        offer_or_take,
    );
    expect(&rt, calls.is_ok());
}
