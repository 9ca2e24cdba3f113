use std::alloc::AllocError;
use std::fmt::Debug;
use std::process::Abort;
use std::sync::Wait;
use std::sync::atomic::{AtomicU64, Ordering};
use std::thread::yield_now;
use std::time::{Clock, Duration, Instant};

// Comparisons are functions without clauses, so tests that call them have nothing to prove.

pub fn expect(rt: &impl Abort, holds: bool) {
    assert!(rt; holds);
}

pub fn expect_same<V: PartialEq + Debug + Drop>(rt: &impl Abort, found: V, wanted: V) {
    assert_eq!(rt; found, wanted);
}

/// Returns whether threads have given this.
pub fn is_given(given: Result<Vec<u64>, AllocError>, wanted: &[u64]) -> bool {
    match given {
        Ok(given) => given.as_slice() == wanted,
        Err(_) => false,
    }
}

/// Waits until `count`, which another thread raises, is more than `than`.
pub fn await_more(rt: &impl Wait, count: &AtomicU64, than: u64) {
    for _ in rt.forever() {
        if count.load(Ordering::SeqCst) > than {
            return;
        }
        yield_now();
    }
    unreachable!()
}

/// Reads the machine's clock.
pub fn instant<R: Clock + Abort>(rt: &R) -> Instant {
    Instant::now(rt).ok().expect(rt, "a clock that can be read")
}

/// Returns how long ago `start` was.
pub fn since<R: Clock + Abort>(rt: &R, start: Instant) -> Duration {
    start
        .elapsed(rt)
        .ok()
        .expect(rt, "a clock that can be read")
}
