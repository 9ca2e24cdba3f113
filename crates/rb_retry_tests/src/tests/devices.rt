ghost use Rattle.std.specs.Prelude.{◌≡◌};

use rb_blocking::Clock;
use rb_lock::{Pass, Shared};
use rb_timer::ListTimer;
use std::fmt::Debug;
use std::process::Abort;

pub type ListShared = Shared<ListTimer>;

pub type ListPass = Pass<ListTimer>;

/// A clock that always reads the moment that it holds.
#[derive(Clone, Copy)]
pub struct FixedClock(pub u64);

impl Clock for FixedClock {
    ghost gives = { λ clock moment. moment ≡ clock.0 };

    ghost reads = { λ _ _ _. Unit {0} };

    fn now(&self) -> u64 {
        self.0
    }

    fn now_for_try(&self, _tries: u64) -> u64 {
        self.now()
    }
}

// Comparisons are functions without clauses, so tests that call them have nothing to prove.

pub fn expect_same<T: PartialEq + Debug + Drop>(rt: &impl Abort, found: T, wanted: T) {
    assert_eq!(rt; found, wanted);
}

pub fn expect_holds(rt: &impl Abort, holds: bool) {
    assert!(rt; holds);
}
