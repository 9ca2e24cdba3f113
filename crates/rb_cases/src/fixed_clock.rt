ghost use Rattle.std.specs.Prelude.{◌≡◌};

use rb_blocking::Clock;

/// A clock that always reads this moment.
#[derive(Clone, Copy)]
pub struct FixedClock(pub u64);

impl Clock for FixedClock {
    ghost gives = { λ clock moment. moment ≡ clock.0 };

    ghost reads = { λ _ _ _. Unit {0} };

    fn now(&self) -> u64 {
        self.0
    }

    fn now_for_try(&self, _tries: u64) -> u64 {
        self.now()
    }
}
