ghost use Rattle.std.specs.Prelude.{◌≡◌, ◌↔◌, ℕ, Bool, ◌<◌, true};

use crate::gate::Gate;
use rb_bell::Rested;
use rb_lock::Pass;
use rb_timer::Timer;

/// A gate that ends a wait after a number of turns.
#[derive(Clone, Copy, Debug, PartialEq, Eq)]
pub struct TurnGate {
    /// How many turns a wait may make before the gate ends it.
    pub limit: u64,
}

impl Gate for TurnGate {
    ghost answers = { λ gate turns goes_on. (goes_on ≡ true) ↔ (turns < gate.limit) };

    ghost has_seen = { λ gate steps. Unit {0} };

    // It says no exactly if the wait has made `limit` turns or more.
    fn turn(&mut self, turns: u64) -> bool
        ensures answers { (result ≡ true) ↔ (turns < self.old.limit) }
        ensures same { (n : ℕ) (goes_on : Bool)
            → ((goes_on ≡ true) ↔ (n < self.new.limit)) ↔ ((goes_on ≡ true) ↔ (n < self.old.limit)) }
    {
        turns < self.limit
    }

    fn rested<T: Timer>(&mut self, _rested: Rested, _pass: &Pass<T>) {}
}
