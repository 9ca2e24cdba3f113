ghost use Rattle.std.specs.Prelude.{◌≡◌, ◌↔◌, ℕ, Bool, false, List, [], ◌∷◌};
ghost use Rattle.rb_blocking.specs.GateSteps.{GateStep, Asked, HasRested, Sees};

use rb_bell::Rested;
use rb_lock::Pass;
use rb_timer::Timer;

/// What may end a wait.
///
/// `answers` says what the gate may answer after a number of turns, and no turn changes that. Generic code gets an
/// answer only by asking, so a contract that says that the gate answers no says that it was asked and said no.
///
/// `has_seen` tells all that happened at a gate, in order: its turns, and the rests behind them. Generic code changes it
/// only by `turn` and `rested`, so a contract that tells of turns and rests says that they were made, in this order.
pub trait Gate {
    ghost answers: { Self → ℕ → Bool → Type 0 };

    ghost has_seen: { Self → List GateStep → Type 0 };

    /// Whether the wait goes on. `turns` is how many turns it has made before this one, or 2^64 - 1 if it has
    /// made more.
    fn turn(&mut self, turns: u64) -> bool
        ensures answers { answers self.old turns result }
        ensures same { (n : ℕ) (goes_on : Bool) → answers self.new n goes_on ↔ answers self.old n goes_on }
        ensures seen { Sees has_seen self.old self.new (Asked turns result ∷ []) };

    /// Sees that the call of this pass has rested. Only a bell makes a `Rested`, which can't be shown twice.
    fn rested<T: Timer>(&mut self, rested: Rested, pass: &Pass<T>)
        ensures same { (n : ℕ) (goes_on : Bool) → answers self.new n goes_on ↔ answers self.old n goes_on }
        ensures seen { Sees has_seen self.old self.new (HasRested pass.now.tried ∷ []) };

    /// Whether a wait may begin, asked before its first try.
    fn begins(&self) -> bool
        ensures kept_out { result ≡ false → answers self.now 0 false }
    {
        true
    }

    /// Hears how its session stands, before each request and each read: whether it holds jobs, and whether bytes that it
    /// has read are not served yet.
    fn hear(&self, _holds: bool, _has_more: bool) {}
}
