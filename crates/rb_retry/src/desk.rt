ghost use Rattle.std.specs.Prelude.{◌≡◌, ℕ, ◌≤◌, List, length, Option, Result, Ok, Err, MatchOption};
ghost use Rattle.rb_queue.specs.declared.ask.Ask.{Ask};
ghost use Rattle.rb_queue.specs.declared.ask.Ask.TheVariants as asks;
ghost use Rattle.rb_queue.specs.declared.reply.Reply.{Reply};
ghost use Rattle.rb_kept.specs.declared.kept.TheConstants.{MOST_CALLS};
ghost use Rattle.rb_retry.specs.Made.{Made, GivesOnce};
ghost use Rattle.rb_retry.specs.Asked.{Makes, MayGet, MayWait, offer_answer};
ghost use Rattle.rb_retry.specs.declared.desk_fault.DeskFault.{DeskFault};

use crate::desk_fault::DeskFault;
use rb_delayed::Element;
use rb_kept::CallFault;
use rb_queue::{Ask, Draft, Reply};

/// A caller's way to a delay queue, with a clock of its own.
///
/// At every desk, a call that gets a reply makes exactly one event, which has this reply; a refused
/// call makes none; and no call gives an id that one before it gave. What else a call does is each
/// desk's own relation, `Steps`.
pub trait Desk {
    /// What a contract sees of a desk.
    ghost State: { Type 0 };

    /// The state of this desk.
    ghost state: { Self → State };

    /// The type of a desk's name.
    ghost Name: { Type 0 };

    /// What no call changes: which reference to its queue the desk holds, and what its owner has to
    /// know of that queue afterwards.
    ghost name: { State → Name };

    /// What was made through the desk: each event, with its reply.
    ghost mine: { State → List Made };

    /// The numbers that are readings of the desk's clock.
    ghost gives: { State → ℕ → Type 0 };

    /// What setting the clock does, from one state to the next.
    ghost Sets: { State → ℕ → Option ℕ → State → Type 0 };

    /// What a call does, from one state to the next.
    ghost Steps: { State → ℕ → Ask → Result Reply DeskFault → State → Type 0 };

    /// What a call does that is answered by one try, at the moment that is handed in.
    ghost Tries: { State → ℕ → Ask → Result Reply DeskFault → State → Type 0 };

    /// What a try does after which the call would have to wait.
    ghost Misses: { State → State → Type 0 };

    /// What the desk shows of itself to whom its caller serves: something that only calls change and nobody can make up.
    type Witness;

    ghost shows: { State → Self.Witness → Type 0 };

    /// The witness of what was made so far.
    fn witness(&self) -> &Self::Witness
        ensures { shows (state self.now) result.now };

    /// The moment of the desk's clock, in nanoseconds.
    fn now(&self) -> u64
        ensures { gives (state self.now) result };

    /// Moves the clock to this moment, in nanoseconds, unless it is later already, and returns the moment
    /// that it has then. `None` if such a desk's clock can't be set.
    fn set(&mut self, moment: u64) -> Option<u64>
        ensures sets { Sets (state self.old) moment result (state self.new) };

    /// Hears how the session stands, before each request and each read: whether it holds jobs, and whether bytes that it
    /// has read are not served yet.
    fn hear(&self, _holds: bool, _has_more: bool) {}

    /// Makes one call. A take and a timed poll are made at readings of the desk's clock, and any other
    /// call at the moment `asked`, in nanoseconds, which those two ignore.
    ///
    /// The faults are `Full`, if there is no room for an event; `Memory`, only for an offer or a drain;
    /// and `Stopped`, only for a take or a timed poll.
    fn call(&mut self, asked: u64, ask: Ask) -> Result<Reply, DeskFault>
        ensures step { Steps (state self.old) asked ask result (state self.new) }
        ensures few { length (mine (state self.new)) ≤ MOST_CALLS };

    /// Tries a take or a timed poll once, at the moment `asked`, a reading of the desk's clock, and never waits for an
    /// element.
    ///
    /// `None` if the call would have to wait: then nothing was made, and it can be made by `call`. Any other result
    /// is that of the call.
    fn try_call(&mut self, asked: u64, ask: Ask) -> Option<Result<Reply, DeskFault>>
        requires { MayWait ask }
        ensures tried { MatchOption result
            (Misses (state self.old) (state self.new))
            (λ answer. Tries (state self.old) asked ask answer (state self.new)) };

    /// Offers an element at the moment `asked`, in nanoseconds: the call of `Ask::Offer`, answered with
    /// the element.
    ///
    /// The faults are `Full`, if there is no room for an event, and `Memory`, if there is not enough for
    /// the element.
    fn offer(&mut self, asked: u64, draft: Draft) -> Result<Element, CallFault>
        ensures step { Steps (state self.old) asked (asks.Offer draft) (offer_answer result) (state self.new) }
        ensures few { length (mine (state self.new)) ≤ MOST_CALLS };

    /// A call that gets a reply makes exactly one event, which has this reply.
    ghost makes: { (old new : State) (asked : ℕ) (ask : Ask) (reply : Reply) → Steps old asked ask (Ok reply) new
        → Makes (gives old) asked ask reply (mine old) (mine new) };

    /// No id is given twice.
    ghost gives_once: { (old new : State) (asked : ℕ) (ask : Ask) (reply : Reply) → Steps old asked ask (Ok reply) new
        → GivesOnce (mine new) };

    /// A refused call makes no event.
    ghost refuses: { (old new : State) (asked : ℕ) (ask : Ask) (fault : DeskFault) → Steps old asked ask (Err fault) new
        → MayGet ask fault × (mine new ≡ mine old) };

    /// Setting the clock makes no event.
    ghost stays: { (old new : State) (moment : ℕ) (result : Option ℕ) → Sets old moment result new
        → mine new ≡ mine old };

    /// What is answered by one try at a reading of the desk's clock is a call.
    ghost tries_once: { (old new : State) (asked handed : ℕ) (ask : Ask) (answer : Result Reply DeskFault) → MayWait ask
        → gives old asked → Tries old asked ask answer new → Steps old handed ask answer new };

    /// A call after a try that found nothing is a call from before it.
    ghost tries_again: { (old mid new : State) (handed : ℕ) (ask : Ask) (answer : Result Reply DeskFault)
        → Misses old mid → Steps mid handed ask answer new → Steps old handed ask answer new };

    /// A try that found nothing makes no event.
    ghost misses: { (old new : State) → Misses old new → mine new ≡ mine old };

    /// No call changes the name.
    ghost keeps_name: { (old new : State) (asked : ℕ) (ask : Ask) (answer : Result Reply DeskFault)
        → Steps old asked ask answer new → name new ≡ name old };

    /// A try that found nothing leaves the name.
    ghost misses_no_name: { (old new : State) → Misses old new → name new ≡ name old };

    /// Setting the clock leaves the name.
    ghost sets_no_name: { (old new : State) (moment : ℕ) (result : Option ℕ) → Sets old moment result new
        → name new ≡ name old };
}
