ghost use Rattle.std.specs.Prelude.{◌≡◌, ℕ, ◌≤◌, length};
ghost use Rattle.rb_kept.specs.declared.kept.TheConstants.{MOST_CALLS};
ghost use Rattle.rb_retry.specs.KeptSteps.{KeptState, KeptSteps, NeverMisses, SetsKept, made_at, answer_of, asked_at};
ghost use Rattle.rb_retry.specs.KeptLaws.{kept_makes, kept_gives_once, kept_refuses, kept_stays};
ghost use Rattle.rb_retry.specs.KeptLaws.{kept_tries_once, kept_keeps_name, kept_sets_no_name};

use crate::desk::Desk;
use crate::desk_fault::DeskFault;
use rb_delayed::Element;
use rb_kept::{CallFault, Kept, Outcome, Step};
use rb_ledger::Tally;
use rb_queue::{Ask, Draft, Reply};
use rb_timer::Timer;

/// The only seat of a kept queue that is not shared.
const SEAT: u64 = 0;

/// A desk over a kept queue that is not shared. Its clock stands still until it is set.
///
/// Its calls are those of seat 0. Nobody else could offer what a call would wait for, so a call that
/// would wait is answered `Stopped` at once. The desk takes no memory of its own.
#[derive(Drop)]
pub struct KeptDesk<'a, T: Timer> {
    kept: &'a mut Kept<T>,
    tally: &'a mut Tally,
    moment: u64,
    // How many events the history had when the desk was made.
    before: usize,
    ghost earlier: { before ≤ length kept.now.history },
    ghost few: { length kept.now.history ≤ kept.now.capacity },
    ghost most: { kept.now.capacity ≤ MOST_CALLS },
}

impl<'a, T: Timer> KeptDesk<'a, T> {
    /// A desk whose calls the tally counts. Its clock is at the opening's `last_at`.
    pub fn new(kept: &'a mut Kept<T>, tally: &'a mut Tally) -> KeptDesk<'a, T>
        ensures state { ⟦<KeptDesk<'a, T> as Desk>⟧.state result
            ≡ record {
              name = kept.entry.ghost_name;
              log = kept.old;
              share = tally.old;
              moment = kept.old.opening.last_at;
              before = length kept.old.history;
            } }
        ensures few { length (made_at (⟦<KeptDesk<'a, T> as Desk>⟧.state result)) ≤ MOST_CALLS }
    {
        // For the proof: how long the history may get.
        let _ = kept.capacity();
        let moment = kept.opening().last_at;
        let before = kept.history().len();
        KeptDesk {
            kept,
            tally,
            moment,
            before,
        }
    }
}

impl<'a, T: Timer> Desk for KeptDesk<'a, T> {
    ghost State = { KeptState };

    ghost state = { λ desk. record {
      name = desk.kept.ghost_name;
      log = desk.kept.now;
      share = desk.tally.now;
      moment = desk.moment;
      before = desk.before;
    } };

    ghost Name = { ℕ };

    ghost name = { λ state. state.name };

    ghost mine = { made_at };

    ghost gives = { λ state moment. moment ≡ state.moment };

    ghost Sets = { SetsKept };

    ghost Steps = { KeptSteps };

    ghost Tries = { KeptSteps };

    ghost Misses = { NeverMisses };

    type Witness = Kept<T>;

    ghost shows = { λ state kept. kept ≡ state.log };

    fn witness(&self) -> &Kept<T> {
        self.kept
    }

    fn now(&self) -> u64 {
        self.moment
    }

    fn set(&mut self, moment: u64) -> Option<u64> {
        self.moment = moment.max(self.moment);
        Some(self.moment)
    }

    fn call(&mut self, asked: u64, ask: Ask) -> Result<Reply, DeskFault> {
        let asked = asked_at(self.moment, &ask, asked);
        answer_of(self.kept.act(self.tally, SEAT, asked, ask))
    }

    fn try_call(&mut self, asked: u64, ask: Ask) -> Option<Result<Reply, DeskFault>> {
        Some(self.call(asked, ask))
    }

    fn offer(&mut self, asked: u64, draft: Draft) -> Result<Element, CallFault> {
        let outcome = self.kept.act(self.tally, SEAT, asked, Ask::Offer(draft))?;
        let Outcome::Done(reply) = outcome else {
            unreachable!()
        };
        let Reply::Offered(element) = reply else {
            unreachable!()
        };
        Ok(element)
    }

    ghost makes = { kept_makes };

    ghost gives_once = { kept_gives_once };

    ghost refuses = { kept_refuses };

    ghost stays = { kept_stays };

    ghost tries_once = { kept_tries_once };

    ghost tries_again = { λ old mid new handed ask answer missed. absurd missed };

    ghost misses = { λ old new missed. absurd missed };

    ghost keeps_name = { kept_keeps_name };

    ghost misses_no_name = { λ old new missed. absurd missed };

    ghost sets_no_name = { kept_sets_no_name };
}

// The moment at which a call is asked.
fn asked_at(moment: u64, ask: &Ask, handed: u64) -> u64
    ensures { result ≡ asked_at moment ask.now handed }
{
    match ask {
        Ask::Take | Ask::PollFor { .. } => moment,
        _ => handed,
    }
}

// The desk's answer. A wait is stopped, since nobody else could end it.
fn answer_of(step: Step) -> Result<Reply, DeskFault>
    ensures { result ≡ answer_of step }
{
    match step {
        Ok(Outcome::Done(reply)) => Ok(reply),
        Ok(Outcome::Later(_)) => Err(DeskFault::Stopped),
        Err(fault) => Err(DeskFault::from(fault)),
    }
}
