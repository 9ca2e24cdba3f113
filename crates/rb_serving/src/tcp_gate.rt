ghost use Rattle.std.specs.Prelude.{◌<◌, ◌≤◌, ◌⊎◌, IfNone, IfSome, IsSome, IsTrue, MatchBool};
ghost use Rattle.rb_serving.specs.TcpReasons.{IsWaitEnd};

use crate::ending::{Ending, InputRead, shown_drain};
use crate::incoming::Incoming;
use crate::standing::Standing;
use rb_blocking::{Gate, Rested};
use rb_lock::Pass;
use rb_timer::Timer;
use std::alloc::Global;
use std::fmt::{self, Debug, Formatter};
use std::sync::{Arc, OnceToken};

/// A gate that ends a wait after a number of turns. If told so, it also ends one, and lets none begin, when the server
/// is to drain; and it ends one when the client has sent something or hung up.
#[derive(Drop)]
pub struct TcpGate<'a, S> {
    pub(crate) limit: u64,
    pub(crate) ending: Option<&'a Ending>,
    // The connection, if the gate looks at it.
    pub(crate) watched: Option<S>,
    pub(crate) standing: Option<Arc<Standing, Global>>,
}

/// Why a gate ends a wait.
#[derive(Drop)]
pub(crate) enum WaitEnd<'a> {
    /// The wait has made all its turns.
    TurnsOver,
    /// The server is to drain, which this shows.
    Drains(OnceToken<'a, InputRead>),
    /// The client has sent something or hung up.
    ClientActs,
}

impl<'a, S: Incoming> TcpGate<'a, S> {
    // Why a wait ends after this many turns, if it does.
    fn end_of_wait(&self, turns: u64) -> Option<WaitEnd<'a>>
        ensures reason { IfSome result (IsWaitEnd self.now.limit self.now.ending (IsSome self.now.watched) turns) }
        ensures ends { IsSome result
            → (self.now.limit ≤ turns) ⊎ (IsSome self.now.ending ⊎ IsSome self.now.watched) }
        ensures goes_on { IfNone result (turns < self.now.limit) }
    {
        if turns >= self.limit {
            return Some(WaitEnd::TurnsOver);
        }
        if let Some(token) = shown_drain(self.ending) {
            return Some(WaitEnd::Drains(token));
        }
        if self.client_acts() {
            return Some(WaitEnd::ClientActs);
        }
        None
    }

    // Whether the gate looks at the connection, and sees that the client has sent something or hung up.
    fn client_acts(&self) -> bool
        ensures { IsTrue result → IsSome self.now.watched }
    {
        match &self.watched {
            Some(stream) => self.has_more() || stream.has_come(),
            None => false,
        }
    }

    fn has_more(&self) -> bool {
        match &self.standing {
            Some(standing) => standing.has_more(),
            None => false,
        }
    }
}

impl<'a, S: Incoming> Gate for TcpGate<'a, S> {
    ghost answers = { λ gate turns goes_on. MatchBool goes_on (turns < gate.limit)
        ((gate.limit ≤ turns) ⊎ (IsSome gate.ending ⊎ IsSome gate.watched)) };

    ghost has_seen = { λ gate steps. Unit {0} };

    fn turn(&mut self, turns: u64) -> bool {
        match self.end_of_wait(turns) {
            None => true,
            Some(_) => false,
        }
    }

    fn rested<T: Timer>(&mut self, _rested: Rested, _pass: &Pass<T>) {}

    fn begins(&self) -> bool {
        match shown_drain(self.ending) {
            None => true,
            Some(_) => false,
        }
    }

    fn hear(&self, holds: bool, has_more: bool) {
        if let Some(standing) = &self.standing {
            standing.set(holds, has_more);
        }
    }
}

impl<'a, S> Debug for TcpGate<'a, S> {
    fn fmt<W: fmt::Write>(&self, f: &mut Formatter<W>) -> fmt::Result {
        f.debug_struct("TcpGate")
            .field("limit", &self.limit)
            .finish_non_exhaustive()
    }
}
