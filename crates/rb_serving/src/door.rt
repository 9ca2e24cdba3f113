ghost use Rattle.std.specs.Prelude.{ℕ, ◌+◌, ◌≤◌, List, [], ◌++◌, OnErr, IfNone, IfOk, IfSome};
ghost use Rattle.rb_protocol.specs.declared.streams.limited_reader.LimitedReader.{LimitedReader};
ghost use Rattle.rb_protocol.specs.declared.streams.writer_status.WriterStatus.{WriterStatus};
ghost use Rattle.rb_lock.specs.Passes.{PassState};
ghost use Rattle.rb_serving.specs.declared.visit.Visit.{Visit};
ghost use Rattle.rb_serving.specs.DoorSteps.{DoorStep, Sees, LetIn, TurnedAway, NoMore, Left};
ghost use Rattle.rb_serving.specs.Visits.{IsUnused};

use crate::visit::Visit;
use rb_blocking::Gate;
use rb_lock::Pass;
use rb_protocol::{LimitedReader, WriterStatus};
use rb_timer::Timer;
use std::io::Read;
use std::sync::Wait;
use std::time;
use thiserror::Error;

/// A visitor came but could not be let in.
#[derive(Clone, Copy, Debug, PartialEq, Eq, Error)]
#[error("a visitor could not be let in")]
pub struct DoorFault;

/// An entrance through which visits come. Others of the same door can be split off it, and joined to it again.
///
/// `has_seen` tells all that happened at an entrance that was split off, in order. `has_joined` tells how many entrances
/// were split off one and are not back, and all that happened at those that are, one behind the other. Code over any
/// door learns them from these four methods alone: so it can hide nothing that happened at an entrance, except by
/// letting that entrance go, and then one is not back.
///
/// An entrance is for the visits of one pass: it lets the next one in only for that pass as it was when the last one
/// left, and takes back only what a session left that led the pass from there to where it is. So the pass makes no
/// other calls in between, and no call answers two visitors. While a session runs, its writer is shown the pass with each
/// piece, and may demand that the lines that it answers led the pass there.
pub trait Door {
    /// What a visitor's requests are read from.
    type Reader: Read + Drop + Send;

    /// What a visitor's replies are written to. A server wants it to be a `Recipient` that is shown the pass that serves
    /// the visit.
    type Writer: Drop + Send;

    /// What may end a visitor's waits.
    type Gate: Gate + Drop + Send;

    ghost has_seen: { Self → List (DoorStep Self.Reader Self.Writer Self.Gate) → Type 0 };

    ghost demands: { Visit Self.Reader Self.Writer Self.Gate → LimitedReader Self.Reader → WriterStatus Self.Writer
        → Self.Writer → PassState → PassState → Type 0 };

    ghost is_ready: { Self → PassState → Type 0 };

    ghost awaits: { Self → Visit Self.Reader Self.Writer Self.Gate → PassState → Type 0 };

    ghost may_split: { Self → ℕ → ℕ → Type 0 };

    ghost has_joined: { Self → ℕ → List (DoorStep Self.Reader Self.Writer Self.Gate) → Type 0 };

    /// The next visit, which no other entrance gets, or `None` if there are no more. It may wait for
    /// one, and after a visitor that could not be let in. It is shown the pass that is to serve the visit, as it was
    /// shown last.
    fn next<T: Timer, R: Wait + time::Clock>(
        &mut self,
        rt: &R,
        pass: &Pass<T>,
    ) -> Option<Result<Visit<Self::Reader, Self::Writer, Self::Gate>, DoorFault>>
        requires ready { is_ready self.old pass.now }
        ensures waited_for { IfSome result (λ visit. IfOk visit (λ visit. awaits self.new visit pass.now)) }
        ensures still_ready { IfSome result (λ visit. OnErr visit (is_ready self.new pass.now)) }
        ensures let_in { IfSome result (λ visit. IfOk visit (λ visit. Sees has_seen self.old (LetIn visit) self.new)) }
        ensures turned_away { IfSome result (λ visit. OnErr visit (Sees has_seen self.old TurnedAway self.new)) }
        ensures no_more { IfNone result (Sees has_seen self.old NoMore self.new) };

    /// Takes back what is left of a visit that it let in, when its session is over: a reader that knows how often it
    /// was read and what the last read came to, what the writer has come to, and the writer, to which nothing more is
    /// written. It is shown the pass that served the visit, whose calls since `next` are those of the session. A pass
    /// can't be made up, so no session on another queue will do.
    fn leave<T: Timer>(
        &mut self,
        reader: &LimitedReader<'_, Self::Reader>,
        status: &WriterStatus<Self::Writer>,
        writer: Self::Writer,
        pass: &Pass<T>,
    )
        requires served { (visit : Visit Self.Reader Self.Writer Self.Gate) × (before : PassState)
            × awaits self.old visit before × demands visit reader.now status.now writer before pass.now }
        ensures seen { Sees has_seen self.old (Left reader.now status.now writer) self.new }
        ensures ready { is_ready self.new pass.now };

    /// Another entrance of the door, at which nothing happened yet, for the visits that this pass is to serve, which has
    /// made no call yet. Each is for a pass of a later name than the one before, so none is for the same pass.
    fn split<T: Timer>(&mut self, pass: &Pass<T>) -> Self
        requires unused { IsUnused pass.now }
        requires more { (more : ℕ) × (least : ℕ) × may_split self.old (more + 1) least × (least ≤ pass.now.name) }
        ensures fewer { (more least : ℕ) → may_split self.old (more + 1) least → may_split self.new more (pass.now.name + 1) }
        ensures begun { has_seen result [] }
        ensures ready { is_ready result pass.now }
        ensures out { (out : ℕ) (log : List (DoorStep Self.Reader Self.Writer Self.Gate)) → has_joined self.old out log
            → has_joined self.new (out + 1) log };

    /// Takes an entrance back.
    fn join(&mut self, other: Self)
        ensures { (out : ℕ) (log own : List (DoorStep Self.Reader Self.Writer Self.Gate)) → has_joined self.old (out + 1) log
            → has_seen other own → has_joined self.new out (log ++ own) };
}
