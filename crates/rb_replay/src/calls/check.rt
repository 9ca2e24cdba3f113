ghost use Rattle.std.specs.Prelude.{◌≡◌, ◌≤◌, length};
ghost use Rattle.rb_queue.specs.Counts.{audit_of};
ghost use Rattle.rb_replay.specs.Checking.{Checks};
ghost use Rattle.rb_replay.specs.Replaying.{IsEndOf};

use crate::replay::{End, replay};
use crate::replay_fault::ReplayFault;
use rb_history::MOST_EVENTS;
use rb_queue::{Audit, Event, Opening};
use std::alloc::Global;

/// Checks that the events, at most 1,000,000, are a legal history from the opening on, one that a queue
/// in one thread could have had, and returns its audit.
///
/// The fault `At` names the first event that is not allowed, and the first reason. `Memory` means that
/// there is not enough. Memory is taken for the elements in the queue, and each event takes time that
/// grows with the logarithm of their number.
pub fn check(alloc: Global, opening: &Opening, events: &[Event]) -> Result<Audit, ReplayFault>
    requires { length events.now ≤ MOST_EVENTS }
    ensures { Checks opening.now events.now result }
{
    let end = replay(alloc, opening, events)?;
    Ok(audit(opening, events, &end))
}

// The audit of the events that lead to this end.
fn audit(opening: &Opening, events: &[Event], end: &End) -> Audit
    requires end { IsEndOf opening.now events.now end.now }
    requires few { length events.now ≤ MOST_EVENTS }
    ensures { result ≡ audit_of opening.now events.now }
{
    let mut offered: u64 = 0;
    let mut given: u64 = 0;
    for event in events {
        offered += event.act.offered();
        given += event.act.given();
    }
    Audit {
        calls: events.len() as u64,
        offered,
        given,
        removed: end.sums.removed,
        cleared: end.sums.cleared,
        left: end.queue.size(),
        opening: opening.elements.as_slice().len() as u64,
    }
}
