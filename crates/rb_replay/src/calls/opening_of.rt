ghost use Rattle.std.specs.Prelude.{◌≡◌};
ghost use Rattle.rb_replay.specs.Opens.{Opens, OpensAt, opening_fault};
ghost use Rattle.rb_replay.specs.Replaying.{end_state};

use crate::opening_fault::OpeningFault;
use crate::replay::{End, replay};
use crate::replay_fault::ReplayFault;
use rb_history::History;
use rb_queue::Opening;
use std::alloc::Global;

/// The opening of a run that begins where this history ended: the elements that are left after its last
/// event, the next id, and the last moment.
///
/// The faults are `At`, as that of `check`; `TooLarge`, if a legal history leads past a limit of
/// openings; and `Memory`, if there is not enough. Memory is taken for the elements in the queue.
pub fn opening_of(alloc: Global, history: &History) -> Result<Opening, OpeningFault>
    ensures { Opens history.now.opening history.now.events result }
{
    match replay(alloc, history.opening(), history.events()) {
        Ok(end) => opening_at(&end),
        Err(fault) => Err(opening_fault(fault)),
    }
}

// The opening of a run that begins at this end of a replay.
fn opening_at(end: &End) -> Result<Opening, OpeningFault>
    ensures { OpensAt (end_state end.now) result }
{
    let Ok(elements) = end.queue.elements() else {
        return Err(OpeningFault::Memory);
    };
    match Opening::new(elements, end.queue.next_id(), end.moment) {
        Some(opening) => Ok(opening),
        None => Err(OpeningFault::TooLarge),
    }
}

// The fault of the replay, as one of an opening.
fn opening_fault(fault: ReplayFault) -> OpeningFault
    ensures { result ≡ opening_fault fault }
{
    match fault {
        ReplayFault::At { index, reason } => OpeningFault::At { index, reason },
        ReplayFault::Memory => OpeningFault::Memory,
    }
}
