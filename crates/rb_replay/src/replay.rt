ghost use Rattle.std.specs.Prelude.{◌≡◌, ◌<◌, ◌≤◌, length};
ghost use Rattle.rb_replay.specs.Replaying.{fault_at, ReplaysEvent, Replays};

use crate::judge::{JudgeFault, judge};
use crate::reason::Reason;
use crate::replay_fault::ReplayFault;
use crate::replayed_queue::ReplayedQueue;
use rb_history::MOST_EVENTS;
use rb_queue::{Event, Opening, Sums};
use std::alloc::Global;

/// The state that a history leads to, and the sums over its events.
#[derive(Drop)]
pub(crate) struct End {
    /// The elements in the queue.
    pub(crate) queue: ReplayedQueue,
    /// The moment of the last event.
    pub(crate) moment: u64,
    /// What the events removed and cleared.
    pub(crate) sums: Sums,
}

/// Makes a new queue repeat all events.
pub(crate) fn replay(alloc: Global, opening: &Opening, events: &[Event]) -> Result<End, ReplayFault>
    requires { length events.now ≤ MOST_EVENTS }
    ensures { Replays opening.now events.now result }
{
    let Ok(queue) = ReplayedQueue::new_from(alloc, opening) else {
        return Err(ReplayFault::Memory);
    };
    let mut end = End {
        queue,
        moment: opening.last_at,
        sums: Sums::NONE,
    };
    for (index, event) in events.iter().enumerate() {
        if let Err(fault) = replay_event(&mut end, event) {
            return Err(replay_fault(index as u64, fault));
        }
    }
    Ok(end)
}

// Makes the queue repeat one event.
fn replay_event(end: &mut End, event: &Event) -> Result<(), JudgeFault>
    requires { end.old.queue.next_id < u64.MAX }
    ensures { ReplaysEvent end.old event.now result end.new }
{
    if event.at != event.asked.max(end.moment) {
        return Err(JudgeFault::Refused(Reason::BadMoment));
    }
    let standing = end.queue.size();
    judge(&mut end.queue, event.at, &event.act)?;
    end.sums.note(&event.act, standing);
    end.moment = event.at;
    Ok(())
}

// The fault, with the event's index.
fn replay_fault(index: u64, fault: JudgeFault) -> ReplayFault
    ensures { result ≡ fault_at index fault }
{
    match fault {
        JudgeFault::Refused(reason) => ReplayFault::At { index, reason },
        JudgeFault::Memory => ReplayFault::Memory,
    }
}
