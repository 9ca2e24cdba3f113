ghost use Rattle.std.specs.Prelude.{List};
ghost use Rattle.rb_queue.specs.declared.event.Event.{Event};
ghost use Rattle.rb_history.specs.Ranges.{IsRightOpening, AreRightEvents};
ghost use Rattle.rb_history.specs.Readings.{IsTextOf};
ghost use Rattle.rb_runs.specs.Beginning.{BeginsIn, Continues};

use rb_ending::BrokerFault;
use rb_queue::Opening;
use rb_replay::{OpeningFault, TextFault, opening_of, read_history};
use std::alloc::Global;

/// The opening of a run that continues the one whose history this text is.
///
/// The faults are `Memory` and, unless memory runs out, `BadOpening` exactly if the text is not a
/// history, or if its history is not legal or leads past the limits of an opening.
pub fn opening_in(alloc: Global, text: &[u8]) -> Result<Opening, BrokerFault>
    ensures begins { BeginsIn text.now result }
    ensures each { (from : Opening) (events : List Event) → IsRightOpening from → AreRightEvents events
        → IsTextOf from events text.now → Continues from events result }
{
    let history = match read_history(alloc, text) {
        Ok(history) => history,
        Err(TextFault::At { .. }) => return Err(BrokerFault::BadOpening),
        Err(TextFault::Memory) => return Err(BrokerFault::Memory),
    };
    match opening_of(alloc, &history) {
        Ok(opening) => Ok(opening),
        Err(OpeningFault::At { .. }) => Err(BrokerFault::BadOpening),
        Err(OpeningFault::TooLarge) => Err(BrokerFault::BadOpening),
        Err(OpeningFault::Memory) => Err(BrokerFault::Memory),
    }
}
