ghost use Rattle.std.specs.Prelude.{◌≤◌, length};
ghost use Rattle.rb_history.specs.declared.write.TheConstants.{MOST_EVENTS};

use crate::write::MOST_EVENTS;
use rb_queue::{Event, Opening, Sequence};

/// What a text says of a run: its opening, and its events, at most 1,000,000.
#[derive(Debug, Drop, PartialEq, Eq)]
pub struct History {
    pub(crate) opening: Opening,
    pub(crate) events: Sequence<Event>,
    pub(crate) ghost few: { length events ≤ MOST_EVENTS },
}

impl History {
    ghost use Rattle.std.specs.Prelude.{◌≡◌, ◌↔◌, IsSome, IfSome};

    /// The history of a run that began with this opening. `None` exactly if there are more than 1,000,000
    /// events. It takes no memory.
    pub fn new(opening: Opening, events: Sequence<Event>) -> Option<History>
        ensures few { IsSome result ↔ (length events ≤ MOST_EVENTS) }
        ensures opening { IfSome result (λ history. history.opening ≡ opening) }
        ensures events { IfSome result (λ history. history.events ≡ events) }
    {
        if events.as_slice().len() > MOST_EVENTS {
            return None;
        }
        Some(History { opening, events })
    }

    /// What the run began with.
    pub fn opening(&self) -> &Opening
        ensures { result.now ≡ self.now.opening }
    {
        &self.opening
    }

    /// The events, in order.
    pub fn events(&self) -> &[Event]
        ensures events { result.now ≡ self.now.events }
        ensures few { length result.now ≤ MOST_EVENTS }
    {
        self.events.as_slice()
    }
}
