ghost use Rattle.std.specs.Prelude.{◌≡◌};
ghost use Rattle.rb_replay.specs.ReasonText.{reason_text};

/// Why the queue could not have had an event.
#[derive(Clone, Copy, Debug, PartialEq, Eq)]
pub enum Reason {
    /// The event's moment is not the greater of the asked moment and that of the event before.
    BadMoment,
    /// The offered element's id is not the next one.
    BadId,
    /// No element of this id is in the queue.
    NotInQueue,
    /// Another element has a smaller expiry.
    NotLeast,
    /// The element has not expired.
    NotExpired,
    /// There was something to give or to show.
    NotNone,
    /// The timed poll gave up before its deadline.
    TooEarly,
    /// An element of this id is in the queue and was not found, or none is and it was.
    WrongFound,
    /// More elements were drained than were asked for.
    TooMany,
    /// The drain left an expired element, and took fewer than were asked for.
    NotAll,
    /// The queue has another number of elements.
    WrongSize,
}

impl Reason {
    /// The reason as it is printed.
    pub fn as_str(self) -> &'static str
        ensures { result.now ≡ reason_text self }
    {
        match self {
            Reason::BadMoment => "bad moment",
            Reason::BadId => "bad id",
            Reason::NotInQueue => "not in queue",
            Reason::NotLeast => "not least",
            Reason::NotExpired => "not expired",
            Reason::NotNone => "not none",
            Reason::TooEarly => "too early",
            Reason::WrongFound => "wrong found",
            Reason::TooMany => "too many",
            Reason::NotAll => "not all",
            Reason::WrongSize => "wrong size",
        }
    }
}
