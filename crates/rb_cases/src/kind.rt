use crate::flaw::Flaw;

/// What the rows of a table are about.
#[derive(Clone, Copy)]
pub enum Kind {
    /// Commands to a timer, over each of the four.
    Timer,
    /// Calls of a kept queue, over each of the four timers.
    Queue,
    /// Lines of the protocol.
    Lines,
    /// Words of the command line.
    Words,
    /// Jobs at the desks at which no call waits.
    Jobs,
}

impl Kind {
    /// Returns the kind named `name`.
    pub fn of(name: &str) -> Result<Kind, Flaw> {
        match name {
            "timer" => Ok(Kind::Timer),
            "queue" => Ok(Kind::Queue),
            "lines" => Ok(Kind::Lines),
            "words" => Ok(Kind::Words),
            "jobs" => Ok(Kind::Jobs),
            _ => Err(Flaw::Kind),
        }
    }
}
