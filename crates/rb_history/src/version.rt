/// The versions of a history's text. All are read, and the third is written.
#[derive(Clone, Copy, Debug, PartialEq, Eq)]
pub enum Version {
    /// The events of a run that began with an empty queue. The line of an element leaves out the
    /// expiry of its origin's first offer.
    One,
    /// The same for a run that began with any other opening, which the text has before the events.
    Two,
    /// Any opening and its events. An element's line has the expiry of its origin's first offer.
    Three,
}
