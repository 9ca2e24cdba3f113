ghost use Rattle.std.specs.Prelude.{◌≡◌};
ghost use Rattle.rb_replay.specs.AttemptIndex.{attempt_of};

use rb_delayed::Element;

/// Which attempt of which job.
#[derive(Clone, Copy, Debug, PartialEq, Eq, PartialOrd, Ord)]
pub(crate) struct Attempt {
    /// The id of the first element that carried the job.
    pub(crate) origin: u64,
    /// 1 for the first attempt.
    pub(crate) number: u32,
}

impl Attempt {
    /// Which attempt an element is.
    pub(crate) fn of(element: &Element) -> Attempt
        ensures { result ≡ attempt_of element.now }
    {
        Attempt {
            origin: element.origin,
            number: element.attempt,
        }
    }
}
