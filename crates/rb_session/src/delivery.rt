ghost use Rattle.std.specs.Prelude.{◌≡◌};

use crate::hands_on::HandsOn;

/// The greatest number of bytes that are gathered.
pub(crate) const GATHERED_BYTES: usize = 64 * 1024;

/// When a session's replies are written.
#[derive(Clone, Copy)]
pub enum Delivery {
    /// Each when its request is served. After a write that failed no line is served.
    AtOnce,
    /// Many in one write, when this says so. Lines may be served whose replies a later write that
    /// fails loses.
    Gathered(HandsOn),
}

impl Delivery {
    ghost use Rattle.rb_session.specs.Rules.{most_held_back};

    /// How many bytes may be held back.
    pub(crate) fn most_held_back(self) -> usize
        ensures { result ≡ most_held_back self }
    {
        match self {
            Delivery::AtOnce => 0,
            Delivery::Gathered(_) => GATHERED_BYTES,
        }
    }
}
