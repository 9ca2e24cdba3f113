//! What each step of the lock changes, and how seats are cut and joined. These types are only for
//! proofs.
use crate::pair::Pair;
use crate::view::View;
use atomic_table::{Join, Play, Split};
use rb_timer::Timer;

/// A seat takes the lock, or finds it taken.
pub(crate) struct Take;

impl<T: Timer> Play<Option<Pair<T>>, View> for Take {
    ghost use Rattle.rb_lock.specs.LockSteps.{taken};

    ghost then = { taken };
}

/// The seat gives the lock back.
pub(crate) struct Give;

impl<T: Timer> Play<Option<Pair<T>>, View> for Give {
    ghost use Rattle.rb_lock.specs.LockSteps.{gave};

    ghost then = { gave };
}

/// The seat gives the lock back, and draws a name in the same step.
pub(crate) struct Draw;

impl<T: Timer> Play<Option<Pair<T>>, View> for Draw {
    ghost use Rattle.rb_lock.specs.LockSteps.{drew};

    ghost then = { drew };
}

/// A new seat is cut off, and gets the drawn name and its part.
pub(crate) struct Cut;

impl Split<View> for Cut {
    ghost use Rattle.rb_lock.specs.Views.{cut_short, cut_off};

    ghost left = { cut_short };

    ghost right = { cut_off };
}

/// The records of one seat follow those of another.
pub(crate) struct Fold;

impl Join<View> for Fold {
    ghost use Rattle.rb_lock.specs.Views.{folding, nobody};

    ghost both = { folding };

    ghost spent = { nobody };
}

/// A note of what a seat has seen is cut off it.
pub(crate) struct Noting;

impl Split<View> for Noting {
    ghost use Rattle.rb_lock.specs.Views.{note_of};

    ghost left = { λ v. v };

    ghost right = { note_of };
}

/// A note is joined to another seat, to be compared with what that has seen.
pub(crate) struct Compare;

impl Join<View> for Compare {
    ghost use Rattle.rb_lock.specs.Views.{meeting, nobody};

    ghost both = { meeting };

    ghost spent = { nobody };
}

/// The word is read: one of the two lists begins the other, since both begin the history.
pub(crate) struct Learn;

impl<T: Timer> Play<Option<Pair<T>>, View> for Learn {
    ghost use Rattle.rb_lock.specs.LockSteps.{learned};

    ghost then = { learned };
}
