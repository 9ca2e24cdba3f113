use crate::pair::Pair;
use crate::view::View;
use atomic_table::{Seat, TableRule};
use rb_kept::Kept;
use rb_timer::Timer;
use std::snapshot::Snapshot;

/// The rule of the lock's table: what holds between any two steps, whoever made them.
pub(crate) struct LockRule;

impl<T: Timer> TableRule<Option<Pair<T>>, View, Snapshot<Kept<T>>> for LockRule {
    ghost use Rattle.rb_lock.specs.Views.{newcomer};
    ghost use Rattle.rb_lock.specs.Rule.{Locked};

    ghost holds = { λ _. Locked };

    ghost first = { λ start. newcomer start.value };
}

/// The table, as its threads step on it.
pub(crate) type LockTable<T> = atomic_table::Shared<
    Option<Pair<T>>,
    View,
    Snapshot<Kept<T>>,
    LockRule,
>;

/// The seat of a pass.
pub(crate) type PassSeat<T> = Seat<Option<Pair<T>>, View>;
