use crate::rule::PassSeat;
use rb_timer::Timer;
use std::fmt::{self, Debug, Formatter};
use std::marker::Model;

/// What a pass had seen of the history when the note was taken, for another pass to hear, perhaps in another thread.
/// Contracts see that; none of it is stored.
#[derive(Drop)]
pub struct Note<T: Timer> {
    pub(crate) seat: PassSeat<T>,
}

impl<T: Timer> Model for Note<T> {
    ghost use Rattle.rb_lock.specs.Passes.{NoteState, note_code};
    ghost use Rattle.rb_lock.specs.LockSteps.{IsNote};

    ghost Value = { NoteState };

    ghost coded = { note_code };

    ghost view = { λ note. record { table = note.seat.table_id; seen = note.seat.me.0.seen } };

    ghost invariant = { λ note. IsNote note.seat.me };
}

impl<T: Timer> Debug for Note<T> {
    fn fmt<W: fmt::Write>(&self, f: &mut Formatter<W>) -> fmt::Result {
        f.debug_struct("Note").finish_non_exhaustive()
    }
}
