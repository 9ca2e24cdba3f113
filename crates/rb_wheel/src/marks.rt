ghost use Rattle.std.specs.Prelude.{◌≡◌, ◌<◌, ◌≤◌, ℕ, ◌≢◌, ◌↔◌, IsTrue, IfSome, MatchOption};
ghost use Rattle.rb_wheel.specs.declared.cells.TheConstants.{CELLS};

use crate::cells::{DIGITS, LEVELS};

/// A set of cells: one word of 64 bits for each level.
#[derive(Clone, Copy, Debug)]
pub(crate) struct Marks {
    words: [u64; LEVELS],
}

impl Marks {
    ghost use Rattle.rb_wheel.specs.Marks.{mark_at, IsFirstMarked};

    /// No cell is marked.
    pub(crate) fn new() -> Self
        ensures { (cell : ℕ) → mark_at result cell ≡ 0 }
    {
        Marks { words: [0; LEVELS] }
    }

    /// Marks a cell.
    pub(crate) fn insert(&mut self, cell: usize)
        requires { cell < CELLS }
        ensures here { mark_at self.new cell ≡ 1 }
        ensures elsewhere { (other : ℕ) → other ≢ cell → mark_at self.new other ≡ mark_at self.old other }
    {
        self.words[cell / DIGITS] |= 1 << (cell % DIGITS);
    }

    /// Takes the mark off a cell.
    pub(crate) fn remove(&mut self, cell: usize)
        requires { cell < CELLS }
        ensures here { mark_at self.new cell ≡ 0 }
        ensures elsewhere { (other : ℕ) → other ≢ cell → mark_at self.new other ≡ mark_at self.old other }
    {
        self.words[cell / DIGITS] &= !(1 << (cell % DIGITS));
    }

    /// Whether a cell is marked.
    pub(crate) fn contains(&self, cell: usize) -> bool
        requires { cell < CELLS }
        ensures { IsTrue result ↔ (mark_at self.now cell ≡ 1) }
    {
        (self.words[cell / DIGITS] >> (cell % DIGITS)) & 1 == 1
    }

    /// The first marked cell, if any is marked.
    pub(crate) fn first(&self) -> Option<usize>
        ensures in_wheel { IfSome result (λ cell. cell < CELLS) }
        ensures first { IsFirstMarked self.now result }
    {
        for (level, word) in self.words.iter().enumerate() {
            if *word != 0 {
                return Some(level * DIGITS + word.trailing_zeros() as usize);
            }
        }
        None
    }
}
