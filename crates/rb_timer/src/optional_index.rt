//! An optional index in one word.
//!
//! A timer notes for each slot of its room where the slot's entry is, or which slot comes next to
//! it. An `Option<usize>` takes two words, and such notes are most of what a timer stores.
ghost use Rattle.std.specs.Prelude.{◌≡◌, ◌<◌, Some, None};

use std::marker::Model;

/// The word that stands for no index. Every index that can be noted is below it.
pub const NONE: usize = usize::MAX;

/// An index, or none, in one word: a slot that a slot is linked to, or a place in an array. Contracts see an option.
///
/// Each call costs a constant, and reads or writes that one word.
#[derive(Clone, Copy, Debug)]
pub struct OptionalIndex {
    word: usize,
}

impl Model for OptionalIndex {
    ghost use Rattle.std.specs.Prelude.{Option, ℕ};

    ghost Value = { Option ℕ };

    ghost use Rattle.rb_timer.specs.IndexWords.{option_of, IsIndexWord, word_of, word_of-option};

    ghost view = { option_of };

    ghost invariant = { IsIndexWord };

    ghost inverse = { word_of };

    ghost inverse_ok = { word_of-option };
}

impl OptionalIndex {
    /// No index.
    pub fn none() -> Self
        ensures { result ≡ None }
    {
        OptionalIndex { word: NONE }
    }

    /// This index.
    pub fn some(index: usize) -> Self
        requires { index < NONE }
        ensures { result ≡ Some index }
    {
        OptionalIndex { word: index }
    }

    /// The index, if there is one.
    pub fn as_option(self) -> Option<usize>
        ensures { result ≡ self }
    {
        if self.word < NONE {
            Some(self.word)
        } else {
            None
        }
    }

    /// Takes the index out, if there is one, and leaves none.
    pub fn take(&mut self) -> Option<usize>
        ensures value { result ≡ self.old }
        ensures after { self.new ≡ None }
    {
        let index = self.as_option();
        self.word = NONE;
        index
    }
}
