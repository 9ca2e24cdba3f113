use crate::finding::Finding;
use crate::flaw::Flaw;
use crate::table::Table;
use crate::told::Told;
use std::alloc::Global;

/// A command whose escapes have been read.
#[derive(Clone, Copy)]
pub struct Command<'a> {
    pub bytes: &'a [u8],
    /// The words, or none if the bytes are no text.
    pub words: &'a [&'a str],
}

/// What the rows of a table are about: it performs their commands.
pub trait Subject: Drop + Sized {
    /// Performs a command. Its answer is appended to `came`.
    fn answer(&mut self, alloc: Global, command: Command<'_>, came: &mut Told) -> Result<(), Flaw>;
}

/// A subject that is made for a table, by its set-up.
pub trait FromSetUp: Subject {
    fn begin(alloc: Global, table: &Table<'_>, found: &mut Finding) -> Result<Self, Flaw>;
}
