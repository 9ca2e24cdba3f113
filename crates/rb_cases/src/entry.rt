use crate::line::{Line, cut};

/// An entry of a file: a case, or a table.
#[derive(Clone, Copy)]
pub struct Entry<'a> {
    pub is_table: bool,
    /// The number of its first line.
    pub line: usize,
    /// What follows the word that begins it.
    pub head: &'a str,
    /// Its other lines.
    pub lines: &'a [Line<'a>],
}

impl<'a> Entry<'a> {
    /// Its name. What a table is about comes before it.
    pub fn name(self) -> &'a str {
        if self.is_table {
            cut(self.head).1
        } else {
            self.head
        }
    }
}
