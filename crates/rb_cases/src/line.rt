/// A line of a file.
#[derive(Clone, Copy)]
pub struct Line<'a> {
    /// Its number in the file, counted from 1.
    pub number: usize,
    pub text: &'a str,
}

impl<'a> Line<'a> {
    /// The command and the answers, if the line is a row of a table.
    pub fn row(self) -> Option<(&'a str, &'a str)> {
        self.text.rsplit_once(" = ")
    }

    /// The first word, and what follows it.
    pub fn cut(self) -> (&'a str, &'a str) {
        cut(self.text)
    }
}

/// Returns the first word of a text, and what follows the space behind it.
pub fn cut(text: &str) -> (&str, &str) {
    text.split_once(' ').unwrap_or((text, ""))
}
