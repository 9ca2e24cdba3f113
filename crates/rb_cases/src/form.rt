use crate::flaw::Flaw;
use crate::numbers::number;

/// How a line of a case gives a part of a text.
#[derive(Clone, Copy)]
pub enum Form {
    /// As one line.
    Line,
    /// As a part of a line, without its end.
    Part,
    /// As this many lines.
    Lines(usize),
}

impl Form {
    /// Splits a word into the mark of a text and the form that follows the mark.
    pub fn split(word: &str) -> Result<(&str, Form), Flaw> {
        if let Some(mark) = word.strip_suffix('~') {
            return Ok((mark, Form::Part));
        }
        match word.split_once('*') {
            Some((mark, times)) => Ok((mark, Form::Lines(number(times)?))),
            None => Ok((word, Form::Line)),
        }
    }
}
