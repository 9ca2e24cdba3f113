use crate::flaw::Flaw;
use rb_delayed::{Element, Payload};
use std::alloc::Global;
use std::fmt::Display;
use std::str;

/// An answer: words and numbers, with spaces between them.
#[derive(Drop)]
pub struct Told {
    pub text: String,
}

impl Told {
    pub fn new(alloc: Global) -> Told {
        Told {
            text: String::new(alloc),
        }
    }

    /// Appends a value.
    pub fn value<D: Display + Drop>(&mut self, value: D) -> Result<(), Flaw> {
        if !self.text.is_empty() {
            self.text.push_str(" ")?;
        }
        Ok(write!(self.text, "{value}")?)
    }

    pub fn word(&mut self, word: &str) -> Result<(), Flaw> {
        self.value(word)
    }

    pub fn number(&mut self, number: u64) -> Result<(), Flaw> {
        self.value(number)
    }

    pub fn numbers(&mut self, numbers: &[u64]) -> Result<(), Flaw> {
        for number in numbers {
            self.number(*number)?;
        }
        Ok(())
    }

    /// Appends a word and a number.
    pub fn named(&mut self, word: &str, number: u64) -> Result<(), Flaw> {
        self.word(word)?;
        self.number(number)
    }

    /// Appends a moment, or `none`.
    pub fn moment(&mut self, moment: Option<u64>) -> Result<(), Flaw> {
        match moment {
            Some(moment) => self.number(moment),
            None => self.word("none"),
        }
    }

    /// Appends a word and an element.
    pub fn item(&mut self, word: &str, element: &Element) -> Result<(), Flaw> {
        self.word(word)?;
        self.element(element)
    }

    /// Appends an element in the form of the lines of a history: `ID EXPIRY ORIGIN FIRST ATTEMPT PAYLOAD`.
    pub fn element(&mut self, element: &Element) -> Result<(), Flaw> {
        self.numbers(&[element.id, element.expiry, element.origin, element.first])?;
        self.number(u64::from(element.attempt))?;
        self.word(payload_text(&element.payload))
    }
}

/// Returns the bytes of a payload, all of which are visible, as a text.
pub fn payload_text(payload: &Payload) -> &str {
    str::from_utf8(payload.as_bytes()).unwrap_or_default()
}
