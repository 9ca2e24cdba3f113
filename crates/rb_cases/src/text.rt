//! The texts of cases and tables, and their escapes:
//!
//! | Escape | Means |
//! |---|---|
//! | `\\` | a backslash |
//! | `\r`, `\n` | a carriage return, a line feed |
//! | `\xFF` | the byte of these two digits |
//! | `\(65 a)` | 65 times the text after the number |
//! | `\#` | the counter, a number |
//! | `\(# 65)` | the sum of the counter and 65 |
//! | `\(# *5 %7 +65)` | the same with further steps, one after the other: a product, a remainder, a sum |

use crate::counters::counted;
use crate::flaw::Flaw;
use crate::form::Form;
use crate::numbers::number;
use std::alloc::{AllocError, Global};

/// A text that is given line by line: a script, its replies or a history.
#[derive(Drop)]
pub struct Text {
    alloc: Global,
    pub bytes: Vec<u8>,
    /// Whether any line of the text is given. The text may still be empty.
    pub is_given: bool,
}

impl Text {
    pub fn new(alloc: Global) -> Text {
        Text {
            alloc,
            bytes: Vec::new(alloc),
            is_given: false,
        }
    }

    /// Takes the bytes that `told` stands for, in place of all others. Its counter is `counter`.
    pub fn set(&mut self, counter: usize, told: &str) -> Result<(), Flaw> {
        self.bytes.clear();
        self.push_told(counter, told)
    }

    /// Appends what a line gives.
    pub fn push(&mut self, form: Form, told: &str) -> Result<(), Flaw> {
        self.is_given = true;
        match form {
            Form::Line => self.push_line(0, told),
            Form::Part => self.push_told(0, told),
            Form::Lines(count) => self.push_lines(count, told),
        }
    }

    fn push_lines(&mut self, count: usize, told: &str) -> Result<(), Flaw> {
        for index in 0..count {
            self.push_line(index, told)?;
        }
        Ok(())
    }

    fn push_line(&mut self, index: usize, told: &str) -> Result<(), Flaw> {
        self.push_told(index, told)?;
        Ok(self.bytes.extend_from_slice(b"\n")?)
    }

    // Appends the bytes that the text stands for. There are no more escapes than bytes.
    fn push_told(&mut self, index: usize, told: &str) -> Result<(), Flaw> {
        let mut rest = told;
        for _ in 0..told.len() {
            if rest.is_empty() {
                return Ok(());
            }
            rest = self.push_piece(index, rest)?;
        }
        Ok(())
    }

    // Appends what comes before the first escape, and what the escape stands for. Returns what follows it.
    fn push_piece<'a>(&mut self, index: usize, told: &'a str) -> Result<&'a str, Flaw> {
        let Some((plain, escaped)) = told.split_once('\\') else {
            self.bytes.extend_from_slice(told.as_bytes())?;
            return Ok("");
        };
        self.bytes.extend_from_slice(plain.as_bytes())?;
        let Some((mark, rest)) = escaped.split_at_checked(1) else {
            return Err(Flaw::Escape);
        };
        match mark {
            "\\" => self.push_byte(b'\\', rest),
            "r" => self.push_byte(b'\r', rest),
            "n" => self.push_byte(b'\n', rest),
            "x" => self.push_hex(rest),
            "(" => self.push_repeated(index, rest),
            "#" => self.push_number(index, rest),
            _ => Err(Flaw::Escape),
        }
    }

    fn push_byte<'a>(&mut self, byte: u8, rest: &'a str) -> Result<&'a str, Flaw> {
        self.bytes.extend_from_slice(&[byte])?;
        Ok(rest)
    }

    // Appends the byte that the first two digits spell. Returns what follows them.
    fn push_hex<'a>(&mut self, told: &'a str) -> Result<&'a str, Flaw> {
        let Some((digits, rest)) = told.split_at_checked(2) else {
            return Err(Flaw::Escape);
        };
        match u8::from_str_radix(digits, 16) {
            Ok(byte) if !digits.starts_with('+') => self.push_byte(byte, rest),
            _ => Err(Flaw::Escape),
        }
    }

    // Appends what an escape with a `(` stands for: the repeated text of `65 a)`, or the number
    // of `# 65)`. Returns what follows the escape.
    fn push_repeated<'a>(&mut self, index: usize, told: &'a str) -> Result<&'a str, Flaw> {
        let Some((inner, rest)) = told.split_once(')') else {
            return Err(Flaw::Escape);
        };
        let Some((count, unit)) = inner.split_once(' ') else {
            return Err(Flaw::Escape);
        };
        if count == "#" {
            return self.push_number(counted(index, unit)?, rest);
        }
        self.push_units(number(count)?, unit.as_bytes())?;
        Ok(rest)
    }

    fn push_units(&mut self, count: usize, unit: &[u8]) -> Result<(), AllocError> {
        for _ in 0..count {
            self.bytes.extend_from_slice(unit)?;
        }
        Ok(())
    }

    fn push_number<'a>(&mut self, index: usize, rest: &'a str) -> Result<&'a str, Flaw> {
        let digits = index.to_string(self.alloc)?;
        self.bytes.extend_from_slice(digits.as_bytes())?;
        Ok(rest)
    }
}
