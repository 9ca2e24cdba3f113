use crate::reads::Reads;
use std::io::{self, ErrorKind, Read};

/// A reader that gives its bytes, a limited number at each read, and then ends or fails.
#[derive(Drop)]
pub struct Source<'a> {
    rest: &'a [u8],
    reads: Reads,
    fails: bool,
    is_interrupted: bool,
    /// Whether the next read is interrupted.
    is_due: bool,
}

impl<'a> Source<'a> {
    pub fn new(rest: &'a [u8], reads: Reads, fails: bool, is_interrupted: bool) -> Source<'a> {
        Source {
            rest,
            reads,
            fails,
            is_interrupted,
            is_due: is_interrupted,
        }
    }
}

impl Read for Source<'_> {
    fn read(&mut self, buf: &mut [u8]) -> io::Result<usize> {
        if self.is_due {
            self.is_due = false;
            return Err(ErrorKind::Interrupted.into());
        }
        self.is_due = self.is_interrupted;
        if self.fails && self.rest.is_empty() {
            return Err(ErrorKind::ConnectionReset.into());
        }
        let count = self.reads.first.min(buf.len()).min(self.rest.len());
        self.reads = Reads::of_size(self.reads.later);
        buf[..count].copy_from_slice(&self.rest[..count]);
        self.rest = &self.rest[count..];
        Ok(count)
    }
}
