use crate::flaw::Flaw;
use crate::line::cut;
use crate::numbers::number;
use crate::once::once;
use crate::timers::timer_of;
use rb_options::TimerKind;

/// The greatest numbers of bytes of a script that a read gives. The first value means the whole
/// script.
pub const SIZES: [usize; 3] = [usize::MAX, 1, 7];

/// A script of at most this many bytes is also cut in two, at every place.
pub const MOST_CUT: usize = 1_000;

/// The timer, the reads and the device faults that a case asks for.
#[derive(Clone, Copy)]
pub struct Devices {
    /// Whether the case says anything about devices.
    pub are_given: bool,
    timer: Option<TimerKind>,
    size: Option<usize>,
    /// Whether every second read is interrupted, if the case says so.
    interrupted: Option<bool>,
    /// The number of bytes after which a read fails.
    pub reader_fails: Option<usize>,
    /// The number of the writer's call that fails, counted from 0.
    pub writer_fails: Option<usize>,
    /// The greatest number of bytes that a write takes.
    pub writer_takes: Option<usize>,
    /// The number of the call of the history's device that fails, counted from 0.
    pub recorder_fails: Option<usize>,
}

impl Devices {
    pub fn new() -> Devices {
        Devices {
            are_given: false,
            timer: None,
            size: None,
            interrupted: None,
            reader_fails: None,
            writer_fails: None,
            writer_takes: None,
            recorder_fails: None,
        }
    }

    /// Returns whether the script is run over `timer`.
    pub fn have_timer(&self, timer: TimerKind) -> bool {
        match self.timer {
            Some(only) => only == timer,
            None => true,
        }
    }

    /// Returns whether the script is read in pieces of `size` bytes.
    pub fn have_size(&self, size: usize) -> bool {
        match self.size {
            Some(only) => only == size,
            None => true,
        }
    }

    /// Returns whether the case leaves open how the script is read.
    pub fn have_any_size(&self) -> bool {
        self.size.is_none()
    }

    /// Returns whether every second read is interrupted.
    pub fn are_interrupted(&self) -> bool {
        self.interrupted.is_some()
    }

    /// Takes a line that begins with `word`. `text` is what follows.
    pub fn take(&mut self, word: &str, text: &str) -> Result<(), Flaw> {
        self.are_given = true;
        let (kind, count) = cut(text);
        match (word, kind) {
            ("timer", _) => once(&mut self.timer, timer_of(text)?),
            ("reads", _) => once(&mut self.size, size_of(text)?),
            ("reader", "fails") => once(&mut self.reader_fails, number(count)?),
            ("reader", "interrupted") => once(&mut self.interrupted, true),
            ("writer", "fails") => once(&mut self.writer_fails, number(count)?),
            ("writer", "takes") => once(&mut self.writer_takes, number(count)?),
            ("recorder", "fails") => once(&mut self.recorder_fails, number(count)?),
            _ => Err(Flaw::Device),
        }
    }

    /// Checks that a read that is to fail can do so in an input of `input` bytes.
    pub fn check(&self, input: usize) -> Result<(), Flaw> {
        match self.reader_fails {
            Some(behind) if behind > input => Err(Flaw::BehindInput),
            _ => Ok(()),
        }
    }
}

fn size_of(name: &str) -> Result<usize, Flaw> {
    match name {
        "whole" => Ok(usize::MAX),
        "1" => Ok(1),
        "7" => Ok(7),
        _ => Err(Flaw::Device),
    }
}
