//! What a case is, and how it is written.
//!
//! A file of cases is read as `reader.rt` says. Each line of a case begins with one word:
//!
//! | Line | Meaning |
//! |---|---|
//! | `case NAME` | the case's name, as it is printed |
//! | `args WORDS` | the words after `script` or `replay`, without the timer and the files |
//! | `from TEXT` | a line of the history that the script's run continues |
//! | `> TEXT` | a line of the script |
//! | `< TEXT` | a line of the replies |
//! | `= TEXT` | a line of the history: the one that a script must write, or that is replayed |
//! | `ends TEXT` | how a script ends: `quit N` or `input N` if N held jobs are lost, or the fault's text |
//! | `verdict TEXT` | the line that a replay must print |
//! | `status N` | the exit status of a replay |
//! | `timer T` | the script is only run over this timer |
//! | `reads N` | the script is only read in pieces of this many bytes: `whole`, 1 or 7, and not cut at every place |
//! | `reader fails N` | a read fails after N bytes of the script |
//! | `reader interrupted` | every second read is interrupted, beginning with the first |
//! | `writer fails N` | the writer's call with this number fails; writes and flushes are counted, from 0 |
//! | `writer takes N` | a write takes at most N bytes |
//! | `recorder fails N` | the call with this number of the history's device fails |
//!
//! `from`, `>`, `<` and `=` are given once for each line of their text. `>~ TEXT` is a line without
//! its end, and `>*500 TEXT` is 500 lines; the other three work alike. Without a `=` line a
//! script's run keeps no history, and `=~` alone says that nothing is written to it. Every other
//! word may be given once. A case with `ends` is a script; a case with `verdict` and `status` is a
//! replay, and has none of the words of a script.
//!
//! A TEXT of these four may have the escapes that `text.rt` describes. Their counter is the number of the
//! line among those of a `*`, counted from 0.

use crate::devices::Devices;
use crate::entry::Entry;
use crate::finding::Finding;
use crate::flaw::Flaw;
use crate::form::Form;
use crate::line::Line;
use crate::numbers::number;
use crate::once::once;
use crate::text::Text;
use clap::Error;
use rb_arguments::{Words, read_words};
use std::alloc::{AllocError, Global};

/// A run, and how it must come out.
#[derive(Drop)]
pub struct Case<'a> {
    args: Option<&'a str>,
    pub from: Text,
    pub input: Text,
    pub replies: Text,
    pub history: Text,
    pub ends: Option<&'a str>,
    pub verdict: Option<&'a str>,
    pub status: Option<u8>,
    pub devices: Devices,
}

impl<'a> Case<'a> {
    /// Returns the case that an entry is. It has all that a case needs, and nothing else.
    pub fn read(alloc: Global, entry: Entry<'a>, found: &mut Finding) -> Result<Case<'a>, Flaw> {
        let mut case = Case::new(alloc);
        case.take_all(entry.lines, found)?;
        found.line = entry.line;
        case.check()?;
        Ok(case)
    }

    fn new(alloc: Global) -> Case<'a> {
        Case {
            args: None,
            from: Text::new(alloc),
            input: Text::new(alloc),
            replies: Text::new(alloc),
            history: Text::new(alloc),
            ends: None,
            verdict: None,
            status: None,
            devices: Devices::new(),
        }
    }

    fn take_all(&mut self, lines: &'a [Line<'a>], found: &mut Finding) -> Result<(), Flaw> {
        for line in lines {
            found.line = line.number;
            self.take(*line)?;
        }
        Ok(())
    }

    fn take(&mut self, line: Line<'a>) -> Result<(), Flaw> {
        let (word, text) = line.cut();
        match word {
            "args" => once(&mut self.args, text),
            "ends" => once(&mut self.ends, ending(text)?),
            "verdict" => once(&mut self.verdict, text),
            "status" => once(&mut self.status, status_of(text)?),
            "timer" | "reads" | "reader" | "writer" | "recorder" => self.devices.take(word, text),
            _ => self.take_text(word, text),
        }
    }

    // Takes a line of one of the texts.
    fn take_text(&mut self, word: &str, text: &str) -> Result<(), Flaw> {
        let (mark, form) = Form::split(word)?;
        match mark {
            "from" => self.from.push(form, text),
            ">" => self.input.push(form, text),
            "<" => self.replies.push(form, text),
            "=" => self.history.push(form, text),
            _ => Err(Flaw::Word),
        }
    }

    fn check(&self) -> Result<(), Flaw> {
        let is_replay = self.verdict.is_some() || self.status.is_some();
        if !self.is_script() && !is_replay {
            return Err(Flaw::NoOutcome);
        }
        if is_replay && (self.is_script() || self.has_script_words()) {
            return Err(Flaw::Mixed);
        }
        if self.verdict.is_some() != self.status.is_some() {
            return Err(Flaw::Half);
        }
        self.devices.check(self.input.bytes.len())
    }

    /// Returns whether the case runs a script. Otherwise it replays a history.
    pub fn is_script(&self) -> bool {
        self.ends.is_some()
    }

    /// Reads the words of a command line: those of `first`, and behind them the words of `args`.
    pub fn words(&self, alloc: Global, first: &[&str]) -> Result<Result<Words, Error>, AllocError> {
        let args = self.args.unwrap_or("");
        let mut words = Vec::new(alloc);
        words.extend_from_slice(first)?;
        words.extend(args.split_whitespace())?;
        Ok(read_words(alloc, &words))
    }

    fn has_script_words(&self) -> bool {
        self.from.is_given || self.input.is_given || self.replies.is_given || self.devices.are_given
    }
}

// Returns the text of an end. What follows `quit` or `input`, the lost jobs, must be a number.
fn ending(text: &str) -> Result<&str, Flaw> {
    if let Some(("quit" | "input", lost)) = text.split_once(' ') {
        number(lost)?;
    }
    Ok(text)
}

fn status_of(text: &str) -> Result<u8, Flaw> {
    match u8::try_from(number(text)?) {
        Ok(status) => Ok(status),
        Err(_) => Err(Flaw::Number),
    }
}
