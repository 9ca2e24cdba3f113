//! A timer, which has no entry and no room at first.
//!
//! | Command | Answer |
//! |---|---|
//! | `reserve N` | `reserved`, or `no memory` |
//! | `room` | how many slots there are |
//! | `len` | how many entries there are |
//! | `get SLOT` | the expiry at the slot, or `none` |
//! | `insert SLOT EXPIRY` | `inserted`, or `refused` |
//! | `remove SLOT` | `removed EXPIRY`, or `refused` |
//! | `least` | `SLOT EXPIRY`, or `none` |
//! | `due MOMENT` | `SLOT EXPIRY`, or `none` |
//! | `clear` | `cleared` |
//!
//! The last five are the commands of `run_timer`, which refuses a command whose condition fails. There is no set-up.

use crate::finding::Finding;
use crate::flaw::Flaw;
use crate::numbers::number;
use crate::subject::{Command, FromSetUp, Subject};
use crate::table::Table;
use crate::told::Told;
use rb_timer::{Timer, TimerAnswer, TimerCommand, run_timer};
use std::alloc::Global;

#[derive(Drop)]
pub struct TimerSubject<T: Timer> {
    timer: T,
}

impl<T: Timer> FromSetUp for TimerSubject<T> {
    fn begin(alloc: Global, _: &Table<'_>, _: &mut Finding) -> Result<Self, Flaw> {
        Ok(TimerSubject {
            timer: T::new(alloc),
        })
    }
}

impl<T: Timer> Subject for TimerSubject<T> {
    fn answer(&mut self, alloc: Global, command: Command<'_>, came: &mut Told) -> Result<(), Flaw> {
        match *command.words {
            [word] => self.answer_word(alloc, word, came),
            [word, value] => self.answer_value(alloc, word, value, came),
            [word, slot, expiry] => self.insert(alloc, word, slot, expiry, came),
            _ => Err(Flaw::Command),
        }
    }
}

impl<T: Timer> TimerSubject<T> {
    fn answer_word(&mut self, alloc: Global, word: &str, came: &mut Told) -> Result<(), Flaw> {
        match word {
            "room" => came.number(self.timer.room() as u64),
            "len" => came.number(self.timer.len() as u64),
            "least" => self.run(alloc, TimerCommand::Least, came),
            "clear" => self.run(alloc, TimerCommand::Clear, came),
            _ => Err(Flaw::Command),
        }
    }

    fn answer_value(
        &mut self,
        alloc: Global,
        word: &str,
        value: &str,
        came: &mut Told,
    ) -> Result<(), Flaw> {
        match word {
            "reserve" => self.reserve(value, came),
            "get" => came.moment(self.timer.get(number(value)?)),
            "remove" => self.run(alloc, TimerCommand::Remove(number(value)?), came),
            "due" => self.run(alloc, TimerCommand::Due(number(value)? as u64), came),
            _ => Err(Flaw::Command),
        }
    }

    fn insert(
        &mut self,
        alloc: Global,
        word: &str,
        slot: &str,
        expiry: &str,
        came: &mut Told,
    ) -> Result<(), Flaw> {
        if word != "insert" {
            return Err(Flaw::Command);
        }
        let (slot, expiry) = (number(slot)?, number(expiry)? as u64);
        self.run(alloc, TimerCommand::Insert(slot, expiry), came)
    }

    fn reserve(&mut self, wanted: &str, came: &mut Told) -> Result<(), Flaw> {
        match self.timer.reserve(number(wanted)?) {
            Ok(()) => came.word("reserved"),
            Err(_) => came.word("no memory"),
        }
    }

    fn run(&mut self, alloc: Global, command: TimerCommand, came: &mut Told) -> Result<(), Flaw> {
        let answers = run_timer(alloc, &mut self.timer, &[command])?;
        tell(came, answers.first())
    }
}

fn tell(came: &mut Told, answer: Option<&TimerAnswer>) -> Result<(), Flaw> {
    match answer {
        Some(TimerAnswer::Inserted) => came.word("inserted"),
        Some(TimerAnswer::Removed(expiry)) => came.named("removed", *expiry),
        Some(TimerAnswer::Entry(Some((slot, expiry)))) => came.numbers(&[*slot as u64, *expiry]),
        Some(TimerAnswer::Entry(None)) => came.word("none"),
        Some(TimerAnswer::Cleared) => came.word("cleared"),
        Some(TimerAnswer::Refused) => came.word("refused"),
        None => Err(Flaw::Memory),
    }
}
