//! A kept queue and its callers.
//!
//! The set-up may have lines `from TEXT`, as in a case file: the history that the queue's opening continues. Without
//! them it is the empty opening. An ELEMENT is `ID EXPIRY ORIGIN FIRST ATTEMPT PAYLOAD`.
//!
//! | Command | Answer |
//! |---|---|
//! | `begin CAPACITY` | `begun`, or the fault's text; it comes before all the others, and starts over |
//! | `SEAT ASKED ASK` | the step of a run of just this try |
//! | `no try` | how many steps a run without tries has |
//! | `given N` | the element at this place, from 0, among those of the last drain: ELEMENT, or `none` |
//! | `audit` | the numbers of the audit: calls, offered, given, removed, cleared, left, opening |
//! | `share` | the calls of the callers' share, and the elements that they offered and were given |
//! | `split` | `split`: from then on the calls of seat 0 count in the share, and those of all other seats in another |
//! | `other share` | the same numbers of that other share |
//! | `join` | `joined`: the two are one share again |
//! | `capacity` | how many calls there is room for |
//! | `events` | how many events the history has |
//! | `last` | the line of the last event in the history's text, or `none` |
//! | `line N` | a line of that text, counted from 1, or `none` |
//!
//! | ASK | Step |
//! |---|---|
//! | `offer EXPIRY PAYLOAD`, of a job's first element | `offered ELEMENT` |
//! | `offer EXPIRY ORIGIN FIRST ATTEMPT PAYLOAD` | `offered ELEMENT` |
//! | `poll`, `take`, `pollfor START TIMEOUT` | `item ELEMENT`, `nothing`, or `later EXPIRY` or `later none` |
//! | `peek` | `head ELEMENT`, or `nothing` |
//! | `remove ID` | `removed yes`, or `removed no` |
//! | `drain MAX` | `drained N` |
//! | `clear` | `cleared` |
//! | `size` | `size N` |
//! | any | the fault's text |

use crate::elements::draft_of;
use crate::finding::Finding;
use crate::flaw::Flaw;
use crate::form::Form;
use crate::line::Line;
use crate::numbers::number;
use crate::subject::{Command, FromSetUp, Subject};
use crate::table::Table;
use crate::text::Text;
use crate::told::Told;
use rb_kept::{Kept, Outcome, Step, Try};
use rb_ledger::Tally;
use rb_queue::{Ask, Audit, Event, Items, Opening, Reply};
use rb_replay::{MOST_EVENTS, write_history};
use rb_runs::opening_in;
use rb_timer::Timer;
use std::alloc::{AllocError, Global};
use std::str;

#[derive(Drop)]
pub struct QueueSubject<T: Timer> {
    from: Text,
    // The opening that came back when a queue could not be made. The next queue begins with it.
    handed_back: Option<Opening>,
    run: Option<Run<T>>,
}

#[derive(Drop)]
struct Run<T: Timer> {
    kept: Kept<T>,
    share: Tally,
    other_share: Option<Tally>,
    // The elements that the last drain gave.
    given: Items,
}

impl<T: Timer> FromSetUp for QueueSubject<T> {
    fn begin(alloc: Global, table: &Table<'_>, found: &mut Finding) -> Result<Self, Flaw> {
        let mut from = Text::new(alloc);
        for line in table.set_up {
            found.line = line.number;
            take_from(&mut from, *line)?;
        }
        Ok(QueueSubject {
            from,
            handed_back: None,
            run: None,
        })
    }
}

// Takes a line of the set-up.
fn take_from(from: &mut Text, line: Line<'_>) -> Result<(), Flaw> {
    let (word, rest) = line.cut();
    match Form::split(word)? {
        ("from", form) => from.push(form, rest),
        ("over", _) => Ok(()),
        _ => Err(Flaw::SetUp),
    }
}

impl<T: Timer> Subject for QueueSubject<T> {
    fn answer(&mut self, alloc: Global, command: Command<'_>, came: &mut Told) -> Result<(), Flaw> {
        if let ["begin", capacity] = *command.words {
            return self.begin_run(alloc, number(capacity)? as u64, came);
        }
        match &mut self.run {
            Some(run) => run.answer(alloc, command.words, came),
            None => Err(Flaw::Early),
        }
    }
}

impl<T: Timer> QueueSubject<T> {
    fn begin_run(&mut self, alloc: Global, capacity: u64, came: &mut Told) -> Result<(), Flaw> {
        let opening = self.next_opening(alloc)?;
        match Kept::new_from(alloc, capacity, opening) {
            Ok((kept, share)) => self.begin_with(Run::new(alloc, kept, share), came),
            Err((opening, fault)) => {
                self.handed_back = Some(opening);
                came.value(fault)
            }
        }
    }

    fn begin_with(&mut self, run: Run<T>, came: &mut Told) -> Result<(), Flaw> {
        self.run = Some(run);
        came.word("begun")
    }

    fn next_opening(&mut self, alloc: Global) -> Result<Opening, Flaw> {
        if let Some(opening) = self.handed_back.take() {
            return Ok(opening);
        }
        if !self.from.is_given {
            return Ok(Opening::empty(alloc));
        }
        match opening_in(alloc, &self.from.bytes) {
            Ok(opening) => Ok(opening),
            Err(_) => Err(Flaw::Opening),
        }
    }
}

impl<T: Timer> Run<T> {
    fn new(alloc: Global, kept: Kept<T>, share: Tally) -> Run<T> {
        Run {
            kept,
            share,
            other_share: None,
            given: Items::new(Vec::new(alloc)),
        }
    }

    fn answer(&mut self, alloc: Global, words: &[&str], came: &mut Told) -> Result<(), Flaw> {
        match *words {
            [word] => self.answer_word(alloc, word, came),
            [word, value] => self.answer_value(alloc, word, value, came),
            [seat, asked, ..] => {
                self.make(alloc, seat, asked, words.get(2..).unwrap_or(&[]), came)
            }
            [] => Err(Flaw::Command),
        }
    }

    fn answer_word(&mut self, alloc: Global, word: &str, came: &mut Told) -> Result<(), Flaw> {
        match word {
            "audit" => tell_audit(came, self.kept.audit()),
            "share" => tell_share(came, &self.share),
            "split" => self.split(came),
            "join" => self.join(came),
            "capacity" => came.number(self.kept.capacity()),
            "events" => came.number(self.kept.history().len() as u64),
            "last" => self.tell_last(alloc, came),
            _ => Err(Flaw::Command),
        }
    }

    fn answer_value(
        &mut self,
        alloc: Global,
        word: &str,
        value: &str,
        came: &mut Told,
    ) -> Result<(), Flaw> {
        match word {
            "line" => self.tell_numbered(alloc, value, came),
            "given" => tell_given(came, &self.given, value),
            "other" => self.tell_other(value, came),
            "no" => self.make_none(alloc, value, came),
            _ => Err(Flaw::Command),
        }
    }

    fn tell_other(&self, word: &str, came: &mut Told) -> Result<(), Flaw> {
        if word != "share" {
            return Err(Flaw::Command);
        }
        match &self.other_share {
            Some(other) => tell_share(came, other),
            None => Err(Flaw::Early),
        }
    }

    fn split(&mut self, came: &mut Told) -> Result<(), Flaw> {
        self.other_share = Some(self.share.split());
        came.word("split")
    }

    fn join(&mut self, came: &mut Told) -> Result<(), Flaw> {
        match self.other_share.take() {
            Some(other) => {
                self.share.join(other);
                came.word("joined")
            }
            None => Err(Flaw::Early),
        }
    }

    // Makes a run without tries, and tells how many steps it has.
    fn make_none(&mut self, alloc: Global, word: &str, came: &mut Told) -> Result<(), Flaw> {
        if word != "try" {
            return Err(Flaw::Command);
        }
        let steps = self.kept.run_tries(&mut self.share, Vec::new(alloc))?;
        came.number(steps.len() as u64)
    }

    // Makes the try that the words spell, and tells its step.
    fn make(
        &mut self,
        alloc: Global,
        seat: &str,
        asked: &str,
        ask: &[&str],
        came: &mut Told,
    ) -> Result<(), Flaw> {
        let one = Try {
            seat: number(seat)? as u64,
            asked: number(asked)? as u64,
            ask: ask_of(ask)?,
        };
        let is_other = one.seat > 0;
        let mut steps = self.run_try(is_other, vec![in alloc; one]?)?;
        match steps.pop() {
            Some(step) => self.tell_step(step, came),
            None => Err(Flaw::Memory),
        }
    }

    fn tell_step(&mut self, step: Step, came: &mut Told) -> Result<(), Flaw> {
        match step {
            Ok(Outcome::Done(reply)) => tell_reply(came, reply, &mut self.given),
            Ok(Outcome::Later(next)) => {
                came.word("later")?;
                came.moment(next)
            }
            Err(fault) => came.value(fault),
        }
    }

    // Runs the tries, and counts them in the other share if there is one and `is_other` says so.
    fn run_try(&mut self, is_other: bool, tries: Vec<Try>) -> Result<Vec<Step>, AllocError> {
        let Some(mut other) = self.other_share.take() else {
            return self.kept.run_tries(&mut self.share, tries);
        };
        let steps = if is_other {
            self.kept.run_tries(&mut other, tries)
        } else {
            self.kept.run_tries(&mut self.share, tries)
        };
        self.other_share = Some(other);
        steps
    }

    // Tells the line of the last event, or `none`. In the written text two lines and those of the
    // opening's elements come before it.
    fn tell_last(&self, alloc: Global, came: &mut Told) -> Result<(), Flaw> {
        let history = self.kept.history();
        let last = history
            .get(history.len().saturating_sub(1)..)
            .unwrap_or(&[]);
        let elements = self.kept.opening().elements.as_slice().len();
        self.tell_line(alloc, last, elements.saturating_add(2), came)
    }

    fn tell_numbered(&self, alloc: Global, line: &str, came: &mut Told) -> Result<(), Flaw> {
        let before = number(line)?.saturating_sub(1);
        self.tell_line(alloc, self.kept.history(), before, came)
    }

    // Tells the line that has `before` lines before it in the text of these events, or `none`.
    fn tell_line(
        &self,
        alloc: Global,
        events: &[Event],
        before: usize,
        came: &mut Told,
    ) -> Result<(), Flaw> {
        if events.len() > MOST_EVENTS {
            return Err(Flaw::Memory);
        }
        let mut text = Vec::new(alloc);
        let Ok(()) = write_history(alloc, self.kept.opening(), events, &mut text) else {
            return Err(Flaw::Memory);
        };
        let text = str::from_utf8(&text).unwrap_or_default();
        came.word(text.lines().nth(before).unwrap_or("none"))
    }
}

/// Returns the ask that `words` spell.
pub fn ask_of(words: &[&str]) -> Result<Ask, Flaw> {
    match *words {
        [word] => ask_of_word(word),
        [word, ..] => ask_with(word, words.get(1..).unwrap_or(&[])),
        [] => Err(Flaw::Command),
    }
}

fn ask_with(word: &str, rest: &[&str]) -> Result<Ask, Flaw> {
    match word {
        "offer" => Ok(Ask::Offer(draft_of(rest)?)),
        "pollfor" => poll_for_of(rest),
        "remove" => Ok(Ask::Remove(only_number(rest)?)),
        "drain" => Ok(Ask::Drain(only_number(rest)?)),
        _ => Err(Flaw::Command),
    }
}

fn poll_for_of(words: &[&str]) -> Result<Ask, Flaw> {
    match *words {
        [start, timeout] => Ok(Ask::PollFor {
            start: number(start)? as u64,
            timeout: number(timeout)? as u64,
        }),
        _ => Err(Flaw::Command),
    }
}

fn only_number(words: &[&str]) -> Result<u64, Flaw> {
    match *words {
        [word] => Ok(number(word)? as u64),
        _ => Err(Flaw::Command),
    }
}

fn ask_of_word(word: &str) -> Result<Ask, Flaw> {
    match word {
        "poll" => Ok(Ask::Poll),
        "take" => Ok(Ask::Take),
        "peek" => Ok(Ask::Peek),
        "clear" => Ok(Ask::Clear),
        "size" => Ok(Ask::Size),
        _ => Err(Flaw::Command),
    }
}

/// Tells a reply to any ask. What a drain gave is then in `given`.
pub fn tell_reply(came: &mut Told, reply: Reply, given: &mut Items) -> Result<(), Flaw> {
    match reply {
        Reply::Drained(items) => {
            came.named("drained", items.as_slice().len() as u64)?;
            *given = items;
            Ok(())
        }
        Reply::Offered(element) => came.item("offered", &element),
        Reply::Item(element) => came.item("item", &element),
        Reply::Head(element) => came.item("head", &element),
        Reply::Removed(true) => came.word("removed yes"),
        Reply::Removed(false) => came.word("removed no"),
        Reply::Cleared => came.word("cleared"),
        Reply::Size(size) => came.named("size", size),
        Reply::Nothing => came.word("nothing"),
    }
}

/// Tells the element at `place`, counted from 0, among those that a drain gave, or `none`.
pub fn tell_given(came: &mut Told, given: &Items, place: &str) -> Result<(), Flaw> {
    match given.as_slice().get(number(place)?) {
        Some(element) => came.element(element),
        None => came.word("none"),
    }
}

fn tell_audit(came: &mut Told, audit: Audit) -> Result<(), Flaw> {
    came.numbers(&[audit.calls, audit.offered, audit.given, audit.removed])?;
    came.numbers(&[audit.cleared, audit.left, audit.opening])
}

fn tell_share(came: &mut Told, share: &Tally) -> Result<(), Flaw> {
    came.numbers(&[share.calls(), share.offered(), share.given()])
}
