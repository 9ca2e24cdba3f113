//! A caller at a desk at which no call waits, with the jobs that it has fetched.
//!
//! A table is run at the desk of a kept queue, over the plain timer and over the binary heap, and at that of a shared
//! queue. An ELEMENT is `ID EXPIRY ORIGIN FIRST ATTEMPT PAYLOAD`. A DRAFT is an ELEMENT without its id. ASK and REPLY
//! are those of a queue (`queue_subject.rt`).
//!
//! | Set-up | Meaning |
//! |---|---|
//! | `capacity N` | how many calls the run has room for: 100 without this line |
//! | `clock MOMENT` | the moment of the desk's clock: 0 without this line |
//! | `desk kept` | the table is not run at the desk of a shared queue |
//!
//! | Command | Answer |
//! |---|---|
//! | `now` | the moment of the desk's clock |
//! | `set MOMENT` | the moment that the clock has then, or `none` if it can't be set |
//! | `call ASKED ASK` | REPLY, or the fault's text |
//! | `given N` | the element at this place, from 0, among those that the last drain by `call` gave, or `none` |
//! | `poll ASKED`, `take`, `pollfor START TIMEOUT` | `job ELEMENT`, `none`, or the fault's text |
//! | `drain ASKED MAX` | `jobs N`, or the fault's text |
//! | `job` | the job that was fetched first: ELEMENT, or `none` |
//! | `done` | that job is done: ELEMENT, or `none` |
//! | `policy delay N ATTEMPTS`, `policy rate N ATTEMPTS` | `made`, or `none` |
//! | `fail MOMENT` | that job fails: `again ELEMENT`, `dead ELEMENT`, or the fault's text and the ELEMENT handed back |
//! | `retry MOMENT ELEMENT` | what is offered again if a job of this element fails: DRAFT, or `none` |

use crate::elements::element_of;
use crate::flaw::Flaw;
use crate::numbers::number;
use crate::queue_subject::{ask_of, tell_given, tell_reply};
use crate::subject::{Command, Subject};
use crate::told::{Told, payload_text};
use rb_kept::CallFault;
use rb_queue::{Draft, Items};
use rb_retry::{Desk, DeskFault, Job, Policy, Verdict, done, drain, fail, poll, poll_for, take};
use std::alloc::Global;
use std::collections::VecDeque;

#[derive(Drop)]
pub struct JobSubject<D: Desk> {
    desk: D,
    // The elements that the last drain by `call` gave.
    given: Items,
    policy: Option<Policy>,
    // The jobs that are held, in the order in which they were fetched.
    held: VecDeque<Job>,
}

impl<D: Desk> JobSubject<D> {
    pub fn new(alloc: Global, desk: D) -> JobSubject<D> {
        JobSubject {
            desk,
            given: Items::new(Vec::new(alloc)),
            policy: None,
            held: VecDeque::new(alloc),
        }
    }
}

impl<D: Desk + Drop> Subject for JobSubject<D> {
    fn answer(&mut self, alloc: Global, command: Command<'_>, came: &mut Told) -> Result<(), Flaw> {
        match *command.words {
            [word] => self.answer_word(word, came),
            [word, value] => self.answer_value(word, value, came),
            [word, value, ..] => {
                let rest = command.words.get(2..).unwrap_or(&[]);
                self.answer_more(alloc, word, value, rest, came)
            }
            [] => Err(Flaw::Command),
        }
    }
}

impl<D: Desk + Drop> JobSubject<D> {
    fn answer_word(&mut self, word: &str, came: &mut Told) -> Result<(), Flaw> {
        match word {
            "now" => came.number(self.desk.now()),
            "job" => self.tell_first(came),
            "done" => self.end_first(came),
            "take" => self.fetch(came),
            _ => Err(Flaw::Command),
        }
    }

    fn answer_value(&mut self, word: &str, value: &str, came: &mut Told) -> Result<(), Flaw> {
        match word {
            "set" => self.set(value, came),
            "given" => tell_given(came, &self.given, value),
            "fail" => self.fail_first(value, came),
            "poll" => self.fetch_expired(value, came),
            _ => Err(Flaw::Command),
        }
    }

    // Answers a command of at least three words.
    fn answer_more(
        &mut self,
        alloc: Global,
        word: &str,
        value: &str,
        rest: &[&str],
        came: &mut Told,
    ) -> Result<(), Flaw> {
        match word {
            "call" => self.call(value, rest, came),
            "retry" => self.retry(value, rest, came),
            "drain" => self.drain(alloc, value, rest, came),
            "pollfor" => self.fetch_for(value, rest, came),
            "policy" => self.set_policy(value, rest, came),
            _ => Err(Flaw::Command),
        }
    }

    fn set(&mut self, moment: &str, came: &mut Told) -> Result<(), Flaw> {
        came.moment(self.desk.set(number(moment)? as u64))
    }

    fn call(&mut self, asked: &str, ask: &[&str], came: &mut Told) -> Result<(), Flaw> {
        let (asked, ask) = (number(asked)? as u64, ask_of(ask)?);
        match self.desk.call(asked, ask) {
            Ok(reply) => tell_reply(came, reply, &mut self.given),
            Err(fault) => came.value(fault),
        }
    }

    fn fetch(&mut self, came: &mut Told) -> Result<(), Flaw> {
        let fetched = take(&mut self.desk).map(Some);
        self.tell_fetched(fetched, came)
    }

    fn fetch_expired(&mut self, asked: &str, came: &mut Told) -> Result<(), Flaw> {
        let fetched = poll(&mut self.desk, number(asked)? as u64);
        self.tell_fetched(fetched, came)
    }

    fn fetch_for(&mut self, start: &str, rest: &[&str], came: &mut Told) -> Result<(), Flaw> {
        let [timeout] = *rest else {
            return Err(Flaw::Command);
        };
        let (start, timeout) = (number(start)? as u64, number(timeout)? as u64);
        let fetched = poll_for(&mut self.desk, start, timeout);
        self.tell_fetched(fetched, came)
    }

    fn tell_fetched(
        &mut self,
        fetched: Result<Option<Job>, DeskFault>,
        came: &mut Told,
    ) -> Result<(), Flaw> {
        match fetched {
            Ok(Some(job)) => self.hold(job, came),
            Ok(None) => came.word("none"),
            Err(fault) => came.value(fault),
        }
    }

    fn hold(&mut self, job: Job, came: &mut Told) -> Result<(), Flaw> {
        let element = *job.element();
        self.held.push_back(job)?;
        came.item("job", &element)
    }

    fn drain(
        &mut self,
        alloc: Global,
        asked: &str,
        rest: &[&str],
        came: &mut Told,
    ) -> Result<(), Flaw> {
        let [most] = *rest else {
            return Err(Flaw::Command);
        };
        let (asked, most) = (number(asked)? as u64, number(most)?);
        let mut jobs = Vec::with_capacity(alloc, most)?;
        match drain(&mut self.desk, asked, most as u64, &mut jobs) {
            Ok(()) => self.hold_all(jobs, came),
            Err(fault) => came.value(fault),
        }
    }

    fn hold_all(&mut self, jobs: Vec<Job>, came: &mut Told) -> Result<(), Flaw> {
        came.named("jobs", jobs.len() as u64)?;
        for job in jobs {
            self.held.push_back(job)?;
        }
        Ok(())
    }

    fn tell_first(&self, came: &mut Told) -> Result<(), Flaw> {
        match self.held.front() {
            Some(job) => came.element(job.element()),
            None => came.word("none"),
        }
    }

    fn end_first(&mut self, came: &mut Told) -> Result<(), Flaw> {
        match self.held.pop_front() {
            Some(job) => came.element(&done(job)),
            None => came.word("none"),
        }
    }

    fn set_policy(&mut self, pace: &str, rest: &[&str], came: &mut Told) -> Result<(), Flaw> {
        let [count, attempts] = *rest else {
            return Err(Flaw::Command);
        };
        self.policy = policy_of(pace, number(count)? as u64, number(attempts)?)?;
        match self.policy {
            Some(_) => came.word("made"),
            None => came.word("none"),
        }
    }

    fn fail_first(&mut self, now: &str, came: &mut Told) -> Result<(), Flaw> {
        let now = number(now)? as u64;
        let Some(policy) = self.policy else {
            return Err(Flaw::Early);
        };
        match self.held.pop_front() {
            Some(job) => {
                let ended = fail(&mut self.desk, &policy, job, now);
                self.tell_ended(ended, came)
            }
            None => came.word("none"),
        }
    }

    // Puts back a job whose failure ended with a fault, as the one that was fetched first.
    fn tell_ended(
        &mut self,
        ended: Result<Verdict, (Job, CallFault)>,
        came: &mut Told,
    ) -> Result<(), Flaw> {
        match ended {
            Ok(Verdict::Again(again)) => came.item("again", &again),
            Ok(Verdict::Dead(dead)) => came.item("dead", &dead),
            Err((job, fault)) => {
                let element = *job.element();
                self.held.push_front(job)?;
                came.value(fault)?;
                came.element(&element)
            }
        }
    }

    fn retry(&self, now: &str, element: &[&str], came: &mut Told) -> Result<(), Flaw> {
        let Some(policy) = self.policy else {
            return Err(Flaw::Early);
        };
        let element = element_of(element)?;
        match policy.retry_of(&element, number(now)? as u64) {
            Some(draft) => tell_draft(came, &draft),
            None => came.word("none"),
        }
    }
}

fn policy_of(pace: &str, count: u64, attempts: usize) -> Result<Option<Policy>, Flaw> {
    let Ok(attempts) = u32::try_from(attempts) else {
        return Err(Flaw::Number);
    };
    match pace {
        "delay" => Ok(Policy::fixed(count, attempts)),
        "rate" => Ok(Policy::fixed_rate(count, attempts)),
        _ => Err(Flaw::Command),
    }
}

fn tell_draft(came: &mut Told, draft: &Draft) -> Result<(), Flaw> {
    let (origin, first) = (draft.origin.unwrap_or(0), draft.first.unwrap_or(0));
    came.numbers(&[draft.expiry, origin, first, u64::from(draft.attempt)])?;
    came.word(payload_text(&draft.payload))
}
