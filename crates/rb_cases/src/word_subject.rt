//! The words of a command line.
//!
//! | Command | Answer |
//! |---|---|
//! | `rb_broker WORD..` | what a command line of these words asks for |
//! | `no word` | what a command line without a word asks for |
//! | `shows 'PART' rb_broker WORD..` | whether this part is in the text that is shown for these words: `yes` or `no` |
//!
//! A word with a space is quoted as a whole, as `'--from=a b'`. The answers:
//!
//! | Answer |
//! |---|
//! | `script timer T calls N POLICY FILES` |
//! | `replay "FILE"`, and ` chains POLICY` if retries are checked |
//! | `serve port N timer T workers N sessions N turns N calls N POLICY MANNERS FILES` |
//! | `refused KIND STATUS` or `shown KIND STATUS`: clap's kind of error, and the exit status |
//!
//! A POLICY is `delay N attempts N` or `rate N attempts N`. MANNERS are ` socket N`, ` until-input-ends`,
//! ` attentive`, ` silent N`, ` since N` and ` greeting "LINE"`. FILES are ` history "FILE"` and ` from "FILE"`, each only
//! if it was given, as those are. There is no set-up.

use crate::finding::Finding;
use crate::flaw::Flaw;
use crate::subject::{Command, FromSetUp, Subject};
use crate::table::Table;
use crate::timers::timer_name;
use crate::told::Told;
use clap::Error;
use rb_arguments::{Words, read_words};
use rb_options::{ScriptOptions, ServeOptions};
use rb_retry::{Pace, Policy};
use std::alloc::{AllocError, Global};
use std::str;

#[derive(Drop)]
pub struct WordSubject;

impl FromSetUp for WordSubject {
    fn begin(_: Global, _: &Table<'_>, _: &mut Finding) -> Result<Self, Flaw> {
        Ok(WordSubject)
    }
}

impl Subject for WordSubject {
    fn answer(&mut self, alloc: Global, command: Command<'_>, came: &mut Told) -> Result<(), Flaw> {
        let words = words_of(alloc, str::from_utf8(command.bytes).unwrap_or_default())?;
        answer_to(alloc, &words, came)
    }
}

fn answer_to(alloc: Global, words: &[&str], came: &mut Told) -> Result<(), Flaw> {
    match *words {
        ["rb_broker", ..] => tell_asked(alloc, words, came),
        ["no", "word"] => tell_asked(alloc, &[], came),
        ["shows", part, ..] => tell_shown(alloc, words.get(2..).unwrap_or(&[]), part, came),
        _ => Err(Flaw::Command),
    }
}

// Returns the words of a command. The quotes cut it into parts, and every second part was quoted.
fn words_of(alloc: Global, command: &str) -> Result<Vec<&str>, AllocError> {
    let mut words = Vec::new(alloc);
    for (place, part) in command.split('\'').enumerate() {
        push_words(&mut words, part, place % 2 == 1)?;
    }
    Ok(words)
}

fn push_words<'a>(
    words: &mut Vec<&'a str>,
    part: &'a str,
    is_quoted: bool,
) -> Result<(), AllocError> {
    if is_quoted {
        words.push(part)?;
        return Ok(());
    }
    for word in part.split_whitespace() {
        words.push(word)?;
    }
    Ok(())
}

fn tell_asked(alloc: Global, words: &[&str], came: &mut Told) -> Result<(), Flaw> {
    match read_words(alloc, words) {
        Ok(asked) => tell_words(&asked, came),
        Err(error) => tell_error(&error, came),
    }
}

fn tell_words(asked: &Words, came: &mut Told) -> Result<(), Flaw> {
    match asked {
        Words::Script {
            options,
            history,
            from,
        } => {
            tell_script(options, came)?;
            tell_file("history", history, came)?;
            tell_file("from", from, came)
        }
        Words::Replay { options, file } => {
            came.value(format_args!("replay {file:?}"))?;
            tell_chains(options.chains, came)
        }
        Words::Serve {
            options,
            greeting,
            history,
            from,
        } => {
            tell_serve(options, came)?;
            tell_manners(options, came)?;
            tell_file("greeting", greeting, came)?;
            tell_file("history", history, came)?;
            tell_file("from", from, came)
        }
    }
}

fn tell_chains(chains: Option<Policy>, came: &mut Told) -> Result<(), Flaw> {
    match chains {
        Some(policy) => {
            came.word("chains")?;
            tell_policy(policy, came)
        }
        None => Ok(()),
    }
}

fn tell_script(options: &ScriptOptions, came: &mut Told) -> Result<(), Flaw> {
    came.word("script timer")?;
    came.word(timer_name(options.timer))?;
    came.named("calls", options.calls)?;
    tell_policy(options.policy, came)
}

fn tell_serve(options: &ServeOptions, came: &mut Told) -> Result<(), Flaw> {
    came.named("serve port", u64::from(options.port))?;
    came.word("timer")?;
    came.word(timer_name(options.timer))?;
    came.named("workers", options.run.workers)?;
    came.named("sessions", options.sessions)?;
    came.named("turns", options.turns)?;
    came.named("calls", options.run.calls)?;
    tell_policy(options.run.policy, came)
}

fn tell_manners(options: &ServeOptions, came: &mut Told) -> Result<(), Flaw> {
    if let Some(socket) = options.socket {
        came.named("socket", u64::from(socket))?;
    }
    if options.until_input_ends {
        came.word("until-input-ends")?;
    }
    if options.attentive {
        came.word("attentive")?;
    }
    if let Some(silent) = options.silent {
        came.named("silent", silent)?;
    }
    match options.since {
        Some(since) => came.named("since", since),
        None => Ok(()),
    }
}

fn tell_policy(policy: Policy, came: &mut Told) -> Result<(), Flaw> {
    match policy.pace {
        Pace::Delay(delay) => came.named("delay", delay)?,
        Pace::Rate(period) => came.named("rate", period)?,
    }
    came.named("attempts", u64::from(policy.attempts))
}

fn tell_file(word: &str, file: &Option<String>, came: &mut Told) -> Result<(), Flaw> {
    match file {
        Some(file) => came.value(format_args!("{word} {file:?}")),
        None => Ok(()),
    }
}

fn tell_error(error: &Error, came: &mut Told) -> Result<(), Flaw> {
    let told = if error.use_stderr() {
        "refused"
    } else {
        "shown"
    };
    let (kind, status) = (error.kind(), error.exit_code());
    came.value(format_args!("{told} {kind:?} {status}"))
}

// Tells whether `part` is in the text that is shown for these words.
fn tell_shown(alloc: Global, words: &[&str], part: &str, came: &mut Told) -> Result<(), Flaw> {
    match read_words(alloc, words) {
        Ok(_) => came.word("nothing is shown"),
        Err(error) => {
            let text = error.to_string(alloc)?;
            came.word(if text.contains(part) { "yes" } else { "no" })
        }
    }
}
