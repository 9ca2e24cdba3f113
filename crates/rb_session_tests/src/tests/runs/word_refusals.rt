// Each allocation that reading words makes, refused in turn.

use crate::tests::devices::expect_same;
use clap::Error;
use clap::error::ErrorKind;
use rb_arguments::{Words, read_words};
use rb_options::{ReplayOptions, ScriptOptions, ServeOptions, ServerRunOptions, TimerKind};
use rb_retry::Policy;
use std::alloc::Global;
use std::process::Abort;

// The number of refusals that the test meets. `dev/refuse_allocations` sets 1 and refuses each
// allocation of the test in turn.
const REFUSALS: u32 = 0;

// What a line asks for, besides the files, which are the same in all lines here, or why it is
// refused.
#[derive(Clone, Copy, PartialEq, Eq)]
enum Answer {
    Script(ScriptOptions),
    Replay(ReplayOptions),
    Serve(ServeOptions),
    Refused(ErrorKind),
}

// Returns what the words were read as, or `None` if the files are not those of the lines here.
fn answer_of(read: &Result<Words, Error>) -> Option<Answer> {
    match read {
        Ok(
            Words::Script {
                options,
                history,
                from,
            },
        ) => with_files(Answer::Script(*options), history, from),
        Ok(
            Words::Serve {
                options,
                greeting,
                history,
                from,
            },
        ) => {
            if is_text(greeting, "hello") {
                with_files(Answer::Serve(*options), history, from)
            } else {
                None
            }
        }
        Ok(Words::Replay { options, file }) => {
            if file.as_str() == "run.txt" {
                Some(Answer::Replay(*options))
            } else {
                None
            }
        }
        Err(error) => Some(Answer::Refused(error.kind())),
    }
}

fn with_files(answer: Answer, history: &Option<String>, from: &Option<String>) -> Option<Answer> {
    if is_text(history, "run.txt") && is_text(from, "a b") {
        Some(answer)
    } else {
        None
    }
}

fn is_text(found: &Option<String>, wanted: &str) -> bool {
    match found {
        Some(text) => text.as_str() == wanted,
        None => false,
    }
}

// Comparisons are functions without clauses, so tests that call them have nothing to prove.
fn expect_answer(rt: &impl Abort, words: &[&str], found: Option<Answer>, wanted: Answer) {
    assert!(rt; found == Some(wanted), "{words:?}");
}

// Returns whether the line met a refusal. If so, it is read once more.
fn refused_line(rt: &impl Abort, alloc: Global, words: &[&str], answer: Answer) -> bool {
    let read = answer_of(&read_words(alloc, words));
    if read == Some(answer) {
        return false;
    }
    expect_answer(rt, words, read, Answer::Refused(ErrorKind::OutOfMemory));
    let again = answer_of(&read_words(alloc, words));
    expect_answer(rt, words, again, answer);
    true
}

const SCRIPT: [&'static str; 10] = [
    "rb_broker",
    "script",
    "--timer=wheel",
    "--calls",
    "7",
    "--history",
    "run.txt",
    "--from=a b",
    "--delay=6",
    "--attempts=9",
];

const REPLAY: [&'static str; 6] = [
    "rb_broker",
    "replay",
    "run.txt",
    "--chains",
    "--rate=8",
    "--attempts=9",
];

const SERVE: [&'static str; 18] = [
    "rb_broker",
    "serve",
    "--port=7011",
    "--timer=pairing",
    "--workers=2",
    "--sessions=5",
    "--turns=11",
    "--socket=4",
    "--until-input-ends",
    "--greeting=hello",
    "--attentive",
    "--silent=13",
    "--since=14",
    "--calls=7",
    "--from=a b",
    "--history=run.txt",
    "--rate=8",
    "--attempts=9",
];

fn script_answer(rt: &impl Abort) -> Answer {
    Answer::Script(ScriptOptions {
        timer: TimerKind::Wheel,
        calls: 7,
        policy: Policy::fixed(6, 9).expect(rt, "a policy"),
    })
}

fn replay_answer(rt: &impl Abort) -> Answer {
    let rated = Policy::fixed_rate(8, 9).expect(rt, "a policy");
    Answer::Replay(ReplayOptions {
        chains: Some(rated),
    })
}

fn serve_answer(rt: &impl Abort) -> Answer {
    Answer::Serve(ServeOptions {
        port: 7011,
        socket: Some(4),
        until_input_ends: true,
        attentive: true,
        silent: Some(13),
        since: Some(14),
        timer: TimerKind::Pairing,
        sessions: 5,
        turns: 11,
        run: ServerRunOptions {
            workers: 2,
            calls: 7,
            policy: Policy::fixed_rate(8, 9).expect(rt, "a policy"),
        },
    })
}

// Reads lines that ask for a run. Returns the number of refusals that they met.
fn refused_commands(rt: &impl Abort, alloc: Global) -> u32 {
    let script = refused_line(rt, alloc, &SCRIPT, script_answer(rt));
    let replay = refused_line(rt, alloc, &REPLAY, replay_answer(rt));
    let serve = refused_line(rt, alloc, &SERVE, serve_answer(rt));
    u32::from(script)
        .saturating_add(u32::from(replay))
        .saturating_add(u32::from(serve))
}

// Reads lines that are refused whether there is memory or not. Returns the number of refusals that they met.
fn refused_faults(rt: &impl Abort, alloc: Global) -> u32 {
    let mut refusals = 0_u32;
    for (words, kind) in [
        (
            ["rb_broker", "scripts"].as_slice(),
            ErrorKind::InvalidSubcommand,
        ),
        (
            ["rb_broker", "script", "--call", "7"].as_slice(),
            ErrorKind::UnknownArgument,
        ),
        (
            ["rb_broker", "serve", "--timer=tree"].as_slice(),
            ErrorKind::InvalidValue,
        ),
        (
            ["rb_broker", "script", "--delay=1", "--rate=1"].as_slice(),
            ErrorKind::ArgumentConflict,
        ),
    ] {
        let refused = refused_line(rt, alloc, words, Answer::Refused(kind));
        refusals = refusals.saturating_add(u32::from(refused));
    }
    refusals
}

#[test]
fn a_refused_allocation_is_answered(rt: HostRuntime) {
    let commands = refused_commands(&rt, rt.alloc());
    let faults = refused_faults(&rt, rt.alloc());
    expect_same(&rt, commands.saturating_add(faults), REFUSALS);
}
