//! The broker as a command.
//!
//! `rb_broker script` reads a script from standard input and writes the replies to standard output.
//! `rb_broker replay` checks the history of a run. `rb_broker serve` serves many clients over TCP.
//! The exit status is 0 at the end of a run and after help; 1 for a history that is not accepted or
//! that no run can continue; 2 if the command line is refused; 3 if input, output, a file, a port
//! or a thread fails, or an input has no end; and 4 if memory runs out.
#![tactic(auto)]

mod commands;
mod files;
mod greeting;
mod history_file;
mod listener;
mod run_clock;

ghost use Rattle.std.specs.Process.{exit_status};
ghost use Rattle.clap.specs.Words.{kind_of};
ghost use Rattle.rb_ending.specs.BrokerFault.{status_of};
ghost use Rattle.std.specs.Prelude.{◌≡◌, ◌≢◌};
ghost use Rattle.rb_broker.specs.ExitStatus.{IsStatusOfWords, status_of_replay, status_of_run};

use clap::Error;
use clap::error::ErrorKind;
use rb_arguments::{Words, read_words};
use rb_ending::BrokerFault;
use rb_serving::Ending;
use std::alloc::{AllocError, Global};
use std::io::{ErrorKind as ReadKind, Read};
use std::process::ExitCode;
use std::sync::{Arc, Wait};
use std::thread::Threads;
use std::{env, io, thread, time};

/// The exit status if the command line is refused.
const WORDS_REFUSED: u8 = 2;

fn main(rt: HostRuntime) -> ExitCode {
    let asked = match command_line(&rt) {
        Ok(words) => match lent_words(rt.alloc(), &words) {
            Ok(words) => read_words(rt.alloc(), words.as_slice()),
            Err(AllocError) => return exit_with_fault(&rt, BrokerFault::Memory),
        },
        Err(error) => return exit_without_words(&rt, error.kind()),
    };
    if !is_attended(&asked) {
        return run(&rt, &rt, &asked, None);
    }
    let Ok((ending, followed)) = endings(rt.alloc()) else {
        return exit_with_fault(&rt, BrokerFault::Memory);
    };
    let is_open = is_input_open(&rt);
    let follows = thread::spawn(&rt, move || {
        if is_open {
            followed.follow(&rt, &mut rt.stdin());
        } else {
            followed.end(&rt);
        }
    });
    match follows {
        Ok(_) => run(&rt, &rt, &asked, Some(&ending)),
        Err(_) => exit_with_fault(&rt, BrokerFault::Worker),
    }
}

/// Whether a server is to end with its input.
fn is_attended(asked: &Result<Words, Error>) -> bool {
    match asked {
        Ok(Words::Serve { options, .. }) => options.until_input_ends,
        _ => false,
    }
}

/// An ending for a server and for who follows its input.
fn endings(alloc: Global) -> Result<(Arc<Ending, Global>, Arc<Ending, Global>), AllocError> {
    let ending = Arc::new(alloc, Ending::new())?;
    let other = Arc::try_clone(&ending)?;
    Ok((ending, other))
}

/// Whether standard input is open. If it is not, its descriptor would soon be that of another file.
fn is_input_open(rt: &HostRuntime) -> bool {
    match rt.stdin().read(&mut []) {
        Ok(_) => true,
        Err(fault) => !files::is_closed(&fault),
    }
}

/// The words of the command line, beginning with the program's own name.
fn command_line(rt: &HostRuntime) -> io::Result<Vec<String>> {
    Ok(env::args(rt)?.collect(rt.alloc())?)
}

/// The texts of `words`, in their order.
fn lent_words<'a>(alloc: Global, words: &'a Vec<String>) -> Result<Vec<&'a str>, AllocError> {
    words.iter().map(|word| word.as_str()).collect(alloc)
}

/// Does what `words` ask for, and returns its exit status. `handle` starts the workers of a server,
/// and they wait by it.
fn run<R: Threads + Wait + time::Clock + Sync>(
    rt: &HostRuntime,
    handle: &R,
    asked: &Result<Words, Error>,
    ending: Option<&Ending>,
) -> ExitCode {
    match asked {
        Ok(
            Words::Script {
                options,
                history,
                from,
            },
        ) => exit_after_run(
            rt,
            commands::script(rt, options, history.as_deref(), from.as_deref()),
        ),
        Ok(
            Words::Serve {
                options,
                greeting,
                history,
                from,
            },
        ) => exit_after_run(
            rt,
            commands::serve(
                rt,
                handle,
                options,
                greeting.as_deref(),
                ending,
                history.as_deref(),
                from.as_deref(),
            ),
        ),
        Ok(Words::Replay { options, file }) => exit_after_replay(
            rt,
            commands::replay(rt, options, file),
        ),
        Err(error) => exit_for_refused_words(rt, error),
    }
}

/// Prints the line of the fault, if there is one, and returns the exit status.
fn exit_after_run<T: Copy>(rt: &HostRuntime, outcome: Result<T, BrokerFault>) -> ExitCode
    ensures { exit_status result ≡ status_of_run outcome }
{
    match outcome {
        Ok(_) => ExitCode::SUCCESS,
        Err(fault) => exit_with_fault(rt, fault),
    }
}

/// Prints the line of the fault, if there is one, and returns the exit status, which without a
/// fault is that of the verdict.
fn exit_after_replay(rt: &HostRuntime, outcome: Result<u8, BrokerFault>) -> ExitCode
    ensures { exit_status result ≡ status_of_replay outcome }
{
    match outcome {
        Ok(status) => ExitCode::from(status),
        Err(ended) => exit_with_fault(rt, ended),
    }
}

/// Prints why the words could not be read, and returns the exit status: 4 if memory was refused, and
/// otherwise that of refused words, since one of them is not UTF-8 text.
fn exit_without_words(rt: &HostRuntime, kind: ReadKind) -> ExitCode
    ensures memory { kind ≡ ReadKind.OutOfMemory → exit_status result ≡ 4 }
    ensures refused { kind ≢ ReadKind.OutOfMemory → exit_status result ≡ 2 }
{
    match kind {
        ReadKind::OutOfMemory => exit_with_fault(rt, BrokerFault::Memory),
        _ => {
            let _ = rt.eprintln("rb_broker: a word of the command line is not UTF-8 text");
            ExitCode::from(WORDS_REFUSED)
        }
    }
}

/// Prints the text of `error`, help to standard output and anything else to standard error, and
/// returns its exit status. Help that can't be written is a fault of output.
fn exit_for_refused_words(rt: &HostRuntime, error: &Error) -> ExitCode
    ensures { IsStatusOfWords (kind_of error.now) (exit_status result) }
{
    match error.kind() {
        ErrorKind::OutOfMemory => exit_with_fault(rt, BrokerFault::Memory),
        ErrorKind::DisplayHelp | ErrorKind::DisplayVersion => match error.print(rt) {
            Ok(()) => ExitCode::SUCCESS,
            Err(_) => exit_with_fault(rt, BrokerFault::Write),
        },
        _ => {
            let _ = error.print(rt);
            ExitCode::from(WORDS_REFUSED)
        }
    }
}

/// Prints the line of `fault` to standard error and returns its exit status.
fn exit_with_fault(rt: &HostRuntime, fault: BrokerFault) -> ExitCode
    ensures { exit_status result ≡ status_of fault }
{
    let _ = eprintln!(rt; "rb_broker: {fault}");
    ExitCode::from(fault.status())
}
