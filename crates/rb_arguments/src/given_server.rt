ghost use Rattle.std.specs.Prelude.{◌≡◌, ◌≤◌, ◌↔◌, IfOk, IsSome, IsTrue, IfSome, codes};
ghost use Rattle.clap.specs.Words.{first_of, one_of};
ghost use Rattle.rb_options.specs.declared.serve_options.TheConstants.{GREATEST_SOCKET, LEAST_SOCKET};
ghost use Rattle.rb_arguments.specs.CommandLine.{GivesServeOptions, GivesServerRun, IsAskedBy, given_rows, number_in};
ghost use Rattle.rb_arguments.specs.RightValues.{AreServerRunValues, AreServerValues, IsGreeting, MayHaveNumberWithin};

use crate::given_values::{
    first, given_policy, has_value, is_set, number_within, optional_number_within, text, timer,
};
use crate::words::Words;
use clap::ArgMatches;
use rb_delayed::GREATEST_MOMENT;
use rb_kept::MOST_CALLS;
use rb_options::{
    GREATEST_PORT, GREATEST_SOCKET, LEAST_SOCKET, MOST_GREETING, MOST_SESSIONS, MOST_TURNS,
    MOST_WORKERS, ServeOptions, ServerRunOptions,
};
use std::alloc::{AllocError, Global};

/// What the values of `serve` ask for. `None` only if one is not there or not in its range.
pub(crate) fn serve(alloc: Global, given: &ArgMatches<'_>) -> Result<Option<Words>, AllocError>
    ensures asked { IfOk result (λ asked. IfSome asked (IsAskedBy (codes "serve") (given_rows given.now))) }
    ensures taken { AreServerValues (given_rows given.now) → IfOk result (λ asked. IsSome asked) }
{
    let Some(options) = serve_options(given) else {
        return Ok(None);
    };
    if !greets(given) {
        return Ok(None);
    }
    let greeting = text(alloc, given, "greeting")?;
    let history = text(alloc, given, "history")?;
    let from = text(alloc, given, "from")?;
    Ok(Some(Words::Serve {
        options,
        greeting,
        history,
        from,
    }))
}

// Whether there is no greeting, or one that a client can be greeted by.
fn greets(given: &ArgMatches<'_>) -> bool
    ensures { IsTrue result ↔ IfSome (first_of (codes "greeting") (given_rows given.now)) IsGreeting }
{
    match first(given, "greeting") {
        Some(text) => is_greeting(text),
        None => true,
    }
}

// Whether a client can be greeted by this text: one line, which is no longer than a client's may be.
fn is_greeting(text: &str) -> bool
    ensures { IsTrue result ↔ IsGreeting text.now }
{
    let bytes = text.as_bytes();
    !bytes.is_empty() && bytes.len() <= MOST_GREETING && !bytes.contains(&b'\n')
}

// The options that were given to `serve`.
fn serve_options(given: &ArgMatches<'_>) -> Option<ServeOptions>
    ensures given { IfSome result (GivesServeOptions (given_rows given.now)) }
    ensures taken { AreServerValues (given_rows given.now) → IsSome result }
{
    let port = u16::try_from(number_within(given, "port", 1, GREATEST_PORT)?).ok()?;
    let timer = timer(given)?;
    let sessions = number_within(given, "sessions", 1, MOST_SESSIONS)?;
    let turns = number_within(given, "turns", 0, MOST_TURNS)?;
    let socket = socket(given)?;
    let silent = optional_number_within(given, "silent", 1, GREATEST_MOMENT)?;
    let since = optional_number_within(given, "since", 0, GREATEST_MOMENT)?;
    let run = run_options(given)?;
    Some(ServeOptions {
        port,
        socket,
        until_input_ends: is_set(given, "until-input-ends"),
        attentive: is_set(given, "attentive"),
        silent,
        since,
        timer,
        sessions,
        turns,
        run,
    })
}

// The descriptor that the server is handed, if it is handed one. `None` if its number is out of its range.
fn socket(given: &ArgMatches<'_>) -> Option<Option<u16>>
    ensures given { IfSome result (λ socket. number_in (one_of (codes "socket") (given_rows given.now)) ≡ socket) }
    ensures range { IfSome result (λ socket. IfSome socket (λ socket. (LEAST_SOCKET ≤ socket) × (socket ≤ GREATEST_SOCKET))) }
    ensures taken { MayHaveNumberWithin LEAST_SOCKET GREATEST_SOCKET (codes "socket") (given_rows given.now) → IsSome result }
{
    if !has_value(given, "socket") {
        return Some(None);
    }
    let socket = number_within(given, "socket", LEAST_SOCKET, GREATEST_SOCKET)?;
    Some(Some(u16::try_from(socket).ok()?))
}

// The options of the server's run.
fn run_options(given: &ArgMatches<'_>) -> Option<ServerRunOptions>
    ensures given { IfSome result (GivesServerRun (given_rows given.now)) }
    ensures taken { AreServerRunValues (given_rows given.now) → IsSome result }
{
    let workers = number_within(given, "workers", 1, MOST_WORKERS)?;
    let calls = number_within(given, "calls", 1, MOST_CALLS)?;
    let policy = given_policy(given)?;
    Some(ServerRunOptions {
        workers,
        calls,
        policy,
    })
}
