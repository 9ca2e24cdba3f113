ghost use Rattle.std.specs.Prelude.{◌≡◌, ℕ, List, false};
ghost use Rattle.std.specs.Borrow.{Bor};
ghost use Rattle.clap.specs.Words.{rule_of};
ghost use Rattle.rb_arguments.specs.Arguments.{AreTimerNames, attempts_option, calls_option, chains_flag, dashed};
ghost use Rattle.rb_arguments.specs.Arguments.{delay_option, file_argument, flag, from_option, history_option, named_option};
ghost use Rattle.rb_arguments.specs.Arguments.{number_option, number_option_or, port_option, rate_option, sessions_option, timer_option};
ghost use Rattle.rb_arguments.specs.Arguments.{attentive_flag, greeting_option, silent_option, since_option, socket_option};
ghost use Rattle.rb_arguments.specs.Arguments.{turns_option, until_input_ends_flag, workers_option};

use clap::builder::ValueParser;
use clap::{Arg, ArgAction};
use rb_delayed::{GREATEST_ATTEMPT, GREATEST_MOMENT};
use rb_kept::MOST_CALLS;
use rb_options::{
    GREATEST_PORT, GREATEST_SOCKET, LEAST_SOCKET, MOST_SESSIONS, MOST_TURNS, MOST_WORKERS,
    TimerKind,
};
use std::alloc::Global;

/// `--calls N`
pub(crate) fn calls_option<'a>(alloc: Global) -> Arg<'a>
    ensures rule { rule_of result ≡ calls_option }
    ensures local { result.global ≡ false }
{
    number_or(
        alloc,
        "calls",
        "how many calls the run has room for",
        1,
        MOST_CALLS,
        "10000",
    )
}

/// `--timer T`
pub(crate) fn timer_option<'a>(alloc: Global) -> Arg<'a>
    ensures rule { (names : Bor (List (Bor (List ℕ)))) × AreTimerNames names × (rule_of result ≡ timer_option names) }
    ensures local { result.global ≡ false }
{
    named(alloc, "timer", "T", "which timer the queue uses")
        .value_parser(TimerKind::NAMES.as_slice())
        .default_value("heap")
}

/// `--delay N`
pub(crate) fn delay_option<'a>(alloc: Global) -> Arg<'a>
    ensures rule { rule_of result ≡ delay_option }
    ensures local { result.global ≡ false }
{
    number_or(
        alloc,
        "delay",
        "nanoseconds from a failure until the job comes back, 1000000000 for a second",
        0,
        GREATEST_MOMENT,
        "1000",
    )
}

/// `--rate N`, instead of a delay. clap is not told here that the two conflict: see `rate`.
pub(crate) fn rate_option<'a>(alloc: Global) -> Arg<'a>
    ensures rule { rule_of result ≡ rate_option }
    ensures local { result.global ≡ false }
{
    number(
        alloc,
        "rate",
        "nanoseconds between two attempts of a job, instead of a delay",
        0,
        GREATEST_MOMENT,
    )
}

/// `--attempts N`
pub(crate) fn attempts_option<'a>(alloc: Global) -> Arg<'a>
    ensures rule { rule_of result ≡ attempts_option }
    ensures local { result.global ≡ false }
{
    number_or(
        alloc,
        "attempts",
        "how many attempts a job has",
        1,
        u64::from(GREATEST_ATTEMPT),
        "3",
    )
}

/// `--history FILE`
pub(crate) fn history_option<'a>(alloc: Global) -> Arg<'a>
    ensures rule { rule_of result ≡ history_option }
    ensures local { result.global ≡ false }
{
    named(
        alloc,
        "history",
        "FILE",
        "the file to write the history of the run to",
    )
}

/// `--from FILE`
pub(crate) fn from_option<'a>(alloc: Global) -> Arg<'a>
    ensures rule { rule_of result ≡ from_option }
    ensures local { result.global ≡ false }
{
    named(
        alloc,
        "from",
        "FILE",
        "the file with the history that this run continues",
    )
}

/// `--port P`
pub(crate) fn port_option<'a>(alloc: Global) -> Arg<'a>
    ensures rule { rule_of result ≡ port_option }
    ensures local { result.global ≡ false }
{
    named(alloc, "port", "P", "the TCP port on 127.0.0.1 to listen on")
        .required(true)
        .value_parser(ValueParser::Unsigned(1, GREATEST_PORT))
}

/// `--workers N`
pub(crate) fn workers_option<'a>(alloc: Global) -> Arg<'a>
    ensures rule { rule_of result ≡ workers_option }
    ensures local { result.global ≡ false }
{
    number_or(
        alloc,
        "workers",
        "how many sessions are served at once",
        1,
        MOST_WORKERS,
        "4",
    )
}

/// `--sessions N`
pub(crate) fn sessions_option<'a>(alloc: Global) -> Arg<'a>
    ensures rule { rule_of result ≡ sessions_option }
    ensures local { result.global ≡ false }
{
    number_or(
        alloc,
        "sessions",
        "how many sessions to serve before the server ends",
        1,
        MOST_SESSIONS,
        "1",
    )
}

/// `--turns N`
pub(crate) fn turns_option<'a>(alloc: Global) -> Arg<'a>
    ensures rule { rule_of result ≡ turns_option }
    ensures local { result.global ≡ false }
{
    number_or(
        alloc,
        "turns",
        "how many turns TAKE and POLLFOR wait before they answer STOPPED",
        0,
        MOST_TURNS,
        "10000",
    )
}

/// `--socket N`
pub(crate) fn socket_option<'a>(alloc: Global) -> Arg<'a>
    ensures rule { rule_of result ≡ socket_option }
    ensures local { result.global ≡ false }
{
    number(
        alloc,
        "socket",
        "the descriptor of a listener at that port, which the server is handed",
        LEAST_SOCKET,
        GREATEST_SOCKET,
    )
}

/// `--until-input-ends`
pub(crate) fn until_input_ends_flag<'a>(alloc: Global) -> Arg<'a>
    ensures rule { rule_of result ≡ until_input_ends_flag }
    ensures local { result.global ≡ false }
{
    flag(
        alloc,
        "until-input-ends",
        "drains when something comes on standard input, and ends when that ends",
    )
}

/// `--greeting LINE`
pub(crate) fn greeting_option<'a>(alloc: Global) -> Arg<'a>
    ensures rule { rule_of result ≡ greeting_option }
    ensures local { result.global ≡ false }
{
    named(
        alloc,
        "greeting",
        "LINE",
        "the line that each client is sent first",
    )
}

/// `--attentive`
pub(crate) fn attentive_flag<'a>(alloc: Global) -> Arg<'a>
    ensures rule { rule_of result ≡ attentive_flag }
    ensures local { result.global ≡ false }
{
    flag(
        alloc,
        "attentive",
        "ends a wait whose client sends something or hangs up",
    )
}

/// `--silent N`
pub(crate) fn silent_option<'a>(alloc: Global) -> Arg<'a>
    ensures rule { rule_of result ≡ silent_option }
    ensures local { result.global ≡ false }
{
    number(
        alloc,
        "silent",
        "nanoseconds of silence after which a session is ended",
        1,
        GREATEST_MOMENT,
    )
}

/// `--since N`
pub(crate) fn since_option<'a>(alloc: Global) -> Arg<'a>
    ensures rule { rule_of result ≡ since_option }
    ensures local { result.global ≡ false }
{
    number(
        alloc,
        "since",
        "nanoseconds after the machine's start at which the moment is the opening's",
        0,
        GREATEST_MOMENT,
    )
}

/// `--chains`
pub(crate) fn chains_flag<'a>(alloc: Global) -> Arg<'a>
    ensures rule { rule_of result ≡ chains_flag }
    ensures local { result.global ≡ false }
{
    flag(alloc, "chains", "checks the retries too")
}

/// `FILE`
pub(crate) fn file_argument<'a>(alloc: Global) -> Arg<'a>
    ensures rule { rule_of result ≡ file_argument }
    ensures local { result.global ≡ false }
{
    Arg::new(alloc, "file")
        .value_name("FILE")
        .help("the file with the history")
        .required(true)
}

// `--NAME N`, of a number in this range, and this number if it is not given.
fn number_or<'a>(
    alloc: Global,
    name: &'static str,
    help: &'static str,
    least: u64,
    most: u64,
    default: &'static str,
) -> Arg<'a>
    ensures rule { rule_of result ≡ number_option_or name.now least most default.now }
    ensures local { result.global ≡ false }
{
    number(alloc, name, help, least, most).default_value(default)
}

// `--NAME N`, of a number in this range.
fn number<'a>(
    alloc: Global,
    name: &'static str,
    help: &'static str,
    least: u64,
    most: u64,
) -> Arg<'a>
    ensures rule { rule_of result ≡ number_option name.now least most }
    ensures local { result.global ≡ false }
{
    named(alloc, name, "N", help).value_parser(ValueParser::Unsigned(least, most))
}

// `--NAME VALUE`, of any value.
fn named<'a>(alloc: Global, name: &'static str, value: &'static str, help: &'static str) -> Arg<'a>
    ensures rule { rule_of result ≡ named_option name.now }
    ensures local { result.global ≡ false }
{
    dashed(alloc, name, help).value_name(value)
}

// `--NAME`, which is set or not.
fn flag<'a>(alloc: Global, name: &'static str, help: &'static str) -> Arg<'a>
    ensures rule { rule_of result ≡ flag name.now }
    ensures local { result.global ≡ false }
{
    dashed(alloc, name, help).action(ArgAction::SetTrue)
}

// `--NAME`
fn dashed<'a>(alloc: Global, name: &'static str, help: &'static str) -> Arg<'a>
    ensures rule { rule_of result ≡ dashed name.now }
    ensures local { result.global ≡ false }
{
    Arg::new(alloc, name).long(name).help(help)
}
