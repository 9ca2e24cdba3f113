ghost use Rattle.std.specs.Prelude.{◌≡◌, ℕ, List, IfOk, IfErr, IfNone, IfSome, IsSome, IsTrue, Some, false, map};
ghost use Rattle.std.specs.Borrow.{Bor};
ghost use Rattle.clap.specs.Words.{App, Row, Rule, Text, app_of, kind_of, rule_of, subcommand_rows_of};
ghost use Rattle.clap.specs.Words.{with_rule, with_subcommand};
ghost use Rattle.rb_arguments.specs.LocalCommand.{IsLocal};
ghost use Rattle.clap.specs.declared.error.kind.ErrorKind.TheVariants.{OutOfMemory};
ghost use Rattle.rb_arguments.specs.Arguments.{AreTimerNames, rate_option};
ghost use Rattle.rb_arguments.specs.CommandLine.{Asks, SubcommandAsks, names_both, program, replay_command};
ghost use Rattle.rb_arguments.specs.CommandLine.{script_command, serve_command, with_policy};
ghost use Rattle.rb_arguments.specs.CommandLine.{with_manners, with_queue, with_run};
ghost use Rattle.rb_arguments.specs.Ranges.{AreInRange};
ghost use Rattle.rb_arguments.specs.RightValues.{AreRightFor};
ghost use Rattle.rb_arguments.specs.RightWords.{AreWrongWords, AskForHelp, IsHelp, IsRefusal, ShowsHelp};

use crate::arguments::{
    attempts_option, attentive_flag, calls_option, chains_flag, delay_option, file_argument,
    from_option, greeting_option, history_option, port_option, rate_option, sessions_option,
    silent_option, since_option, socket_option, timer_option, turns_option, until_input_ends_flag,
    workers_option,
};
use crate::given_words::asked_by;
use crate::words::Words;
use clap::error::ErrorKind;
use clap::{Arg, ArgMatches, Command, Error};
use std::alloc::{AllocError, Global};

/// A command, unless memory ran out while it was made: it is handed on as it is, and looked at once.
type MadeCommand<'a> = Result<Command<'a>, AllocError>;

// What is wrong with words that clap takes.
const UNKNOWN: &str = "the command or a value of its options is not known";

/// What the words of a command line ask for. The first word is the program's own name.
///
/// `clap` reads the words. They are refused if `clap` refuses them, if they give both a delay and a rate, or if
/// a value is out of its range. The error has the text for the user and the exit code: 0 for help, which is shown
/// only if a word asks for it, 2 for any other. If memory runs out, its kind is `OutOfMemory`.
///
/// Refused words are read twice, the second time for the text.
pub fn read_words(alloc: Global, words: &[&str]) -> Result<Words, Error>
    ensures in_range { IfOk result AreInRange }
    ensures given { IfOk result (Asks (map (λ word. word.now) words.now)) }
    ensures taken { IfErr result (λ fault. IsRefusal (map (λ word. word.now) words.now) (kind_of fault)) }
    ensures help { IfErr result (λ fault. ShowsHelp (kind_of fault) → AskForHelp (map (λ word. word.now) words.now)) }
{
    match asked_if_right(alloc, words)? {
        Some(asked) => Ok(asked),
        None => Err(refusal(alloc, words)?),
    }
}

// What the words ask for, if they are right. Its only fault is that memory ran out.
fn asked_if_right(alloc: Global, words: &[&str]) -> Result<Option<Words>, Error>
    ensures in_range { IfOk result (λ asked. IfSome asked AreInRange) }
    ensures given { IfOk result (λ asked. IfSome asked (Asks (map (λ word. word.now) words.now))) }
    ensures wrong { IfOk result (λ asked. IfNone asked (AreWrongWords (map (λ word. word.now) words.now))) }
    ensures fault { IfErr result (λ fault. kind_of fault ≡ OutOfMemory) }
{
    match program(alloc, false)?.try_get_matches_from(words) {
        Ok(matches) => Ok(asked_in(alloc, &matches)?),
        Err(fault) => match fault.kind() {
            ErrorKind::OutOfMemory => Err(fault),
            _ => Ok(None),
        },
    }
}

// What the subcommand that was met asks for, if all its values are right.
fn asked_in(alloc: Global, matches: &ArgMatches<'_>) -> Result<Option<Words>, AllocError>
    ensures asked { IfOk result (λ asked. IfSome asked (SubcommandAsks (subcommand_rows_of matches.now))) }
    ensures taken { (name : Text) (rows : List Row) → subcommand_rows_of matches.now ≡ Some (name, rows)
        → names_both rows ≡ false → AreRightFor name rows → IfOk result (λ asked. IsSome asked) }
{
    match matches.subcommand() {
        Some((name, given)) => asked_by(alloc, name, given),
        None => Ok(None),
    }
}

// The error for words that are refused, in clap's own text. It shows help only if a word asks for it.
fn refusal(alloc: Global, words: &[&str]) -> Result<Error, AllocError>
    ensures help { IfOk result (λ fault. ShowsHelp (kind_of fault) → AskForHelp (map (λ word. word.now) words.now)) }
{
    let mut command = program(alloc, true)?;
    refusal_of(&mut command, words)
}

// The error of this command for words that are refused. If clap takes them, it has no better text.
fn refusal_of<'a>(command: &mut Command<'a>, words: &'a [&'a str]) -> Result<Error, AllocError>
    ensures help { IfOk result (λ fault. ShowsHelp (kind_of fault) → AskForHelp (map (λ word. word.now) words.now)) }
{
    if let Err(fault) = command.try_get_matches_from_mut(words) {
        if is_shown(&fault, words) {
            return Ok(fault);
        }
    }
    command.error(ErrorKind::InvalidValue, UNKNOWN)
}

// Whether an error is shown for these words: it is a mistake, or the help that they ask for.
fn is_shown(fault: &Error, words: &[&str]) -> bool
    ensures { IsTrue result → ShowsHelp (kind_of fault.now) → AskForHelp (map (λ word. word.now) words.now) }
{
    fault.use_stderr() || ask_for_help(words)
}

// Whether a word asks for help.
fn ask_for_help(words: &[&str]) -> bool
    ensures { IsTrue result → AskForHelp (map (λ word. word.now) words.now) }
{
    for word in words {
        if is_help(word) {
            return true;
        }
    }
    false
}

// Whether this word asks for help, as clap reads words.
fn is_help(word: &str) -> bool
    ensures { IsTrue result → IsHelp word.now }
{
    word == "help" || word == "--help" || word.as_bytes().starts_with(b"-h")
}

// The program's command, with its subcommands. If `conflict`, clap is told that a delay and a rate conflict: its
// text for refused words is of such a command. Words are judged by one that is not told, since clap's contracts say
// which words a command takes only if none of its options has a rule on another.
fn program<'a>(alloc: Global, conflict: bool) -> MadeCommand<'a>
    ensures { conflict ≡ false → IfOk result (λ command. (scripted served : Bor (List (Bor (List ℕ)))) × AreTimerNames scripted
        × AreTimerNames served × (app_of command ≡ program scripted served)) }
{
    let bare = Command::new(alloc, "rb_broker")
        .about("A broker for jobs that have to wait")
        .subcommand_required(true);
    let scripts = with_subcommand(bare, script_command(alloc, conflict))?;
    let replays = with_subcommand(scripts, replay_command(alloc, conflict))?;
    with_subcommand(replays, serve_command(alloc, conflict))
}

// The command with one more subcommand.
fn with_subcommand<'a>(command: Command<'a>, subcommand: MadeCommand<'a>) -> MadeCommand<'a>
    ensures { (app sub : App) → app_of command.entry ≡ app → IsLocal sub subcommand.entry
        → IfOk result (λ wider. app_of wider ≡ with_subcommand app sub.top) }
{
    command.subcommand(subcommand?)
}

fn script_command<'a>(alloc: Global, conflict: bool) -> MadeCommand<'a>
    ensures { conflict ≡ false → (names : Bor (List (Bor (List ℕ)))) × AreTimerNames names × IsLocal (script_command names) result }
{
    let plain = Command::new(alloc, "script").about(
        "Runs a script from standard input to standard output",
    );
    let queue = with_queue(alloc, Ok(plain));
    with_run(alloc, queue, conflict)
}

fn replay_command<'a>(alloc: Global, conflict: bool) -> MadeCommand<'a>
    ensures { conflict ≡ false → IsLocal replay_command result }
{
    let plain = Command::new(alloc, "replay").about("Checks the history in a file");
    let file = with_option(Ok(plain), file_argument(alloc));
    let chains = with_option(file, chains_flag(alloc));
    with_policy(alloc, chains, conflict)
}

fn serve_command<'a>(alloc: Global, conflict: bool) -> MadeCommand<'a>
    ensures { conflict ≡ false → (names : Bor (List (Bor (List ℕ)))) × AreTimerNames names × IsLocal (serve_command names) result }
{
    let plain = Command::new(alloc, "serve").about("Serves clients over TCP on 127.0.0.1");
    let port = with_option(Ok(plain), port_option(alloc));
    let queue = with_queue(alloc, port);
    let workers = with_option(queue, workers_option(alloc));
    let sessions = with_option(workers, sessions_option(alloc));
    let turns = with_option(sessions, turns_option(alloc));
    let manners = with_manners(alloc, turns);
    with_run(alloc, manners, conflict)
}

// The command with the options of a server that is attended, and of how it treats its clients.
fn with_manners<'a>(alloc: Global, command: MadeCommand<'a>) -> MadeCommand<'a>
    ensures { (app : App) → IsLocal app command.entry → IsLocal (with_manners app) result }
{
    let socket = with_option(command, socket_option(alloc));
    let until = with_option(socket, until_input_ends_flag(alloc));
    let greeting = with_option(until, greeting_option(alloc));
    let attentive = with_option(greeting, attentive_flag(alloc));
    let silent = with_option(attentive, silent_option(alloc));
    with_option(silent, since_option(alloc))
}

// The command with the options of a queue.
fn with_queue<'a>(alloc: Global, command: MadeCommand<'a>) -> MadeCommand<'a>
    ensures { (names : Bor (List (Bor (List ℕ)))) × AreTimerNames names
        × ((app : App) → IsLocal app command.entry → IsLocal (with_queue names app) result) }
{
    let calls = with_option(command, calls_option(alloc));
    with_option(calls, timer_option(alloc))
}

// The command with the options of what a run leaves and continues, and with those of a policy.
fn with_run<'a>(alloc: Global, command: MadeCommand<'a>, conflict: bool) -> MadeCommand<'a>
    ensures { conflict ≡ false → (app : App) → IsLocal app command.entry → IsLocal (with_run app) result }
{
    let history = with_option(command, history_option(alloc));
    let from = with_option(history, from_option(alloc));
    with_policy(alloc, from, conflict)
}

// The command with the options of a policy.
fn with_policy<'a>(alloc: Global, command: MadeCommand<'a>, conflict: bool) -> MadeCommand<'a>
    ensures { conflict ≡ false → (app : App) → IsLocal app command.entry → IsLocal (with_policy app) result }
{
    let delay = with_option(command, delay_option(alloc));
    let rate = with_option(delay, rate(alloc, conflict)?);
    with_option(rate, attempts_option(alloc))
}

// The option of a rate. If `conflict`, clap refuses it beside a delay.
fn rate<'a>(alloc: Global, conflict: bool) -> Result<Arg<'a>, AllocError>
    ensures rule { conflict ≡ false → IfOk result (λ rate. rule_of rate ≡ rate_option) }
    ensures local { IfOk result (λ rate. rate.global ≡ false) }
{
    let rate = rate_option(alloc);
    if conflict {
        return rate.conflicts_with("delay");
    }
    Ok(rate)
}

// The command with one more option, which belongs to this command alone.
fn with_option<'a>(command: MadeCommand<'a>, option: Arg<'a>) -> MadeCommand<'a>
    requires local { option.global ≡ false }
    ensures { (app : App) (rule : Rule) → rule_of option.entry ≡ rule → IsLocal app command.entry
        → IsLocal (with_rule app rule) result }
{
    command?.arg(option)
}
