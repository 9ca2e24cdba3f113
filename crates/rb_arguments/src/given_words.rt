ghost use Rattle.std.specs.Prelude.{◌≡◌, IfOk, IsSome, IfSome, codes, false};
ghost use Rattle.rb_arguments.specs.CommandLine.{GivesChains, GivesScriptOptions, IsAskedBy, given_rows, names_both};
ghost use Rattle.rb_arguments.specs.RightValues.{AreReplayValues, AreRightFor, AreScriptValues, HasPolicy};

use crate::given_server::serve;
use crate::given_values::{given_policy, is_given, is_set, number_within, text, timer};
use crate::words::Words;
use clap::ArgMatches;
use rb_kept::MOST_CALLS;
use rb_options::{ReplayOptions, ScriptOptions};
use std::alloc::{AllocError, Global};

/// What a subcommand's name and values ask for. `None` exactly if both a delay and a rate were given, or if a
/// value is not there or not in its range.
///
/// clap has already refused all values that are not in range. But its contracts promise the ranges only for a
/// command's own options, and not for those of a subcommand, so they are tested here again.
pub(crate) fn asked_by(
    alloc: Global,
    name: &str,
    given: &ArgMatches<'_>,
) -> Result<Option<Words>, AllocError>
    ensures asked { IfOk result (λ asked. IfSome asked (IsAskedBy name.now (given_rows given.now))) }
    ensures alone { IfOk result (λ asked. IsSome asked → names_both (given_rows given.now) ≡ false) }
    ensures taken { names_both (given_rows given.now) ≡ false → AreRightFor name.now (given_rows given.now)
        → IfOk result (λ asked. IsSome asked) }
{
    if is_given(given, "delay") && is_given(given, "rate") {
        return Ok(None);
    }
    match name {
        "script" => script(alloc, given),
        "replay" => replay(alloc, given),
        "serve" => serve(alloc, given),
        _ => Ok(None),
    }
}

fn script(alloc: Global, given: &ArgMatches<'_>) -> Result<Option<Words>, AllocError>
    ensures asked { IfOk result (λ asked. IfSome asked (IsAskedBy (codes "script") (given_rows given.now))) }
    ensures taken { AreScriptValues (given_rows given.now) → IfOk result (λ asked. IsSome asked) }
{
    let Some(options) = script_options(given) else {
        return Ok(None);
    };
    let history = text(alloc, given, "history")?;
    let from = text(alloc, given, "from")?;
    Ok(Some(Words::Script {
        options,
        history,
        from,
    }))
}

fn replay(alloc: Global, given: &ArgMatches<'_>) -> Result<Option<Words>, AllocError>
    ensures asked { IfOk result (λ asked. IfSome asked (IsAskedBy (codes "replay") (given_rows given.now))) }
    ensures taken { AreReplayValues (given_rows given.now) → IfOk result (λ asked. IsSome asked) }
{
    let Some(options) = replay_options(given) else {
        return Ok(None);
    };
    match text(alloc, given, "file")? {
        Some(file) => Ok(Some(Words::Replay { options, file })),
        None => Ok(None),
    }
}

// The options that were given to `script`.
fn script_options(given: &ArgMatches<'_>) -> Option<ScriptOptions>
    ensures given { IfSome result (GivesScriptOptions (given_rows given.now)) }
    ensures taken { AreScriptValues (given_rows given.now) → IsSome result }
{
    let timer = timer(given)?;
    let calls = number_within(given, "calls", 1, MOST_CALLS)?;
    let policy = given_policy(given)?;
    Some(ScriptOptions {
        timer,
        calls,
        policy,
    })
}

// The options that were given to `replay`.
fn replay_options(given: &ArgMatches<'_>) -> Option<ReplayOptions>
    ensures given { IfSome result (λ options. GivesChains (given_rows given.now) options.chains) }
    ensures taken { HasPolicy (given_rows given.now) → IsSome result }
{
    let chains = if is_set(given, "chains") {
        Some(given_policy(given)?)
    } else {
        None
    };
    Some(ReplayOptions { chains })
}
