ghost use Rattle.std.specs.Prelude.{◌≡◌, ◌≤◌, ◌↔◌, IfOk, IsTrue, IsSome, IfSome, None, Some, codes, false};
ghost use Rattle.std.specs.Prelude.{option_map, string_bytes};
ghost use Rattle.clap.specs.Takes.{is_given};
ghost use Rattle.clap.specs.Walk.{has_row};
ghost use Rattle.clap.specs.Words.{first_of, one_of};
ghost use Rattle.rb_delayed.specs.declared.moment.TheConstants.{GREATEST_MOMENT};
ghost use Rattle.rb_retry.specs.Retry.{AreAttempts};
ghost use Rattle.rb_arguments.specs.CommandLine.{GivesPolicy, HasNumberWithin, HasPace, given_pace, given_rows};
ghost use Rattle.rb_arguments.specs.CommandLine.{number_in};
ghost use Rattle.rb_arguments.specs.RightValues.{HasPolicy, MayHaveNumberWithin, NamesTimer};
ghost use Rattle.rb_options.specs.TimerKind.{timer_name};

use clap::ArgMatches;
use clap::parser::ValueSource;
use rb_options::TimerKind;
use rb_retry::{Pace, Policy};
use std::alloc::{AllocError, Global};

/// Whether the words give this option. A default does not count.
pub(crate) fn is_given(given: &ArgMatches<'_>, id: &str) -> bool
    ensures { result ≡ is_given id.now (given_rows given.now) }
{
    match given.value_source(id) {
        Some(ValueSource::CommandLine) => true,
        Some(ValueSource::DefaultValue) => false,
        None => given.contains_id(id),
    }
}

/// Whether a flag is set.
pub(crate) fn is_set(given: &ArgMatches<'_>, id: &str) -> bool
    ensures { IsTrue result ↔ (first_of id.now (given_rows given.now) ≡ Some (codes "true")) }
{
    match first(given, id) {
        Some(value) => value == "true",
        None => false,
    }
}

/// The timer that is named.
pub(crate) fn timer(given: &ArgMatches<'_>) -> Option<TimerKind>
    ensures named { IfSome result (λ kind. first_of (codes "timer") (given_rows given.now) ≡ Some (timer_name kind)) }
    ensures taken { NamesTimer (given_rows given.now) → IsSome result }
{
    TimerKind::named(first(given, "timer")?)
}

/// The policy that the values give.
pub(crate) fn given_policy(given: &ArgMatches<'_>) -> Option<Policy>
    ensures given { IfSome result (GivesPolicy (given_rows given.now)) }
    ensures taken { HasPolicy (given_rows given.now) → IsSome result }
{
    let attempts = u32::try_from(number(given, "attempts")?).ok()?;
    policy(pace(given)?, attempts)
}

fn policy(pace: Pace, attempts: u32) -> Option<Policy>
    ensures some { IsSome result ↔ AreAttempts attempts }
    ensures pace { IfSome result (λ policy. policy.pace ≡ pace) }
    ensures attempts { IfSome result (λ policy. policy.attempts ≡ attempts) }
{
    match pace {
        Pace::Delay(delay) => Policy::fixed(delay, attempts),
        Pace::Rate(period) => Policy::fixed_rate(period, attempts),
    }
}

// The rate, if there is one, and otherwise the delay.
fn pace(given: &ArgMatches<'_>) -> Option<Pace>
    ensures given { IfSome result (λ pace. given_pace (given_rows given.now) ≡ Some pace) }
    ensures taken { HasPace (given_rows given.now) → IsSome result }
{
    if has_value(given, "rate") {
        Some(Pace::Rate(number(given, "rate")?))
    } else {
        Some(Pace::Delay(number(given, "delay")?))
    }
}

/// Whether an option has a value, given or the default.
pub(crate) fn has_value(given: &ArgMatches<'_>, id: &str) -> bool
    ensures row { result ≡ has_row id.now (given_rows given.now) }
    ensures none { result ≡ false → one_of id.now (given_rows given.now) ≡ None }
{
    given.contains_id(id)
}

/// The number that an option's value spells, if it is within this range.
pub(crate) fn number_within(given: &ArgMatches<'_>, id: &str, least: u64, most: u64) -> Option<u64>
    ensures number { IfSome result (λ number. number_in (one_of id.now (given_rows given.now)) ≡ Some number) }
    ensures range { IfSome result (λ number. (least ≤ number) × (number ≤ most)) }
    ensures taken { HasNumberWithin least most (one_of id.now (given_rows given.now)) → IsSome result }
{
    let number = number(given, id)?;
    if !(least..=most).contains(&number) {
        return None;
    }
    Some(number)
}

/// The number that an option's value spells, if it has a value. `None` if the number is not within this range.
pub(crate) fn optional_number_within(
    given: &ArgMatches<'_>,
    id: &str,
    least: u64,
    most: u64,
) -> Option<Option<u64>>
    ensures number { IfSome result (λ number. number_in (one_of id.now (given_rows given.now)) ≡ number) }
    ensures range { IfSome result (λ number. IfSome number (λ number. (least ≤ number) × (number ≤ most))) }
    ensures taken { MayHaveNumberWithin least most id.now (given_rows given.now) → IsSome result }
{
    if !has_value(given, id) {
        return Some(None);
    }
    Some(Some(number_within(given, id, least, most)?))
}

// The number that an option's value spells.
fn number(given: &ArgMatches<'_>, id: &str) -> Option<u64>
    ensures number { IfSome result (λ number. number_in (one_of id.now (given_rows given.now)) ≡ Some number) }
    ensures taken { HasNumberWithin 0 GREATEST_MOMENT (one_of id.now (given_rows given.now)) → IsSome result }
{
    given.get_one::<u64>(id)
}

/// The text of an option's value, if it has one.
pub(crate) fn text(
    alloc: Global,
    given: &ArgMatches<'_>,
    id: &str,
) -> Result<Option<String>, AllocError>
    ensures { IfOk result (λ text. option_map string_bytes text ≡ first_of id.now (given_rows given.now)) }
{
    match first(given, id) {
        Some(text) => Ok(Some(String::from_str(alloc, text)?)),
        None => Ok(None),
    }
}

/// The first value of an option, as it was written.
pub(crate) fn first<'a>(given: &ArgMatches<'a>, id: &str) -> Option<&'a str>
    ensures { option_map (λ text. text.now) result ≡ first_of id.now (given_rows given.now) }
{
    given.get_str(id)
}
