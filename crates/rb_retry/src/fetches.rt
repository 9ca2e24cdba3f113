ghost use Rattle.std.specs.Prelude.{◌≡◌, ℕ, ◌+◌, ◌≤◌, List, ◌++◌, length, MatchOption, MatchResult, vec_len, vec_capacity, Ok, Err};
ghost use Rattle.rb_delayed.specs.declared.element.Element.{Element};
ghost use Rattle.rb_queue.specs.declared.ask.Ask.TheVariants as asks;
ghost use Rattle.rb_queue.specs.declared.reply.Reply.TheVariants as replies;
ghost use Rattle.rb_kept.specs.declared.kept.TheConstants.{MOST_CALLS};
ghost use Rattle.rb_retry.specs.Asked.{IsReplyTo, MayWait};
ghost use Rattle.rb_retry.specs.Jobs.{answer_with, answer_with_one};

use crate::desk::Desk;
use crate::desk_fault::DeskFault;
use crate::job::Job;
use rb_delayed::Element;
use rb_queue::{Ask, Reply};

/// Fetches the head, if there is one at the moment `asked`, in nanoseconds.
///
/// A fault is that of the desk's call. Then no event was made, and nothing was fetched.
pub fn poll<D: Desk>(desk: &mut D, asked: u64) -> Result<Option<Job>, DeskFault>
    ensures step { D.Steps (D.state desk.old) asked asks.Poll (answer_with result) (D.state desk.new) }
{
    let reply = desk.call(asked, Ask::Poll)?;
    Ok(polled(&reply))
}

/// Fetches the head, waiting for it by the desk's clock.
///
/// A fault is that of the desk's call. Then no event was made, and nothing was fetched.
pub fn take<D: Desk>(desk: &mut D) -> Result<Job, DeskFault>
    ensures step { D.Steps (D.state desk.old) 0 asks.Take (answer_with_one result) (D.state desk.new) }
    ensures few { length (D.mine (D.state desk.new)) ≤ MOST_CALLS }
{
    match desk.call(0, Ask::Take)? {
        Reply::Item(element) => Ok(Job::new(element)),
        _ => unreachable!(),
    }
}

/// Fetches the head, waiting for it by the desk's clock until `timeout` nanoseconds after `start`.
///
/// A fault is that of the desk's call. Then no event was made, and nothing was fetched.
pub fn poll_for<D: Desk>(desk: &mut D, start: u64, timeout: u64) -> Result<Option<Job>, DeskFault>
    ensures step { D.Steps (D.state desk.old) start (asks.PollFor start timeout) (answer_with result)
        (D.state desk.new) }
{
    let reply = desk.call(start, Ask::PollFor { start, timeout })?;
    Ok(polled(&reply))
}

/// Tries once to fetch the head by a take or a timed poll, asked at `asked`, a reading of the desk's clock in nanoseconds,
/// and never waits for it. `None` if the call would have to wait; then nothing was made.
///
/// A fault is that of the desk's call. Then no event was made, and nothing was fetched.
pub fn try_fetch<D: Desk>(
    desk: &mut D,
    asked: u64,
    ask: Ask,
) -> Option<Result<Option<Job>, DeskFault>>
    requires waits { MayWait ask }
    requires read { D.gives (D.state desk.old) asked }
    ensures tried { MatchOption result
        (D.Misses (D.state desk.old) (D.state desk.new))
        (λ fetched. D.Tries (D.state desk.old) asked ask (answer_with fetched) (D.state desk.new)) }
{
    Some(match desk.try_call(asked, ask)? {
        Ok(reply) => Ok(polled(&reply)),
        Err(fault) => Err(fault),
    })
}

// The job that the reply to a poll gives, if it gives one.
fn polled(reply: &Reply) -> Option<Job>
    requires { IsReplyTo asks.Poll reply.now }
    ensures { answer_with (Ok result) ≡ Ok reply.now }
{
    match reply {
        Reply::Item(element) => Some(Job::new(*element)),
        _ => None,
    }
}

/// Fetches at most `max` elements that have expired at `asked`, in nanoseconds, head after head, and
/// appends them to the jobs.
///
/// It requires that `jobs` has room for `max` more. A fault is that of the desk's call. Then no event was
/// made, and nothing was fetched.
pub fn drain<D: Desk>(
    desk: &mut D,
    asked: u64,
    max: u64,
    jobs: &mut Vec<Job>,
) -> Result<(), DeskFault>
    requires { vec_len jobs.old + max ≤ vec_capacity jobs.old }
    ensures drained { MatchResult result
        (λ _. (items : List Element) × (jobs.new.items ≡ jobs.old.items ++ items)
        × D.Steps (D.state desk.old) asked (asks.Drain max) (Ok (replies.Drained items)) (D.state desk.new))
        (λ fault. (jobs.new.items ≡ jobs.old.items)
        × D.Steps (D.state desk.old) asked (asks.Drain max) (Err fault) (D.state desk.new)) }
    ensures capacity { vec_capacity jobs.new ≡ vec_capacity jobs.old }
{
    match desk.call(asked, Ask::Drain(max))? {
        Reply::Drained(items) => {
            append(items.as_slice(), jobs);
            Ok(())
        }
        _ => unreachable!(),
    }
}

// Appends a job for each element.
fn append(elements: &[Element], jobs: &mut Vec<Job>)
    requires { vec_len jobs.old + length elements.now ≤ vec_capacity jobs.old }
    ensures items { jobs.new.items ≡ jobs.old.items ++ elements.now }
    ensures capacity { vec_capacity jobs.new ≡ vec_capacity jobs.old }
{
    for element in elements {
        jobs.push_reserved(Job::new(*element));
    }
}
