ghost use Rattle.std.specs.Prelude.{◌≤◌, ◌<◌, MatchResult};
ghost use Rattle.rb_queue.specs.Bag.{Bag};
ghost use Rattle.rb_queue.specs.History.{IsLegal};
ghost use Rattle.rb_replay.specs.Tests.{NoTest};
ghost use Rattle.rb_replay.specs.Links.{Past, Begins, Follows, GoesOn, IsLinked};
ghost use Rattle.rb_replay.specs.LinkTests.{BeginTests, FollowTests, GoOnTests, LinkTests};
ghost use Rattle.rb_replay.specs.Chaining.{Chains};
ghost use Rattle.rb_replay.specs.AttemptIndex.{Recalls, EventIsLinked, ChainTests};

use crate::attempt::Attempt;
use crate::attempt_index::AttemptIndex;
use crate::chain_fault::ChainFault;
use crate::chain_reason::ChainReason;
use rb_delayed::Element;
use rb_queue::{Act, Event, Opening};
use rb_retry::Policy;
use std::alloc::Global;

/// Checks that each element that a legal history offers is a job's first attempt, or what the policy
/// offers after the attempt before.
///
/// The fault `At` names the first event that offers another element, and the first reason. `Memory` means
/// that there is not enough. Memory is taken for each element that was offered or there at the start, and
/// each event takes time that grows with the logarithm of their number.
pub fn chains(
    alloc: Global,
    opening: &Opening,
    events: &[Event],
    policy: &Policy,
) -> Result<(), ChainFault>
    requires { IsLegal opening.now events.now }
    ensures { Chains policy.now opening.now events.now result }
{
    let Ok(mut attempts) = AttemptIndex::new_from(alloc, opening) else {
        return Err(ChainFault::Memory);
    };
    for (index, event) in events.iter().enumerate() {
        if let Err(reason) = check_event(&attempts, policy, event) {
            let index = index as u64;
            return Err(ChainFault::At { index, reason });
        }
        let Ok(()) = attempts.keep(&event.act) else {
            return Err(ChainFault::Memory);
        };
    }
    Ok(())
}

// The first reason, if any, why the event offers an element that is not linked to what the index has.
fn check_event(attempts: &AttemptIndex, policy: &Policy, event: &Event) -> Result<(), ChainReason>
    ensures { (came : Bag) (past : Past) → Recalls came past attempts.now → MatchResult result
        (λ _. EventIsLinked policy.now past event.now)
        (ChainTests policy.now past event.now) }
{
    match &event.act {
        Act::Offer(element) => check_offer(attempts, policy, event.asked, element),
        _ => Ok(()),
    }
}

// The first reason, if any, why an offered element is not linked to what the index has.
fn check_offer(
    attempts: &AttemptIndex,
    policy: &Policy,
    asked: u64,
    element: &Element,
) -> Result<(), ChainReason>
    ensures { (came : Bag) (past : Past) → Recalls came past attempts.now → MatchResult result
        (λ _. IsLinked policy.now past asked element.now)
        (LinkTests policy.now past asked element.now) }
{
    if element.attempt == 1 {
        check_first(element)
    } else {
        check_later(attempts, policy, asked, element)
    }
}

// The reason, if any, why a first attempt does not begin a job.
fn check_first(element: &Element) -> Result<(), ChainReason>
    ensures { MatchResult result (λ _. Begins element.now) (BeginTests element.now) }
{
    if element.origin != element.id || element.first != element.expiry {
        return Err(ChainReason::BadFirst);
    }
    Ok(())
}

// The first reason, if any, why a later attempt does not go on with its job.
fn check_later(
    attempts: &AttemptIndex,
    policy: &Policy,
    asked: u64,
    element: &Element,
) -> Result<(), ChainReason>
    requires { 2 ≤ element.now.attempt }
    ensures { (came : Bag) (past : Past) → Recalls came past attempts.now → MatchResult result
        (λ _. GoesOn policy.now past asked element.now)
        (GoOnTests policy.now past asked element.now) }
{
    if element.attempt > policy.attempts {
        return Err(ChainReason::TooMany);
    }
    let before = Attempt {
        origin: element.origin,
        number: element.attempt - 1,
    };
    let Some(parent) = attempts.first_given(before) else {
        return Err(ChainReason::NoParent);
    };
    check_retry(policy, &parent, asked, element)?;
    if attempts.is_offered(Attempt::of(element)) {
        return Err(ChainReason::Twice);
    }
    Ok(())
}

// The first reason, if any, why the element is not what the policy offers if the parent failed at `asked`.
fn check_retry(
    policy: &Policy,
    parent: &Element,
    asked: u64,
    element: &Element,
) -> Result<(), ChainReason>
    ensures { parent.now.attempt < policy.now.attempts → MatchResult result
        (λ _. Follows policy.now asked element.now parent.now)
        (FollowTests policy.now asked element.now parent.now NoTest) }
{
    if element.payload != parent.payload {
        return Err(ChainReason::Payload);
    }
    if element.first != parent.first {
        return Err(ChainReason::Base);
    }
    match policy.retry_of(parent, asked) {
        Some(retry) if retry.expiry == element.expiry => Ok(()),
        _ => Err(ChainReason::Expiry),
    }
}
