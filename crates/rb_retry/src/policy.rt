ghost use Rattle.std.specs.Prelude.{◌≡◌, ◌≤◌, ◌↔◌, IsSome, IfSome};
ghost use Rattle.rb_delayed.specs.declared.element.TheConstants.{GREATEST_ATTEMPT};

use rb_delayed::{Element, GREATEST_ATTEMPT, add_capped};
use rb_queue::Draft;

/// How the time to the next attempt of a job is counted.
#[derive(Clone, Copy, Debug, PartialEq, Eq)]
pub enum Pace {
    /// This many nanoseconds after the failure, like
    /// `ScheduledExecutorService.scheduleWithFixedDelay` (Java SE 17).
    Delay(u64),
    /// This many nanoseconds for each attempt so far, counted from the job's first expiry, like
    /// `scheduleAtFixedRate`: an attempt that began late does not delay those that follow.
    Rate(u64),
}

/// When a failed job is offered again, and how often.
#[derive(Clone, Copy, Debug, PartialEq, Eq)]
pub struct Policy {
    /// How the time to the next attempt is counted.
    pub pace: Pace,
    /// How many attempts a job has, 1 to 1,000.
    pub attempts: u32,
    pub ghost attempts_from_one: { 1 ≤ attempts },
    pub ghost attempts_in_range: { attempts ≤ GREATEST_ATTEMPT },
}

impl Policy {
    ghost use Rattle.rb_retry.specs.Retry.{AreAttempts, IsRetry};

    /// The policy by which the next attempt expires `delay` nanoseconds after the failure. `None` exactly
    /// if `attempts` is 0 or above 1,000.
    pub fn fixed(delay: u64, attempts: u32) -> Option<Policy>
        ensures some { IsSome result ↔ AreAttempts attempts }
        ensures pace { IfSome result (λ policy. policy.pace ≡ Pace.Delay delay) }
        ensures attempts { IfSome result (λ policy. policy.attempts ≡ attempts) }
    {
        Policy::new(Pace::Delay(delay), attempts)
    }

    /// The policy by which attempt k + 1 expires k times `period` nanoseconds after the job's first
    /// expiry, even if that moment has passed. `None` exactly if `attempts` is 0 or above 1,000.
    pub fn fixed_rate(period: u64, attempts: u32) -> Option<Policy>
        ensures some { IsSome result ↔ AreAttempts attempts }
        ensures pace { IfSome result (λ policy. policy.pace ≡ Pace.Rate period) }
        ensures attempts { IfSome result (λ policy. policy.attempts ≡ attempts) }
    {
        Policy::new(Pace::Rate(period), attempts)
    }

    fn new(pace: Pace, attempts: u32) -> Option<Policy>
        ensures some { IsSome result ↔ AreAttempts attempts }
        ensures pace { IfSome result (λ policy. policy.pace ≡ pace) }
        ensures attempts { IfSome result (λ policy. policy.attempts ≡ attempts) }
    {
        if attempts >= 1 && attempts <= GREATEST_ATTEMPT {
            Some(Policy { pace, attempts })
        } else {
            None
        }
    }

    /// What is offered again if the element fails at `now`, in nanoseconds: the next attempt of its job.
    /// `None` exactly if this was the last one. An expiry that would pass the greatest moment, 2^64 - 1
    /// nanoseconds, is that moment.
    pub fn retry_of(&self, element: &Element, now: u64) -> Option<Draft>
        ensures { IsRetry self.now element.now now result }
    {
        if element.attempt >= self.attempts {
            return None;
        }
        let expiry = match self.pace {
            Pace::Delay(delay) => add_capped(now, delay),
            Pace::Rate(period) => {
                add_capped(
                    element.first,
                    period.saturating_mul(u64::from(element.attempt)),
                )
            }
        };
        Some(Draft {
            expiry,
            origin: Some(element.origin),
            first: Some(element.first),
            attempt: element.attempt + 1,
            payload: element.payload,
        })
    }
}
