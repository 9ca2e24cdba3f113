ghost use Rattle.std.specs.Prelude.{◌≡◌, ℕ, false, Some, None};
ghost use Rattle.rb_queue.specs.Calls.{deadline_of};
ghost use Rattle.rb_queue.specs.declared.ask.Ask.TheVariants.{PollFor};

use crate::fault::WaitFault;
use rb_bell::{Bell, Rested, longest_rest};
use rb_delayed::add_capped;
use rb_queue::{Ask, Reply};
use std::sync::Wait;
use std::time;
use std::time::Duration;

/// The rests of a waiting call between its tries.
#[derive(Drop)]
pub(crate) struct Rests {
    // When the wait ends, in nanoseconds: 2^64 - 1 if the ask sets no end.
    deadline: u64,
    // The bell's count before the next try.
    seen: u64,
    // The reading of the last try, if there was one.
    asked: Option<u64>,
    // The least expiry that it found, in nanoseconds, if there was one.
    least: Option<u64>,
    // How long the call rests after it, at most.
    most: Duration,
    // Whether another call ended the last rest.
    woken: bool,
}

impl Rests {
    /// The rests of a call with this ask. `seen` is the bell's count before the first try.
    pub(crate) fn new(ask: &Ask, seen: u64) -> Rests
        ensures deadline { (start timeout : ℕ) → ask.now ≡ PollFor start timeout
            → result.deadline ≡ deadline_of start timeout }
        ensures seen { result.seen ≡ seen }
        ensures untried { result.asked ≡ None }
        ensures unwoken { result.woken ≡ false }
    {
        let deadline = match *ask {
            Ask::PollFor { start, timeout } => add_capped(start, timeout),
            _ => u64::MAX,
        };
        Rests {
            deadline,
            seen,
            asked: None,
            least: None,
            most: longest_rest(),
            woken: false,
        }
    }

    /// Notes a try at this reading that found nothing expired, and the least expiry, if any. The rest after it
    /// lasts until that expiry or the deadline, and no longer than the longest rest.
    ///
    /// If the clock has not advanced since the try before, it may stand still for good. The rest is then the
    /// longest one, so that the call does not try again and again without a rest.
    pub(crate) fn learn(&mut self, asked: u64, expiry: Option<u64>)
        ensures asked { self.new.asked ≡ Some asked }
        ensures least { self.new.least ≡ expiry }
    {
        let goes_on = self.asked.is_none_or(|before| before < asked);
        self.asked = Some(asked);
        self.least = expiry;
        self.most = longest_rest();
        if goes_on {
            let until = self.deadline.min(expiry.unwrap_or(u64::MAX));
            let left = Duration::from_nanos(until.saturating_sub(asked));
            self.most = self.most.min(left);
        }
    }

    /// Rests after the last try.
    pub(crate) fn rest<R: Wait + time::Clock>(&mut self, rt: &R, bell: &Bell) -> Rested {
        let most = u64::try_from(self.most.as_nanos()).unwrap_or(u64::MAX);
        let until = add_capped(self.asked.unwrap_or(0), most);
        let rested = bell.rest_until(rt, self.seen, until, self.most);
        self.seen = rested.count();
        self.woken = rested.is_woken();
        rested
    }

    /// Called at the end. A call that was woken but took nothing wakes another in its place, which may take what
    /// it was woken for.
    pub(crate) fn hand_on<R: Wait>(&self, rt: &R, bell: &Bell, waited: &Result<Reply, WaitFault>) {
        if !self.woken {
            return;
        }
        match waited {
            Ok(Reply::Item(_)) => {}
            // Its last try has told the least expiry.
            Err(WaitFault::Stopped) => {
                if let Some(expiry) = self.least {
                    bell.wake_one(rt, expiry);
                }
            }
            Ok(_) | Err(WaitFault::Full) => bell.wake_one(rt, 0),
        }
    }
}
