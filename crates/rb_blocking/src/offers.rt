ghost use Rattle.std.specs.Prelude.{◌≡◌, ◌+◌};
ghost use Rattle.rb_queue.specs.declared.ask.Ask.TheVariants.{Offer};
ghost use Rattle.rb_lock.specs.Passes.{Learns};
ghost use Rattle.rb_blocking.specs.WaitingCalls.{try_of};
ghost use Rattle.rb_blocking.specs.RungOffers.{OfferAnswered};

use rb_bell::Bell;
use rb_delayed::Element;
use rb_kept::{CallFault, Outcome};
use rb_lock::{Pass, Shared};
use rb_queue::{Ask, Draft, Reply};
use rb_timer::Timer;
use std::sync::Wait;

/// Offers an element like `Shared::call`, and rings the bell if the element was inserted. It waits while
/// another pass calls.
///
/// The ring wakes at most one waiting call: one that would try again by itself only after the element
/// has expired. The faults are those of the call: `Full` if the history has as many events as its
/// capacity, and `Memory` if there is none for the element. After a fault no event was made, and the bell
/// was not rung.
pub fn offer_ring<T: Timer, R: Wait>(
    rt: &R,
    shared: &Shared<T>,
    pass: &mut Pass<T>,
    asked: u64,
    draft: Draft,
    bell: &Bell,
) -> Result<Element, CallFault>
    requires pass { pass.old.table ≡ shared.now }
    ensures learns { Learns pass.old pass.new }
    ensures tried { pass.new.tried ≡ pass.old.tried + 1 }
    ensures offered { OfferAnswered pass.old pass.new (try_of pass.old asked (Offer draft)) result }
{
    let expiry = draft.expiry;
    let outcome = shared.call(rt, pass, asked, Ask::Offer(draft))?;
    let Outcome::Done(reply) = outcome else {
        unreachable!()
    };
    let Reply::Offered(element) = reply else {
        unreachable!()
    };
    // What has expired by now can be taken at once.
    let due = if expiry <= asked { 0 } else { expiry };
    bell.announce(rt, due);
    Ok(element)
}
