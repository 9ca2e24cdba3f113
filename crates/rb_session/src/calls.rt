ghost use Rattle.std.specs.Prelude.{◌≡◌, ◌+◌, Result, MatchBool, nat_le};
ghost use Rattle.rb_queue.specs.declared.reply.Reply.{Reply};
ghost use Rattle.rb_retry.specs.declared.desk_fault.DeskFault.{DeskFault};
ghost use Rattle.rb_session.specs.Turn.{fault_line, reply_line};
ghost use Rattle.rb_session.specs.Progress.{answer_line, OffersAt};

use rb_delayed::{Element, GREATEST_MOMENT, Payload, add_delay};
use rb_protocol::{ErrWord, LineReply};
use rb_queue::{Ask, Draft, Reply};
use rb_retry::{Desk, DeskFault};

/// Makes one call that fetches nothing, and returns its reply line.
pub(crate) fn call<D: Desk>(desk: &mut D, now: u64, ask: Ask) -> LineReply
    ensures { (answer : Result Reply DeskFault) × D.Steps (D.state desk.old) now ask answer (D.state desk.new)
        × (result ≡ answer_line answer) }
{
    match desk.call(now, ask) {
        Ok(reply) => reply_line(reply),
        Err(fault) => fault_line(fault),
    }
}

/// An offer that expires `delay` nanoseconds from now, unless that passes the greatest moment.
pub(crate) fn offer<D: Desk>(desk: &mut D, now: u64, delay: u64, payload: Payload) -> LineReply
    ensures { MatchBool (nat_le (now + delay) GREATEST_MOMENT)
        (OffersAt D.Steps (D.state desk.old) now (now + delay) payload result (D.state desk.new))
        ((result ≡ LineReply.Err ErrWord.Range) × (D.state desk.new ≡ D.state desk.old)) }
{
    match add_delay(now, delay) {
        Some(expiry) => offer_at(desk, now, expiry, payload),
        None => LineReply::Err(ErrWord::Range),
    }
}

/// An offer that expires at this moment.
pub(crate) fn offer_at<D: Desk>(desk: &mut D, now: u64, expiry: u64, payload: Payload) -> LineReply
    ensures { OffersAt D.Steps (D.state desk.old) now expiry payload result (D.state desk.new) }
{
    match desk.offer(now, Draft::first(expiry, payload)) {
        Ok(Element { id, expiry, .. }) => LineReply::Offered { id, expiry },
        Err(fault) => fault_line(DeskFault::from(fault)),
    }
}

/// The line for a fault of the desk.
pub(crate) fn fault_line(fault: DeskFault) -> LineReply
    ensures { result ≡ fault_line fault }
{
    match fault {
        DeskFault::Full => LineReply::Err(ErrWord::Full),
        DeskFault::Memory => LineReply::Err(ErrWord::Memory),
        DeskFault::Stopped => LineReply::Stopped,
    }
}

// The line for a reply.
fn reply_line(reply: Reply) -> LineReply
    ensures { result ≡ reply_line reply }
{
    match reply {
        Reply::Offered(Element { id, expiry, .. }) => LineReply::Offered { id, expiry },
        Reply::Item(element) => LineReply::Item(element),
        Reply::Nothing => LineReply::Nothing,
        Reply::Head(element) => LineReply::Head(element),
        Reply::Removed(found) => LineReply::Removed(found),
        Reply::Drained(items) => LineReply::Drained(items.as_slice().len() as u64),
        Reply::Cleared => LineReply::Cleared,
        Reply::Size(count) => LineReply::Size(count),
    }
}
