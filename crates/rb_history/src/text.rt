ghost use Rattle.std.specs.Prelude.{◌≡◌, ◌≤◌, ◌∷◌, [], ◌++◌, codes, decimal, length, map, if◌then◌else◌};
ghost use Rattle.rb_queue.specs.declared.act.Act.TheVariants as acts;
ghost use Rattle.rb_history.specs.EventText.{whole_element_words, given_words, act_words, event_words};
ghost use Rattle.rb_history.specs.HistoryText.{line_text};
ghost use Rattle.rb_history.specs.Outlet.{Grows};
ghost use Rattle.rb_history.specs.Ranges.{AreWords, IsWord, IsRightElement, IsRightGiven, IsRightAct, IsRightEvent};
ghost use Rattle.rb_history.specs.Tails.{tails};
ghost use Rattle.rb_history.specs.declared.history_room.TheConstants.{PIECE_BYTES};
ghost use Rattle.rb_history.specs.declared.version.Version.TheVariants.{Three};

use crate::outlet::Outlet;
use itoa::Buffer;
use rb_delayed::Element;
use rb_protocol::LINE_FEED;
use rb_queue::{Act, Event};
use std::io::Write;

/// Pushes the line of an event.
pub(crate) fn push_event<W: Write>(outlet: &mut Outlet<'_, W>, event: &Event)
    ensures line { Grows W.Write outlet.old (line_text (event_words Three event.now)) outlet.new }
    ensures right { IsRightEvent event.now }
{
    push_number(outlet, event.seat);
    push_numbers(outlet, b"", &[event.asked, event.at]);
    push_act(outlet, &event.act);
    outlet.push(&[LINE_FEED]);
}

// Pushes what was done, with a space in front.
fn push_act<W: Write>(outlet: &mut Outlet<'_, W>, act: &Act)
    ensures words { Grows W.Write outlet.old (tails (act_words Three act.now)) outlet.new }
    ensures right { IsRightAct act.now }
{
    match act {
        Act::Offer(element) => push_element(outlet, b" offer", element),
        Act::Poll(given) => push_given(outlet, b" poll", *given),
        Act::Take(id) => push_numbers(outlet, b" take", &[*id]),
        Act::PollFor {
            start,
            timeout,
            got,
        } => push_poll_for(outlet, *start, *timeout, *got),
        Act::Peek(shown) => push_given(outlet, b" peek", *shown),
        Act::Remove { id, found } => push_remove(outlet, *id, *found),
        Act::Drain { max, ids } => push_drain(outlet, *max, ids.as_slice()),
        Act::Clear => outlet.push(b" clear"),
        Act::Size(count) => push_numbers(outlet, b" size", &[*count]),
    }
}

/// Pushes a front, and an element's words, each with a space in front.
pub(crate) fn push_element<W: Write>(outlet: &mut Outlet<'_, W>, front: &[u8], element: &Element)
    requires { length front.now ≤ PIECE_BYTES }
    ensures words { Grows W.Write outlet.old
        (front.now ++ tails (whole_element_words Three element.now)) outlet.new }
    ensures right { IsRightElement element.now }
{
    push_numbers(outlet, front, &[element.id, element.expiry, element.origin]);
    push_numbers(outlet, b"", &[element.first, u64::from(element.attempt)]);
    outlet.push(b" ");
    outlet.push(element.payload.as_bytes());
}

// Pushes a front, and the id or `none`, with a space in front.
fn push_given<W: Write>(outlet: &mut Outlet<'_, W>, front: &[u8], given: Option<u64>)
    requires { length front.now ≤ PIECE_BYTES }
    ensures words { Grows W.Write outlet.old (front.now ++ tails (given_words given)) outlet.new }
    ensures right { IsRightGiven given }
{
    match given {
        Some(id) => push_numbers(outlet, front, &[id]),
        None => {
            outlet.push(front);
            outlet.push(b" none");
        }
    }
}

// Pushes a timed poll.
fn push_poll_for<W: Write>(outlet: &mut Outlet<'_, W>, start: u64, timeout: u64, got: Option<u64>)
    ensures words { Grows W.Write outlet.old
        (tails (codes "pollfor" ∷ decimal start ∷ decimal timeout ∷ given_words got)) outlet.new }
    ensures right { IsRightAct (acts.PollFor start timeout got) }
{
    push_numbers(outlet, b" pollfor", &[start, timeout]);
    push_given(outlet, b"", got);
}

// Pushes a removal.
fn push_remove<W: Write>(outlet: &mut Outlet<'_, W>, id: u64, found: bool)
    ensures { Grows W.Write outlet.old
        (tails (codes "remove" ∷ decimal id ∷ (if found then codes "yes" else codes "no") ∷ [])) outlet.new }
{
    push_numbers(outlet, b" remove", &[id]);
    outlet.push(if found { b" yes" } else { b" no" });
}

// Pushes a drain.
fn push_drain<W: Write>(outlet: &mut Outlet<'_, W>, max: u64, ids: &[u64])
    ensures words { Grows W.Write outlet.old
        (tails (codes "drain" ∷ decimal max ∷ map decimal ids.now)) outlet.new }
    ensures right { AreWords ids.now }
{
    push_numbers(outlet, b" drain", &[max]);
    push_numbers(outlet, b"", ids);
}

/// Pushes a front and numbers, each with a space in front.
pub(crate) fn push_numbers<W: Write>(outlet: &mut Outlet<'_, W>, front: &[u8], numbers: &[u64])
    requires { length front.now ≤ PIECE_BYTES }
    ensures words { Grows W.Write outlet.old (front.now ++ tails (map decimal numbers.now)) outlet.new }
    ensures right { AreWords numbers.now }
{
    outlet.push(front);
    for number in numbers {
        outlet.push(b" ");
        push_number(outlet, *number);
    }
}

// Pushes the digits of a number.
fn push_number<W: Write>(outlet: &mut Outlet<'_, W>, number: u64)
    ensures digits { Grows W.Write outlet.old (decimal number) outlet.new }
    ensures right { IsWord number }
{
    outlet.push(Buffer::new().format(number).as_bytes());
}
