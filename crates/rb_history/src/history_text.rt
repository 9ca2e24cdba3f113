ghost use Rattle.std.specs.Prelude.{map};
ghost use Rattle.rb_history.specs.EventText.{keep_words, event_words, open_words, end_words};
ghost use Rattle.rb_history.specs.HistoryText.{line_text, lines_text, history_text};
ghost use Rattle.rb_history.specs.Outlet.{Grows};
ghost use Rattle.rb_history.specs.Ranges.{IsWord, IsRightElement, IsRightOpening, AreRightElements, AreRightEvents};
ghost use Rattle.rb_history.specs.declared.version.Version.TheVariants.{Three};

use crate::outlet::Outlet;
use crate::text::{push_element, push_event, push_numbers};
use rb_delayed::Element;
use rb_protocol::LINE_FEED;
use rb_queue::{Event, Opening};
use std::io::Write;

/// Pushes the text of a history, in the version that is written. All values are in their ranges.
pub(crate) fn push_history<W: Write>(
    outlet: &mut Outlet<'_, W>,
    opening: &Opening,
    events: &[Event],
)
    ensures text { Grows W.Write outlet.old (history_text opening.now events.now) outlet.new }
    ensures opening { IsRightOpening opening.now }
    ensures events { AreRightEvents events.now }
{
    outlet.push(b"history 3\n");
    push_open(outlet, opening);
    push_keeps(outlet, opening.elements.as_slice());
    push_events(outlet, events);
    push_end(outlet, events.len() as u64);
}

// Pushes the line with the numbers of an opening.
fn push_open<W: Write>(outlet: &mut Outlet<'_, W>, opening: &Opening)
    ensures line { Grows W.Write outlet.old (line_text (open_words opening.now)) outlet.new }
    ensures right { IsWord opening.now.last_at }
{
    let count = opening.elements.as_slice().len() as u64;
    push_numbers(outlet, b"open", &[opening.next_id, opening.last_at, count]);
    outlet.push(&[LINE_FEED]);
}

// Pushes the lines of an opening's elements.
fn push_keeps<W: Write>(outlet: &mut Outlet<'_, W>, elements: &[Element])
    ensures lines { Grows W.Write outlet.old (lines_text (map (keep_words Three) elements.now)) outlet.new }
    ensures right { AreRightElements elements.now }
{
    for element in elements {
        push_keep(outlet, element);
    }
}

// Pushes the line of an opening's element.
fn push_keep<W: Write>(outlet: &mut Outlet<'_, W>, element: &Element)
    ensures line { Grows W.Write outlet.old (line_text (keep_words Three element.now)) outlet.new }
    ensures right { IsRightElement element.now }
{
    push_element(outlet, b"keep", element);
    outlet.push(&[LINE_FEED]);
}

// Pushes the lines of the events.
fn push_events<W: Write>(outlet: &mut Outlet<'_, W>, events: &[Event])
    ensures lines { Grows W.Write outlet.old (lines_text (map (event_words Three) events.now)) outlet.new }
    ensures right { AreRightEvents events.now }
{
    for event in events {
        push_event(outlet, event);
    }
}

// Pushes the last line.
fn push_end<W: Write>(outlet: &mut Outlet<'_, W>, count: u64)
    ensures { Grows W.Write outlet.old (line_text (end_words count)) outlet.new }
{
    push_numbers(outlet, b"end", &[count]);
    outlet.push(&[LINE_FEED]);
}
