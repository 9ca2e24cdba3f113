ghost use Rattle.rb_history.specs.Settling.{KnowsFirsts, IsFirst, SettlesElements, SettlesEvents, SettlesEvent};

use rb_delayed::Element;
use rb_queue::{Act, Event};
use std::alloc::{AllocError, Global};
use std::collections::BTreeMap;

/// The expiry of each job's first offer, among the elements looked at so far.
#[derive(Drop)]
pub(crate) struct Firsts {
    expiries: BTreeMap<u64, u64>,
}

impl Firsts {
    ghost use Rattle.std.specs.Prelude.{[], IfOk, OnOk, List};

    /// No element has been looked at yet.
    pub(crate) fn new(alloc: Global) -> Self
        ensures { KnowsFirsts result [] }
    {
        Firsts {
            expiries: BTreeMap::new(alloc),
        }
    }

    /// Sets the first expiry of each of these elements: the expiry of the earliest element with its
    /// origin, which may be itself. It takes memory for each origin.
    pub(crate) fn settle_elements(&mut self, elements: &mut [Element]) -> Result<(), AllocError>
        requires { KnowsFirsts self.old [] }
        ensures { OnOk result (SettlesElements elements.old self.new elements.new) }
    {
        for element in elements.iter_mut() {
            element.first = self.first_of(element)?;
        }
        Ok(())
    }

    /// The same for the elements that these events offered.
    pub(crate) fn settle_events(&mut self, events: &mut [Event]) -> Result<(), AllocError>
        ensures { OnOk result (SettlesEvents self.old events.old self.new events.new) }
    {
        for event in events.iter_mut() {
            self.settle_event(event)?;
        }
        Ok(())
    }

    fn settle_event(&mut self, event: &mut Event) -> Result<(), AllocError>
        ensures { OnOk result (SettlesEvent self.old event.old self.new event.new) }
    {
        if let Act::Offer(element) = &mut event.act {
            element.first = self.first_of(element)?;
        }
        Ok(())
    }

    // The expiry of the earliest element with this one's origin: this one's own, if none came before.
    fn first_of(&mut self, element: &Element) -> Result<u64, AllocError>
        ensures { IfOk result (IsFirst self.old element.now self.new) }
    {
        if let Some(first) = self.expiries.get(&element.origin).copied() {
            return Ok(first);
        }
        self.expiries.insert(element.origin, element.expiry)?;
        Ok(element.expiry)
    }
}
