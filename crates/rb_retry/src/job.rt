ghost use Rattle.std.specs.Prelude.{◌≡◌};

use rb_delayed::Element;
use std::marker::Model;

/// An element that was fetched, until it is done or fails. Contracts see the element.
///
/// Only a fetch makes a job. It can be neither copied nor cloned, so it ends at most once.
#[derive(Debug, Drop)]
pub struct Job {
    element: Element,
}

impl Model for Job {
    ghost use Rattle.rb_delayed.specs.declared.element.Element.{Element};
    ghost use Rattle.rb_delayed.specs.contracts.element.Element.{the_row};

    ghost Value = { Element };

    ghost coded = { the_row.coded };

    ghost view = { λ job. job.element };
}

impl Job {
    // Only what was fetched is a job.
    pub(crate) fn new(element: Element) -> Job
        ensures { result ≡ element }
    {
        Job { element }
    }

    /// The element that was fetched.
    pub fn element(&self) -> &Element
        ensures { result.now ≡ self.now }
    {
        &self.element
    }

    /// The element, which is no longer anyone's job.
    pub(crate) fn into_element(self) -> Element
        ensures { result ≡ self }
    {
        self.element
    }
}
