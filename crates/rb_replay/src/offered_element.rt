use rb_delayed::Element;

/// An element that an event offered.
#[derive(Clone, Copy)]
pub(crate) struct OfferedElement {
    /// The element.
    pub(crate) element: Element,
    /// Whether it is the first attempt of its own job, and was given before any other element that is
    /// this attempt.
    pub(crate) is_given_first: bool,
}
