use rb_delayed::Element;

/// What became of a job that failed.
#[derive(Clone, Copy, Debug, PartialEq, Eq)]
pub enum Verdict {
    /// Its next attempt was offered, as this element.
    Again(Element),
    /// This element was its last attempt.
    Dead(Element),
}
