/// The counts of a run. `calls` counts calls, and each other field elements.
///
/// `opening` and `offered` together are as many as `given`, `removed`, `cleared` and `left` together.
#[derive(Clone, Copy, Debug, PartialEq, Eq)]
pub struct Audit {
    /// The calls that were answered.
    pub calls: u64,
    /// The elements that were offered.
    pub offered: u64,
    /// The elements that were given to callers.
    pub given: u64,
    /// The elements that `remove` took out.
    pub removed: u64,
    /// The elements that `clear` discarded.
    pub cleared: u64,
    /// The elements that are left in the queue.
    pub left: u64,
    /// The elements that were in the queue at the start.
    pub opening: u64,
}
