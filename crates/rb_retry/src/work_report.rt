/// The counts of a worker. `runs` is the sum of the other four.
#[derive(Clone, Copy, Debug, Default, PartialEq, Eq)]
pub struct WorkReport {
    /// How many jobs were taken and run.
    pub runs: u64,
    /// How many of them were done.
    pub dones: u64,
    /// How many failed and were offered again.
    pub agains: u64,
    /// How many failed at their last attempt.
    pub deads: u64,
    /// How many failed and were lost, because the offer of their next attempt was refused.
    pub lost: u64,
}
