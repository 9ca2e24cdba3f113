/// The greatest number of reads of one input, or of one file.
pub const MOST_READS: u64 = 10_000_000;

/// The greatest number of writes to one output: more than any output gets.
pub const MOST_WRITES: u64 = u64::MAX;

/// The greatest number of bytes that one read gets: 64 KiB.
pub const BUFFER_BYTES: usize = 64 * 1024;
