/// When gathered replies are handed on, besides at the end and when a reply finds no room.
#[derive(Clone, Copy)]
pub enum HandsOn {
    /// Before each read. For a desk at which no request waits.
    BeforeReads,
    /// Before each read, and before a request waits.
    BeforeReadsAndWaits,
}
