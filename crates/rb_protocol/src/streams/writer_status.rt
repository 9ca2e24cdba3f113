ghost use Rattle.std.specs.Prelude.{◌≡◌};

use crate::limits::MOST_WRITES;
use crate::streams::writer_state::WriterState;
use std::snapshot::Snapshot;

/// What a writer has come to by the writes of a `LimitedWriter`, which alone changes it.
#[derive(Drop)]
pub struct WriterStatus<W> {
    // How many more writes may be made.
    pub(crate) left: u64,
    pub(crate) state: WriterState,
    // The writer before the first write and after the last, which only proofs read.
    first: Snapshot<W>,
    pub(crate) last: Snapshot<W>,
}

impl<W> WriterStatus<W> {
    ghost use Rattle.rb_protocol.specs.declared.limits.TheConstants.{MOST_WRITES};

    /// Of a writer that has not been written yet. It takes no memory.
    pub fn of(writer: &W) -> WriterStatus<W>
        ensures all_left { result.left ≡ MOST_WRITES }
        ensures open { result.state ≡ WriterState.Open }
        ensures first { result.first.value ≡ writer.now }
        ensures last { result.last.value ≡ writer.now }
    {
        WriterStatus {
            left: MOST_WRITES,
            state: WriterState::Open,
            first: Snapshot::of(writer),
            last: Snapshot::of(writer),
        }
    }

    /// Whether the writer has failed.
    pub fn state(&self) -> WriterState
        ensures { result ≡ self.now.state }
    {
        self.state
    }
}
