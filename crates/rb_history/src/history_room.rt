ghost use Rattle.std.specs.Prelude.{◌≡◌, ◌≤◌, vec_len, vec_capacity};
ghost use Rattle.rb_history.specs.declared.history_room.TheConstants.{PIECE_BYTES};

use std::alloc::{AllocError, Global};

/// The greatest number of bytes of a history's text that are gathered before they are written, 64 KiB.
pub(crate) const PIECE_BYTES: usize = 64 * 1024;

/// The room in which the text of a history is gathered before it is written, 64 KiB.
///
/// It is all the memory that writing takes, so who has it can write a history of any length.
#[derive(Drop)]
pub struct HistoryRoom {
    pub(crate) bytes: Vec<u8>,
    ghost empty: { vec_len bytes ≡ 0 },
    ghost room: { PIECE_BYTES ≤ vec_capacity bytes },
}

impl HistoryRoom {
    /// Takes the room.
    pub fn new(alloc: Global) -> Result<HistoryRoom, AllocError> {
        Ok(HistoryRoom {
            bytes: Vec::with_capacity(alloc, PIECE_BYTES)?,
        })
    }
}
