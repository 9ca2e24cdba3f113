ghost use Rattle.std.specs.Prelude.{◌≡◌, [], false, IfOk};

use crate::delivery::Delivery;
use crate::session::Session;
use std::alloc::{AllocError, Global};

/// The memory of a session, which it needs before its first read: for the bytes that come, for replies that
/// are gathered, and for 64 jobs.
///
/// A session that runs in it takes no other memory, except for what is offered and drained. Then it is there for the next.
#[derive(Drop)]
pub struct SessionRoom {
    pub(crate) alloc: Global,
    pub(crate) gathered: Vec<u8>,
    pub(crate) session: Session,
    pub(crate) delivery: Delivery,
    ghost ungathered: { gathered.items ≡ [] },
    ghost short: { session.buffer.is_long ≡ false },
    ghost unread: { session.buffer.start ≡ session.buffer.end },
    ghost unheld: { session.held ≡ [] },
}

impl SessionRoom {
    /// Takes the memory for a session whose replies are written when `delivery` says so: 64 KiB for what
    /// comes, 64 KiB more if replies are gathered, and the room for the jobs.
    pub fn new(alloc: Global, delivery: Delivery) -> Result<SessionRoom, AllocError>
        ensures { IfOk result (λ room. room.delivery ≡ delivery) }
    {
        Ok(SessionRoom {
            alloc,
            gathered: Vec::with_capacity(alloc, delivery.most_held_back())?,
            session: Session::new(alloc)?,
            delivery,
        })
    }
}
