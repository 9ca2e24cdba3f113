use std::sync::atomic::{AtomicBool, Ordering};

/// How a session stands, as it last said: whether it holds jobs, and whether bytes that it has read are not served yet.
#[derive(Drop)]
pub(crate) struct Standing {
    holds: AtomicBool,
    has_more: AtomicBool,
}

impl Standing {
    /// A session before its first read.
    pub(crate) fn new() -> Standing {
        Standing {
            holds: AtomicBool::new(false),
            has_more: AtomicBool::new(false),
        }
    }

    pub(crate) fn set(&self, holds: bool, has_more: bool) {
        self.holds.store(holds, Ordering::SeqCst);
        self.has_more.store(has_more, Ordering::SeqCst);
    }

    pub(crate) fn holds(&self) -> bool {
        self.holds.load(Ordering::SeqCst)
    }

    pub(crate) fn has_more(&self) -> bool {
        self.has_more.load(Ordering::SeqCst)
    }
}
