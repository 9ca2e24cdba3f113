use rb_blocking::{Bell, Clock};
use rb_lock::Shared;
use rb_retry::Policy;
use rb_session::Delivery;
use rb_timer::Timer;
use std::alloc::Global;
use std::sync::OnceLock;

/// What all workers of a server have in common.
#[derive(Drop)]
pub(crate) struct Service<'a, T: Timer, C: Clock, V> {
    pub(crate) alloc: Global,
    pub(crate) shared: &'a Shared<T>,
    pub(crate) clock: &'a C,
    pub(crate) bell: &'a Bell,
    // Decided once all workers have been started, or one can't be.
    pub(crate) serves: &'a OnceLock<V>,
    pub(crate) policy: &'a Policy,
    pub(crate) delivery: Delivery,
}
