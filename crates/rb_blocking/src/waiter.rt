use crate::clock::Clock;
use rb_bell::Bell;
use rb_lock::Shared;
use rb_timer::Timer;

/// Where a call waits: the queue that it tries, the clock at whose readings it does so, and the bell at which it rests
/// between two tries.
#[derive(Drop)]
pub struct Waiter<'a, T: Timer, C: Clock> {
    pub shared: &'a Shared<T>,
    pub clock: &'a C,
    pub bell: &'a Bell,
}
