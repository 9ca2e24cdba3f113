use crate::tests::devices::expect;
use rb_blocking::{Clock, MachineClock};
use rb_serving::ServeClock;
use std::thread;
use std::time::Duration;

// The reading of a server's clock lies between those of two machine clocks, one made before it and
// one made after it.
#[test]
fn the_clock_of_a_server_goes_as_the_machines(rt: HostRuntime) {
    let earlier = MachineClock::new(&rt);
    let clock = ServeClock::new(1_000, MachineClock::new(&rt));
    let later = MachineClock::new(&rt);
    thread::sleep(&rt, Duration::from_millis(20));
    let least = later.now();
    let passed = clock.now().saturating_sub(1_000);
    let most = earlier.now();
    expect(&rt, least >= 20_000_000);
    expect(&rt, least <= passed && passed <= most);
}
