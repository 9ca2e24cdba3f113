use crate::flaw::Flaw;
use rb_options::TimerKind;

/// The timers over which every script, and every table of a timer or a queue, is run.
pub const TIMERS: [TimerKind; 4] = [
    TimerKind::List,
    TimerKind::Heap,
    TimerKind::Pairing,
    TimerKind::Wheel,
];

/// Returns the name of `timer`.
pub fn timer_name(timer: TimerKind) -> &'static str {
    match timer {
        TimerKind::List => "list",
        TimerKind::Heap => "heap",
        TimerKind::Pairing => "pairing",
        TimerKind::Wheel => "wheel",
    }
}

/// Returns the timer named `name`.
pub fn timer_of(name: &str) -> Result<TimerKind, Flaw> {
    for timer in TIMERS {
        if timer_name(timer) == name {
            return Ok(timer);
        }
    }
    Err(Flaw::Device)
}
