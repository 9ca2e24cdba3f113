ghost use Rattle.std.specs.Prelude.{◌≡◌, ◌+◌, ◌≤◌, min};
ghost use Rattle.std.specs.Option.{SomeIff};

/// The last moment, 2^64 - 1 nanoseconds.
pub const GREATEST_MOMENT: u64 = u64::MAX;

/// The moment `delay` nanoseconds after `now`. `None` exactly if that would pass the greatest moment.
pub fn add_delay(now: u64, delay: u64) -> Option<u64>
    ensures { SomeIff result (now + delay ≤ GREATEST_MOMENT) (now + delay) }
{
    now.checked_add(delay)
}

/// The moment `delay` nanoseconds after `now`, or the greatest moment if that comes first.
pub fn add_capped(now: u64, delay: u64) -> u64
    ensures { result ≡ min (now + delay) GREATEST_MOMENT }
{
    now.saturating_add(delay)
}
