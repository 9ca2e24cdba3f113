ghost use Rattle.std.specs.Prelude.{◌≤◌, ◌/◌, ◌↔◌, IsTrue};

// From this many slots for each entry on, it costs less to take the entries out one by one than to go
// over all slots.
const SLOTS_TO_AN_ENTRY: usize = 8;

/// Whether a clear takes the entries out one by one: at most one slot in eight has an entry, so a pass
/// over all slots would cost more.
///
/// Every timer and queue that can clear in both ways asks this function.
pub fn clears_one_by_one(entries: usize, slots: usize) -> bool
    ensures { IsTrue result ↔ (entries ≤ slots / SLOTS_TO_AN_ENTRY) }
{
    entries <= slots / SLOTS_TO_AN_ENTRY
}
