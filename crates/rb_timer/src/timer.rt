ghost use Rattle.std.specs.Prelude.{◌≡◌, ℕ, ◌<◌, Some, None, IsSome, OnOk, OnErr, max};
ghost use Rattle.std.specs.FinMap as map;
ghost use Rattle.rb_timer.specs.Content.{Content, IsLeastEntry, IsDueEntry};

use std::alloc::{AllocError, Global};

/// A finite map from slot to expiry that knows which expiry is least.
///
/// Of several entries of least expiry `least` and `due` may give any. The caller has to meet the
/// conditions of `insert` and `remove`; no timer tests them.
///
/// The cost of a call grows with the entries that it adds or takes out, and at most with the logarithm
/// of the number of entries; it depends neither on how many there once were nor on the room. Each type
/// says for which calls that holds every time, and for which in the long run. A `reserve` that makes
/// room costs all the room that there is then. Only the plain timer does not keep this rule.
pub trait Timer: Drop {
    /// The entries: each slot with its expiry.
    ghost content: { Self → Content };

    /// How many slots there are: every entry's slot is below this number.
    ghost room: { Self → ℕ };

    /// An empty timer with no room, which takes no memory until `reserve`.
    fn new(alloc: Global) -> Self
        ensures content { content result ≡ map.empty }
        ensures room { room result ≡ 0 };

    /// How many slots there are: every entry's slot is below this number.
    fn room(&self) -> usize
        ensures { result ≡ room self.now };

    /// The number of entries.
    fn len(&self) -> usize
        ensures { result ≡ map.len (content self.now) };

    /// The expiry of the slot's entry, in nanoseconds, if the slot has one.
    fn get(&self, slot: usize) -> Option<u64>
        ensures { result ≡ map.get (content self.now) slot };

    /// Makes the room at least `wanted`. This is the only call that takes memory. On `Err` there was not
    /// enough, and nothing has changed.
    fn reserve(&mut self, wanted: usize) -> Result<(), AllocError>
        ensures ok { OnOk result (room self.new ≡ max (room self.old) wanted) }
        ensures err { OnErr result (room self.new ≡ room self.old) }
        ensures content { content self.new ≡ content self.old };

    /// Adds an entry, with its expiry in nanoseconds, at a slot that is below the room and has none.
    fn insert(&mut self, slot: usize, expiry: u64)
        requires in_room { slot < room self.old }
        requires absent { map.get (content self.old) slot ≡ None }
        ensures content { content self.new ≡ map.insert (content self.old) slot expiry }
        ensures room { room self.new ≡ room self.old };

    /// Takes out the entry at a slot that has one, and returns its expiry, in nanoseconds.
    fn remove(&mut self, slot: usize) -> u64
        requires { IsSome (map.get (content self.old) slot) }
        ensures value { map.get (content self.old) slot ≡ Some result }
        ensures content { content self.new ≡ map.remove (content self.old) slot }
        ensures room { room self.new ≡ room self.old };

    /// The slot and the expiry, in nanoseconds, of an entry of least expiry. `None` exactly if there is
    /// no entry.
    fn least(&self) -> Option<(usize, u64)>
        ensures { IsLeastEntry (content self.now) result };

    /// The slot and the expiry of an entry of least expiry, if that is at most `now`; both moments are in
    /// nanoseconds. `None` exactly if every expiry is later.
    ///
    /// A timer may rearrange itself, but its content stays. `now` may be less than in a call before.
    fn due(&mut self, now: u64) -> Option<(usize, u64)>
        ensures due { IsDueEntry (content self.old) now result }
        ensures content { content self.new ≡ content self.old }
        ensures room { room self.new ≡ room self.old };

    /// Takes out every entry, and keeps the room.
    fn clear(&mut self)
        ensures content { content self.new ≡ map.empty }
        ensures room { room self.new ≡ room self.old };

    /// Every slot is below the room.
    ghost slots_below_room: { (timer : Self) (slot : ℕ) → IsSome (map.get (content timer) slot) → slot < room timer };
}
