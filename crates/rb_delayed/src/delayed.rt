ghost use Rattle.std.specs.Prelude.{◌≡◌, ℕ, ◌≤◌, ◌↔◌, IsTrue};
ghost use Rattle.std.specs.Ordering.{int_cmp};
ghost use Rattle.rb_delayed.specs.Moment.{delay_of, IsExpired};

use std::cmp::Ordering;

/// Something that may be taken once its delay has expired, like `java.util.concurrent.Delayed`
/// (Java SE 17).
pub trait Delayed {
    /// Its id, the number that names it.
    ghost id: { Self → ℕ };

    /// The moment, in nanoseconds, at which its delay is zero.
    ghost expiry: { Self → ℕ };

    /// Its id, the number that names it.
    fn id(&self) -> u64
        ensures { result ≡ id self.now };

    /// The moment, in nanoseconds, from which it is expired.
    fn expiry(&self) -> u64
        ensures { result ≡ expiry self.now };

    /// The nanoseconds from `now` until it expires, like `Delayed.getDelay`: zero at the expiry,
    /// negative after it.
    fn delay(&self, now: u64) -> i128
        ensures { result ≡ delay_of (expiry self.now) now }
    {
        i128::from(self.expiry()) - i128::from(now)
    }

    /// How the two delays compare, like `Delayed.compareTo`. The order is the same at every moment.
    fn delay_order(&self, other: &Self) -> Ordering
        ensures { (now : ℕ) → result ≡ int_cmp (delay_of (expiry self.now) now) (delay_of (expiry other.now) now) }
    {
        self.expiry().cmp(&other.expiry())
    }
}

/// Whether the element's delay is zero or less at `now`, in nanoseconds: what `DelayQueue`
/// (Java SE 17) calls expired.
pub fn is_expired<D: Delayed>(element: &D, now: u64) -> bool
    ensures expired { IsTrue result ↔ IsExpired (D.expiry element.now) now }
    ensures by_expiry { IsTrue result ↔ (D.expiry element.now ≤ now) }
{
    element.expiry() <= now
}
