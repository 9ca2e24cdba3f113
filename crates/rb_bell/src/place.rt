ghost use Rattle.std.specs.Prelude.{◌≡◌, ◌<◌, ◌+◌, ◌-◌, ◌^◌, ◌↔◌, IsTrue, if◌then◌else◌, eqb, min, max};

/// Where calls rest at a bell: one call, or several if more rest than there are places.
#[derive(Clone, Copy, Default)]
pub(crate) struct Place {
    // How many calls rest here.
    resting: u64,
    // How many of them were woken and have not noticed it.
    woken: u64,
    // When the last of them looks again by itself, if nothing wakes it, or a later moment if others have
    // left.
    latest: u64,
}

impl Place {
    /// How many calls rest here.
    pub(crate) fn resting(&self) -> u64
        ensures { result ≡ self.now.resting }
    {
        self.resting
    }

    /// Whether some call here was woken and has not noticed it.
    pub(crate) fn is_woken(&self) -> bool
        ensures { IsTrue result ↔ (0 < self.now.woken) }
    {
        self.woken > 0
    }

    /// Adds a call that rests here, and looks again by itself at the moment `until`.
    pub(crate) fn enter(&mut self, until: u64)
        ensures resting { self.new.resting ≡ min (self.old.resting + 1) (2 ^ 64 - 1) }
        ensures woken { self.new.woken ≡ self.old.woken }
        ensures latest { self.new.latest ≡ max self.old.latest until }
    {
        self.resting = self.resting.saturating_add(1);
        self.latest = self.latest.max(until);
    }

    /// Ends the rest of a call. Returns whether it was woken.
    pub(crate) fn leave(&mut self) -> bool
        ensures result { IsTrue result ↔ (0 < self.old.woken) }
        ensures resting { self.new.resting ≡ self.old.resting - 1 }
        ensures woken { self.new.woken ≡ min (self.old.woken - 1) self.new.resting }
        ensures latest { self.new.latest ≡ (if eqb self.new.resting 0 then 0 else self.old.latest) }
    {
        let woken = self.is_woken();
        self.resting = self.resting.saturating_sub(1);
        self.woken = self.woken.saturating_sub(1).min(self.resting);
        if self.resting == 0 {
            self.latest = 0;
        }
        woken
    }

    /// Wakes a call that would look again only after this expiry. Returns whether there was one.
    pub(crate) fn wake_one(&mut self, expiry: u64) -> bool
        ensures result { IsTrue result ↔ ((self.old.woken < self.old.resting) × (expiry < self.old.latest)) }
        ensures woken { self.new.woken ≡ self.old.woken + (if result then 1 else 0) }
        ensures resting { self.new.resting ≡ self.old.resting }
        ensures latest { self.new.latest ≡ self.old.latest }
    {
        if self.woken >= self.resting || self.latest <= expiry {
            return false;
        }
        self.woken += 1;
        true
    }

    /// Wakes all calls that rest here.
    pub(crate) fn wake_all(&mut self)
        ensures { self.new ≡ record self.old { woken = self.old.resting } }
    {
        self.woken = self.resting;
    }
}
