ghost use Rattle.std.specs.Prelude.{◌≡◌};

/// How a rest ended. Only a bell makes one, and it can't be copied.
#[derive(Debug, Drop)]
pub struct Rested {
    pub(crate) count: u64,
    pub(crate) woken: bool,
}

impl Rested {
    /// The bell's count at its end.
    pub fn count(&self) -> u64
        ensures { result ≡ self.now.count }
    {
        self.count
    }

    /// Whether another call woke this one, for an element that it may take.
    pub fn is_woken(&self) -> bool
        ensures { result ≡ self.now.woken }
    {
        self.woken
    }
}
