ghost use Rattle.std.specs.Prelude.{◌≡◌, ◌↔◌, Some, IfSome, codes};

/// How a queue finds the element that expires first.
#[derive(Clone, Copy, Debug, PartialEq, Eq)]
pub enum TimerKind {
    /// The plain timer, which looks at each slot: `list` on the command line.
    List,
    /// The binary heap: `heap` on the command line.
    Heap,
    /// The pairing heap: `pairing` on the command line.
    Pairing,
    /// The hierarchical wheel: `wheel` on the command line.
    Wheel,
}

impl TimerKind {
    /// The names that the command line accepts.
    pub const NAMES: [&'static str; 4] = ["list", "heap", "pairing", "wheel"];

    /// The kind of that name, if there is one.
    pub fn named(name: &str) -> Option<TimerKind>
        ensures list { result ≡ Some TimerKind.List ↔ name.now ≡ codes "list" }
        ensures heap { result ≡ Some TimerKind.Heap ↔ name.now ≡ codes "heap" }
        ensures pairing { result ≡ Some TimerKind.Pairing ↔ name.now ≡ codes "pairing" }
        ensures wheel { result ≡ Some TimerKind.Wheel ↔ name.now ≡ codes "wheel" }
    {
        match name {
            "list" => Some(TimerKind::List),
            "heap" => Some(TimerKind::Heap),
            "pairing" => Some(TimerKind::Pairing),
            "wheel" => Some(TimerKind::Wheel),
            _ => None,
        }
    }
}
