ghost use Rattle.std.specs.Prelude.{◌≡◌, Bool, false, OnErr, OnOk};

use rb_protocol::WriteFault;

/// What records a run. It begins when the run has all that it needs, before anything is read and anybody let in.
///
/// `has_begun` tells how a recorder began, and `has_failed` that it could not. Code over any recorder learns them, and
/// gets a `Begun`, in no other way than by letting it begin. So one that is as it was before has not begun.
pub trait Recorder {
    /// What shows that a recorder has begun.
    type Begun: Drop + Send + Sync;

    ghost has_begun: { Self → Self → Type 0 };

    ghost has_failed: { Self → Self → Type 0 };

    ghost keeps: { Self → Bool };

    /// Begins, such as by emptying the file that the history goes to. `Err` means that it could not, and then nobody is
    /// served.
    fn begin(&mut self) -> Result<Self::Begun, WriteFault>
        ensures begun { OnOk result (has_begun self.old self.new) }
        ensures failed { OnErr result (has_failed self.old self.new) };

    /// Whether the run's history is to be written to it.
    fn records(&self) -> bool
        ensures { result ≡ keeps self.now };
}

/// For a run that is recorded nowhere.
#[derive(Clone, Copy, Debug)]
pub struct NoRecorder;

impl Recorder for NoRecorder {
    type Begun = ();

    ghost has_begun = { λ old new. Unit {0} };

    ghost has_failed = { λ old new. ⊥ };

    ghost keeps = { λ recorder. false };

    fn begin(&mut self) -> Result<(), WriteFault> {
        Ok(())
    }

    fn records(&self) -> bool {
        false
    }
}
