ghost use Rattle.std.specs.Prelude.{◌≡◌, ◌<◌, false, is_ok, MatchResult};
ghost use Rattle.rb_ending.specs.declared.broker_fault.BrokerFault.{BrokerFault};
ghost use Rattle.rb_ending.specs.declared.broker_fault.BrokerFault.TheVariants.{Worker};
ghost use Rattle.rb_serving.specs.Serving.{EndsRecorded};

use crate::decision::{Decided, Decider, Deciding, Decision};
use rb_ending::{BrokerFault, Recorder};
use std::sync::{OnceLock, OnceToken, Wait};

/// What begins once all workers have been started, and decides whether they serve.
///
/// Code over any such thing can only let it begin, or give it up, and either decides.
pub(crate) trait Begin<V: Decision> {
    /// What is left of it.
    type Rest;

    ghost may_decide: { Type 0 };

    ghost has_begun: { Self → Self.Rest → Type 0 };

    ghost has_failed: { Self → Self.Rest → BrokerFault → Type 0 };

    /// Begins, and then lets the workers serve. If it can't begin, they leave.
    fn begin<'a, R: Wait>(
        self,
        rt: &R,
        serves: &'a OnceLock<V>,
    ) -> (Result<(), BrokerFault>, OnceToken<'a, V>, Self::Rest)
        requires { may_decide }
        ensures token { result.1.of ≡ serves.now.id }
        ensures serve { V.serves result.1.value ≡ is_ok result.0 }
        ensures began { MatchResult result.0 (λ _. has_begun self result.2) (has_failed self result.2) };

    /// Lets the workers leave, one of which can't be started.
    fn give_up<'a, R: Wait>(self, rt: &R, serves: &'a OnceLock<V>) -> (OnceToken<'a, V>, Self::Rest)
        requires { may_decide }
        ensures token { result.0.of ≡ serves.now.id }
        ensures leave { V.serves result.0.value ≡ false }
        ensures failed { has_failed self result.1 Worker };
}

/// Begins with the recorder. What it then gives is what lets the workers serve.
#[derive(Drop)]
pub(crate) struct Recording<L: Deciding, B> {
    pub(crate) decider: Decider<L>,
    pub(crate) recorder: B,
}

impl<L: Deciding, B: Recorder> Begin<Decided<L, B::Begun>> for Recording<L, B> {
    type Rest = B;

    ghost may_decide = { (L.all ≡ L.parts) × (0 < L.all) };

    ghost has_begun = { λ recording. B.has_begun recording.recorder };

    ghost has_failed = { λ recording. EndsRecorded B.has_failed recording.recorder };

    fn begin<'a, R: Wait>(
        self,
        rt: &R,
        serves: &'a OnceLock<Decided<L, B::Begun>>,
    ) -> (
        Result<(), BrokerFault>,
        OnceToken<'a, Decided<L, B::Begun>>,
        B,
    ) {
        let Recording {
            decider,
            mut recorder,
        } = self;
        match recorder.begin() {
            Ok(begun) => (Ok(()), decider.decide(rt, serves, Some(begun)), recorder),
            Err(_) => (
                Err(BrokerFault::WriteHistory),
                decider.decide(rt, serves, None),
                recorder,
            ),
        }
    }

    fn give_up<'a, R: Wait>(
        self,
        rt: &R,
        serves: &'a OnceLock<Decided<L, B::Begun>>,
    ) -> (OnceToken<'a, Decided<L, B::Begun>>, B) {
        let Recording { decider, recorder } = self;
        (decider.decide(rt, serves, None), recorder)
    }
}
