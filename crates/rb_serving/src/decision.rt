ghost use Rattle.std.specs.Prelude.{◌≡◌, ◌<◌, ℕ, Bool, cond, is_some};

use std::marker::Brand;
use std::sync::ledger::{Blank, Book, Ledger, Share, Total};
use std::sync::{OnceLock, OnceToken, Wait};

/// Whether a server's workers serve: what they wait for.
///
/// Code over any decision can't make one. So no worker can decide for the others, or let itself serve.
pub(crate) trait Decision {
    ghost serves: { Self → Bool };

    /// Whether the workers serve.
    fn serves(&self) -> bool
        ensures { result ≡ serves self.now };
}

/// The ledger of one decision. `all` are its parts, which a type can't name otherwise.
pub(crate) trait Deciding: Ledger {
    ghost all: { ℕ };
}

impl Deciding for Brand {
    ghost all = { 0 };
}

/// Workers serve once there is what the recorder gave when it began.
///
/// The mark has the amount of the decider's share, so that its holder knows what was decided.
#[derive(Drop)]
pub(crate) struct Decided<L: Deciding, B> {
    begun: Option<B>,
    mark: Total<L>,
    ghost all: { mark.parts ≡ L.all },
    ghost tells: { mark.amount ≡ cond (is_some begun) 1 0 },
}

impl<L: Deciding, B> Decision for Decided<L, B> {
    ghost serves = { λ decided. is_some decided.begun };

    fn serves(&self) -> bool {
        self.begun.is_some()
    }
}

/// The right to decide. There is one for each ledger.
#[derive(Drop)]
pub(crate) struct Decider<L: Deciding> {
    book: Book<L>,
    share: Share<L>,
    ghost all: { share.parts ≡ L.all },
    ghost undecided: { share.amount ≡ 0 },
}

impl<L: Deciding> Decider<L> {
    pub(crate) fn new(blank: Blank) -> Decider<L>
        requires name { blank.name ≡ L.name }
        requires parts { blank.parts ≡ L.parts }
        requires all { L.all ≡ L.parts }
    {
        let (book, share) = blank.open::<L>();
        Decider { book, share }
    }

    /// Lets the workers serve, by what the recorder gave when it began, or leave, and shows that this was decided.
    pub(crate) fn decide<'a, B: Drop, R: Wait>(
        self,
        rt: &R,
        decision: &'a OnceLock<Decided<L, B>>,
        begun: Option<B>,
    ) -> OnceToken<'a, Decided<L, B>>
        requires all { L.all ≡ L.parts }
        requires some { 0 < L.all }
        ensures of { result.of ≡ decision.now.id }
        ensures decided { is_some result.value.begun ≡ is_some begun }
    {
        let (mark, mut share) = self.mark(begun.is_some());
        let decided = Decided { begun, mark };
        let token = decision.init(rt, move || decided);
        decision.value(&token).mark.audit(&mut share);
        token
    }

    // The mark of a decision, and the share that tells it.
    fn mark(self, serves: bool) -> (Total<L>, Share<L>)
        requires all { L.all ≡ L.parts }
        requires some { 0 < L.all }
        ensures parts { result.0.parts ≡ L.all }
        ensures amount { result.0.amount ≡ cond serves 1 0 }
        ensures share_parts { result.1.parts ≡ L.all }
        ensures share_amount { result.1.amount ≡ cond serves 1 0 }
    {
        let Decider {
            mut book,
            mut share,
        } = self;
        if serves {
            book.add(&mut share, 1);
        }
        book.audit(&mut share);
        (book.close(), share)
    }
}

/// Waits until it has been decided, and shows how.
pub(crate) fn wait_for_decision<'a, V, R: Wait>(
    rt: &R,
    decision: &'a OnceLock<V>,
) -> OnceToken<'a, V>
    ensures { result.of ≡ decision.now.id }
{
    for _ in rt.forever() {
        decision.wait(rt);
        if let Some(token) = decision.witness() {
            return token;
        }
    }
    unreachable!()
}
