ghost use Rattle.std.specs.Prelude.{ℕ, List, Option};
ghost use Rattle.std.specs.Io.{WritesAtMost};
ghost use Rattle.std.specs.Io.KnownBytes.{WriteAppends, Keeps};

use std::io::{self, Write};

/// What bytes are written to, piece by piece. With each piece it is shown something, of type `V`.
///
/// Every writer is a recipient, and takes any piece, whatever it is shown. One of another kind may demand something of
/// a piece before it is handed that: `demands` says what. So a contract can say what a recipient gets at each moment,
/// even in a run that never ends.
pub trait Recipient<V> {
    ghost contents: { Self → Option (List ℕ) };

    ghost demands: { Self → V → List ℕ → Type 0 };

    /// Takes the first bytes of a piece, as `Write::write`, and returns how many.
    fn take(&mut self, shown: &V, piece: &[u8]) -> io::Result<usize>
        requires { demands self.old shown.now piece.now }
        ensures bound { WritesAtMost result piece.now }
        ensures bytes { WriteAppends (contents self.old) (contents self.new) result piece.now };

    /// Hands on what it has taken, as `Write::flush`.
    fn hand_on(&mut self, shown: &V) -> io::Result<()>
        ensures { Keeps (contents self.old) (contents self.new) };
}

impl<V, W: Write> Recipient<V> for W {
    ghost contents = { λ writer. W.contents writer };

    ghost demands = { λ writer shown piece. Unit {0} };

    fn take(&mut self, _shown: &V, piece: &[u8]) -> io::Result<usize> {
        self.write(piece)
    }

    fn hand_on(&mut self, _shown: &V) -> io::Result<()> {
        self.flush()
    }
}
