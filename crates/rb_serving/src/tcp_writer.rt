ghost use Rattle.std.specs.Io.{WritesAtMost};
ghost use Rattle.std.specs.Io.KnownBytes.{WriteAppends};

use crate::patience::{Patience, is_timeout};
use rb_blocking::Clock;
use rb_protocol::Recipient;
use std::fmt::{self, Debug, Formatter};
use std::io::{self, ErrorKind, Write};

/// What a session over TCP writes to. If told so, it gives up a client that takes nothing for too long.
///
/// It is over any stream, since std's says nothing of the bytes that were written to it.
#[derive(Drop)]
pub struct TcpWriter<'a, W> {
    pub(crate) stream: W,
    pub(crate) patience: Option<Patience<'a>>,
}

impl<'a, W: Write> TcpWriter<'a, W> {
    fn write_patiently(&mut self, buf: &[u8], patience: Patience<'a>) -> io::Result<usize>
        ensures bound { WritesAtMost result buf.now }
        ensures bytes { WriteAppends (W.contents self.old.stream) (W.contents self.new.stream) result buf.now }
    {
        let begun = patience.clock.now();
        for _ in 0..u64::MAX {
            match self.stream.write(buf) {
                Err(fault) if is_timeout(&fault) => {}
                written => return written,
            }
            if patience.leaves() || patience.is_over_since(begun) {
                break;
            }
        }
        Err(io::Error::from(ErrorKind::TimedOut))
    }
}

impl<'a, V, W: Write> Recipient<V> for TcpWriter<'a, W> {
    ghost contents = { λ writer. W.contents writer.stream };

    ghost demands = { λ writer shown piece. Unit {0} };

    fn take(&mut self, _shown: &V, piece: &[u8]) -> io::Result<usize> {
        match self.patience {
            Some(patience) => self.write_patiently(piece, patience),
            None => self.stream.write(piece),
        }
    }

    fn hand_on(&mut self, _shown: &V) -> io::Result<()> {
        Ok(())
    }
}

impl<'a, W> Debug for TcpWriter<'a, W> {
    fn fmt<F: fmt::Write>(&self, f: &mut Formatter<F>) -> fmt::Result {
        f.debug_struct("TcpWriter").finish_non_exhaustive()
    }
}
