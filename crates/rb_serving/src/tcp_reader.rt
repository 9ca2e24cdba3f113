ghost use Rattle.std.specs.Prelude.{IfSome};
ghost use Rattle.std.specs.Io.{ReadsAtMost};

use crate::ending::{Ending, InputRead, shown_drain};
use crate::incoming::Incoming;
use crate::patience::{Patience, is_timeout};
use crate::standing::Standing;
use rb_blocking::Clock;
use std::alloc::Global;
use std::fmt::{self, Debug, Formatter};
use std::io::{self, Read};
use std::sync::{Arc, OnceToken};

/// What a session over TCP reads: what its client sends. If told so, it also ends when the server is to drain or to end,
/// or when the client has been silent for too long.
#[derive(Drop)]
pub struct TcpReader<'a, S> {
    pub(crate) stream: S,
    pub(crate) patience: Option<Patience<'a>>,
    pub(crate) standing: Option<Arc<Standing, Global>>,
    // Whether it has read what had come when the server was to drain.
    pub(crate) has_left: bool,
}

/// What a read may do.
#[derive(Drop)]
pub(crate) enum Stance<'a> {
    /// It waits for the client.
    Waits,
    /// It takes what has come, and waits for nothing, since the server is to drain or to end, which this shows.
    Takes(OnceToken<'a, InputRead>),
    /// It takes nothing more, for the same reasons, or since nobody is waited for any longer.
    IsOver(OnceToken<'a, InputRead>),
}

impl<'a, S: Incoming> TcpReader<'a, S> {
    // A session that holds jobs goes on while the server drains. One that holds none reads what has come once more.
    fn stance(&mut self, ending: Option<&'a Ending>) -> Stance<'a> {
        let Some(ending) = ending else {
            return Stance::Waits;
        };
        if let Some(token) = ending.leaves() {
            return Stance::IsOver(token);
        }
        if let Some(token) = ending.ends() {
            return Stance::Takes(token);
        }
        match shown_drain(Some(ending)) {
            Some(token) if !self.holds() => self.farewell(token),
            _ => Stance::Waits,
        }
    }

    // The last read of a session that holds no job takes what has come, and any after it nothing.
    fn farewell(&mut self, token: OnceToken<'a, InputRead>) -> Stance<'a> {
        if self.has_left {
            Stance::IsOver(token)
        } else {
            self.has_left = true;
            Stance::Takes(token)
        }
    }

    fn holds(&self) -> bool {
        match &self.standing {
            Some(standing) => standing.holds(),
            None => false,
        }
    }

    // What the client has sent, or that nothing more is read; none if it is still waited for.
    fn look(&mut self, buf: &mut [u8], ending: Option<&'a Ending>) -> Option<io::Result<usize>>
        ensures { IfSome result (λ came. ReadsAtMost came buf.new) }
    {
        match self.stance(ending) {
            Stance::Waits => match self.stream.read(buf) {
                Err(fault) if is_timeout(&fault) => None,
                came => Some(came),
            },
            Stance::Takes(_) => Some(self.stream.read_at_once(buf)),
            Stance::IsOver(_) => Some(Ok(0)),
        }
    }

    fn read_patiently(&mut self, buf: &mut [u8], patience: Patience<'a>) -> io::Result<usize>
        ensures { ReadsAtMost result buf.new }
    {
        let begun = patience.clock.now();
        for _ in 0..u64::MAX {
            if let Some(came) = self.look(buf, patience.ending) {
                return came;
            }
            if patience.is_over_since(begun) {
                break;
            }
        }
        Ok(0)
    }
}

impl<'a, S: Incoming> Read for TcpReader<'a, S> {
    fn read(&mut self, buf: &mut [u8]) -> io::Result<usize> {
        match self.patience {
            Some(patience) => self.read_patiently(buf, patience),
            None => self.stream.read(buf),
        }
    }
}

impl<'a, S> Debug for TcpReader<'a, S> {
    fn fmt<W: fmt::Write>(&self, f: &mut Formatter<W>) -> fmt::Result {
        f.debug_struct("TcpReader").finish_non_exhaustive()
    }
}
