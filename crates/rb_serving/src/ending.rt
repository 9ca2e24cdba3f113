ghost use Rattle.std.specs.Prelude.{IfSome, IsSome};
ghost use Rattle.rb_serving.specs.TcpReasons.{ShowsDrain};

use std::fmt::{self, Debug, Formatter};
use std::io::{ErrorKind, Read};
use std::sync::{OnceLock, OnceToken, Wait};
use std::time::Duration;
use std::{thread, time};

// How long an input that does not wait is left before it is asked again, in milliseconds.
const AGAIN: u64 = 20;

// How long clients have to read their replies after the end, in milliseconds.
const PATIENCE: u64 = 1_000;

// How many bytes of the input are read at once. What they are does not matter.
const PIECE: usize = 64;

/// What shows that the input of a server was read, which only an `Ending` makes.
#[derive(Clone, Copy, Debug, PartialEq, Eq)]
pub struct InputRead {
    // How many bytes came: none at the end of the input.
    bytes: usize,
}

/// What the input of a server asks for, in this order: that it drains, that it ends, and that it no longer waits for
/// clients that do not read their replies.
///
/// Each is a hint to others, set once, after the input was read.
#[derive(Drop)]
pub struct Ending {
    drain: OnceLock<InputRead>,
    end: OnceLock<InputRead>,
    leave: OnceLock<InputRead>,
}

impl Ending {
    /// Nothing has been asked for.
    pub fn new() -> Ending {
        Ending {
            drain: OnceLock::new(),
            end: OnceLock::new(),
            leave: OnceLock::new(),
        }
    }

    /// What shows that the server is to end, if it is.
    pub(crate) fn ends(&self) -> Option<OnceToken<'_, InputRead>> {
        self.end.witness()
    }

    /// What shows that nobody is waited for any longer, if that is so.
    pub(crate) fn leaves(&self) -> Option<OnceToken<'_, InputRead>> {
        self.leave.witness()
    }

    /// Reads the input, and asks for what it asks for: when something comes that the server drains, when it ends or can't
    /// be read that the server ends, and a second later that it waits for nobody.
    pub fn follow<R: Wait + time::Clock, I: Read>(&self, rt: &R, input: &mut I) {
        let mut piece = [0u8; PIECE];
        for _ in rt.forever() {
            match input.read(&mut piece) {
                Ok(0) => break,
                Ok(bytes) => {
                    let _ = self.drain.set(rt, InputRead { bytes });
                }
                Err(fault) => match fault.kind() {
                    ErrorKind::Interrupted => {}
                    ErrorKind::WouldBlock => thread::sleep(rt, Duration::from_millis(AGAIN)),
                    _ => break,
                },
            }
        }
        self.end(rt);
    }

    /// Asks for the end, as when the input has ended.
    pub fn end<R: Wait + time::Clock>(&self, rt: &R) {
        let read = InputRead { bytes: 0 };
        let _ = self.end.set(rt, read);
        let _ = self.drain.set(rt, read);
        thread::sleep(rt, Duration::from_millis(PATIENCE));
        let _ = self.leave.set(rt, read);
    }
}

/// What shows that a server is to drain, if it is.
pub(crate) fn shown_drain<'a>(ending: Option<&'a Ending>) -> Option<OnceToken<'a, InputRead>>
    ensures shown { IfSome result (λ token. ShowsDrain ending.entry token.of) }
    ensures some { IsSome result → IsSome ending.entry }
{
    match ending {
        Some(ending) => ending.drain.witness(),
        None => None,
    }
}

impl Debug for Ending {
    fn fmt<W: fmt::Write>(&self, f: &mut Formatter<W>) -> fmt::Result {
        f.debug_struct("Ending").finish_non_exhaustive()
    }
}
