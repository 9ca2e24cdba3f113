ghost use Rattle.std.specs.Io.{ReadsAtMost};

use crate::patience::is_timeout;
use std::io::{self, ErrorKind, Read};
use std::net::TcpStream;

/// The end of a client's connection at which its bytes come.
///
/// It can be read and looked at, and nothing can be sent to the client through it.
pub trait Incoming {
    /// Reads once, and waits for no longer than the listener was told to let it.
    fn read(&mut self, buf: &mut [u8]) -> io::Result<usize>
        ensures { ReadsAtMost result buf.new };

    /// Reads what has come, perhaps nothing, and does not wait.
    fn read_at_once(&mut self, buf: &mut [u8]) -> io::Result<usize>
        ensures { ReadsAtMost result buf.new };

    /// Whether something has come, or the connection has ended. It does not wait.
    fn has_come(&self) -> bool;
}

impl Incoming for TcpStream {
    fn read(&mut self, buf: &mut [u8]) -> io::Result<usize> {
        Read::read(self, buf)
    }

    fn read_at_once(&mut self, buf: &mut [u8]) -> io::Result<usize> {
        if self.set_nonblocking(true).is_err() {
            return Ok(0);
        }
        let came = Read::read(self, buf);
        let _ = self.set_nonblocking(false);
        match came {
            Err(fault) if is_timeout(&fault) => Ok(0),
            came => came,
        }
    }

    fn has_come(&self) -> bool {
        if self.set_nonblocking(true).is_err() {
            return false;
        }
        let come = self.peek(&mut [0]);
        let _ = self.set_nonblocking(false);
        match come {
            Ok(_) => true,
            Err(fault) => fault.kind() != ErrorKind::WouldBlock,
        }
    }
}
