ghost use Rattle.std.specs.Prelude.{OnOk};
ghost use Rattle.std.specs.Io.KnownBytes.{Appends};

use crate::standing::Standing;
use std::alloc::Global;
use std::io::{self, Write};
use std::net::TcpStream;
use std::sync::Arc;
use std::time::Duration;

/// The ends of one client's connection: what is read from it, and what is written to it.
#[derive(Drop)]
pub struct Connection<R, W> {
    pub(crate) reader: R,
    pub(crate) writer: W,
    // The connection once more, for a gate that looks at it.
    pub(crate) watched: Option<R>,
    // What a gate hears of its session, and a reader sees, if they do.
    pub(crate) heard: Option<Arc<Standing, Global>>,
    pub(crate) seen: Option<Arc<Standing, Global>>,
}

/// What a client's connection is to have.
#[derive(Clone, Copy)]
pub struct ConnectionNeeds<'a> {
    // What the client is sent first.
    pub(crate) greeting: &'a [u8],
    // How long a read or a write may wait at once, if not for as long as it takes.
    pub(crate) look: Option<Duration>,
    // Whether the server may be ended, so that nobody is waited for longer than 20 ms at once.
    pub(crate) returns: bool,
    pub(crate) watched: bool,
    pub(crate) heard: bool,
}

impl<'a> ConnectionNeeds<'a> {
    // The connection of this client. Its replies are sent at once, and not held back until more can go with them; a
    // stream for which the system can't set this is served all the same. How long its reads wait is always set: a
    // stream that waited for its accept has what an earlier server told the listener. A client that can't be greeted is
    // served all the same: its session notices.
    pub(crate) fn connect(
        &self,
        alloc: Global,
        stream: TcpStream,
    ) -> io::Result<Connection<TcpStream, TcpStream>> {
        let _ = stream.set_nodelay(true);
        stream.set_read_timeout(self.look)?;
        if self.look.is_some() {
            stream.set_write_timeout(self.look)?;
        }
        let mut writer = stream.try_clone()?;
        let watched = if self.watched {
            Some(stream.try_clone()?)
        } else {
            None
        };
        let (heard, seen) = self.standings(alloc)?;
        let _ = greet(&mut writer, self.greeting);
        Ok(Connection {
            reader: stream,
            writer,
            watched,
            heard,
            seen,
        })
    }

    fn standings(
        &self,
        alloc: Global,
    ) -> io::Result<(Option<Arc<Standing, Global>>, Option<Arc<Standing, Global>>)> {
        if !self.heard {
            return Ok((None, None));
        }
        let standing = Arc::new(alloc, Standing::new())?;
        let other = Arc::try_clone(&standing)?;
        Ok((Some(standing), Some(other)))
    }
}

// Sends the greeting.
fn greet<W: Write>(writer: &mut W, greeting: &[u8]) -> io::Result<()>
    ensures { OnOk result (Appends (W.contents writer.old) (W.contents writer.new) greeting.now) }
{
    writer.write_all(greeting)
}
