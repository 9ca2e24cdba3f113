ghost use Rattle.std.specs.Prelude.{ℕ, Bool, IfOk, IfSome, OnErr};
ghost use Rattle.rb_serving.specs.declared.connection.Connection.{Connection};
ghost use Rattle.rb_serving.specs.declared.connection.ConnectionNeeds.{ConnectionNeeds};

use crate::connection::{Connection, ConnectionNeeds};
use crate::incoming::Incoming;
use crate::patience::is_timeout;
use std::alloc::Global;
use std::fmt::{self, Debug, Formatter};
use std::io::{self, Write};
use std::net::{Shutdown, TcpListener, TcpStream};
use std::os::fd::OwnedFd;
use std::sync::atomic::{AtomicU64, Ordering};
use std::time::Duration;

/// Where a door's clients come from.
///
/// `counts` tells how often a client was asked for, `brings` of the connection of one that came and what it was to
/// have, `fails` that one could not be had, and `closes` that a writer was closed, and whether its client was told so.
/// Code over any listener learns them from these methods alone: so it can neither put the ends of two connections
/// together, nor say before it failed that somebody could not be had, nor that a connection was closed that is open. Of
/// what a writer becomes by a write of its own it learns nothing, so it hands on each as it was.
pub trait Listener {
    /// What a client's requests are read from.
    type Reader: Incoming + Drop;

    /// What a client's replies are written to.
    type Writer: Write + Drop;

    ghost counts: { Self → ℕ → Type 0 };

    ghost brings: { Self → ConnectionNeeds → Connection Self.Reader Self.Writer → Type 0 };

    ghost fails: { Self → Type 0 };

    ghost closes: { Self → Self.Writer → Bool → Type 0 };

    /// How often a client was asked for before.
    fn ask(&self) -> u64
        ensures { counts self.now result };

    /// Waits for a client, has its connection made ready, and greets it; `None` if nobody came for as long as may be
    /// waited.
    fn bring(
        &self,
        alloc: Global,
        needs: ConnectionNeeds<'_>,
    ) -> io::Result<Option<Connection<Self::Reader, Self::Writer>>>
        ensures brings { IfOk result (λ came. IfSome came (brings self.now needs.entry)) }
        ensures fails { OnErr result (fails self.now) };

    /// Closes a writer. The client may first be told that it gets nothing more, so that it reads an end behind all
    /// replies even if it has sent more than was read.
    fn close(&self, writer: Self::Writer, tells_end: bool)
        ensures { closes self.now writer tells_end };
}

/// A TCP listener that counts how often a client was asked for.
#[derive(Drop)]
pub struct CountedListener {
    listener: TcpListener,
    // It may pass the sessions of a door, once for each worker.
    asked: AtomicU64,
}

impl CountedListener {
    /// A listener of which no client was asked yet. Its accepts wait for no longer than this, or for as long as it
    /// takes.
    pub(crate) fn new(
        listener: TcpListener,
        most: Option<Duration>,
    ) -> io::Result<CountedListener> {
        if most.is_some() {
            limit_accepts(&listener, most)?;
        }
        Ok(CountedListener {
            listener,
            asked: AtomicU64::new(0),
        })
    }
}

/// Lets no accept of this listener wait for longer than this, in whichever process, or each for as long as it takes.
pub fn limit_accepts(listener: &TcpListener, most: Option<Duration>) -> io::Result<()> {
    TcpStream::from(OwnedFd::from(listener.try_clone()?)).set_read_timeout(most)
}

impl Listener for CountedListener {
    type Reader = TcpStream;

    type Writer = TcpStream;

    ghost counts = { λ listener asked. Unit {0} };

    ghost brings = { λ listener needs connection. Unit {0} };

    ghost fails = { λ listener. Unit {0} };

    ghost closes = { λ listener writer tells_end. Unit {0} };

    fn ask(&self) -> u64 {
        self.asked.fetch_add(1, Ordering::SeqCst)
    }

    fn bring(
        &self,
        alloc: Global,
        needs: ConnectionNeeds<'_>,
    ) -> io::Result<Option<Connection<TcpStream, TcpStream>>> {
        match self.listener.accept() {
            Ok((stream, _)) => Ok(Some(needs.connect(alloc, stream)?)),
            Err(fault) if needs.returns && is_timeout(&fault) => Ok(None),
            Err(fault) => Err(fault),
        }
    }

    fn close(&self, writer: TcpStream, tells_end: bool) {
        if tells_end {
            let _ = writer.shutdown(Shutdown::Write);
        }
    }
}

impl Debug for CountedListener {
    fn fmt<W: fmt::Write>(&self, f: &mut Formatter<W>) -> fmt::Result {
        f.debug_struct("CountedListener").finish_non_exhaustive()
    }
}
