ghost use Rattle.std.specs.Prelude.{◌≡◌, ◌<◌, OnErr, OnOk, IfErr, IfOk};
ghost use Rattle.rb_ending.specs.declared.broker_fault.BrokerFault.TheVariants.{Listen};
ghost use Rattle.rb_serving.specs.TcpReasons.{IsNoMore, ShowsDrain};
ghost use Rattle.rb_serving.specs.TcpSteps.{AreNeeds, IsBrought, IsPatience, IsClient, IsAsked};

use crate::connection::{Connection, ConnectionNeeds};
use crate::door::DoorFault;
use crate::ending::{InputRead, shown_drain};
use crate::listener::{CountedListener, Listener};
use crate::patience::{Patience, longest_look};
use crate::tcp_gate::TcpGate;
use crate::tcp_manners::TcpManners;
use crate::tcp_reader::TcpReader;
use crate::tcp_writer::TcpWriter;
use crate::visit::Visit;
use rb_blocking::MachineClock;
use rb_ending::BrokerFault;
use std::alloc::Global;
use std::fmt::{self, Debug, Formatter};
use std::net::TcpListener;
use std::sync::{OnceToken, Wait};
use std::time::Duration;
use std::{io, thread, time};

// How long a worker waits after a client that it could not let in, in milliseconds.
const PAUSE: u64 = 10;

/// A door that lets in the clients of a listener, up to a number of sessions.
///
/// A client that can't be let in counts as one of them. As the system may have no descriptor left for a while, the
/// worker first waits 10 ms, so that the sessions are not used up at once.
#[derive(Drop)]
pub struct TcpDoor<'a, L> {
    alloc: Global,
    pub(crate) listener: L,
    sessions: u64,
    // After how many turns a wait of a client ends.
    turns: u64,
    manners: TcpManners<'a>,
    // What the silence of a client is measured by.
    clock: &'a MachineClock<'a, HostRuntime>,
}

/// A visit of a client over TCP.
pub type TcpVisit<'a, R, W> = Visit<TcpReader<'a, R>, TcpWriter<'a, W>, TcpGate<'a, R>>;

/// Why a TCP door has no more visits.
#[derive(Debug, Drop)]
pub enum NoMore<'a> {
    /// Its sessions are used up.
    UsedUp,
    /// The server is to drain, which this shows.
    Drains(OnceToken<'a, InputRead>),
}

impl<'a> TcpDoor<'a, CountedListener> {
    /// A door for this many sessions, each of whose waits ends after this many turns. The fault is `Listen`, if the
    /// listener's accepts can't be told to wait for 20 ms at most, which they are if something may end the server.
    pub fn new(
        alloc: Global,
        listener: TcpListener,
        sessions: u64,
        turns: u64,
        manners: TcpManners<'a>,
        clock: &'a MachineClock<'a, HostRuntime>,
    ) -> Result<TcpDoor<'a, CountedListener>, BrokerFault>
        ensures sessions { IfOk result (λ door. door.sessions ≡ sessions) }
        ensures turns { IfOk result (λ door. door.turns ≡ turns) }
        ensures manners { IfOk result (λ door. door.manners ≡ manners.entry) }
        ensures fault { IfErr result (λ fault. fault ≡ Listen) }
    {
        let most = manners.ending.map(|_| longest_look());
        let Ok(listener) = CountedListener::new(listener, most) else {
            return Err(BrokerFault::Listen);
        };
        Ok(TcpDoor {
            alloc,
            listener,
            sessions,
            turns,
            manners,
            clock,
        })
    }
}

impl<'a, L: Listener> TcpDoor<'a, L> {
    // Waits for a client and lets it in, until the server is to drain.
    fn accept<R: Wait>(
        &self,
        rt: &R,
    ) -> Result<io::Result<TcpVisit<'a, L::Reader, L::Writer>>, OnceToken<'a, InputRead>>
        ensures drains { IfErr result (λ token. ShowsDrain self.now.manners.ending token.of) }
        ensures let_in { IfOk result (λ visit. IfOk visit (IsClient L.Listener self.now)) }
        ensures turned_away { IfOk result (λ visit. OnErr visit (L.fails self.now.listener)) }
    {
        let needs = self.needs();
        for _ in rt.forever() {
            if let Some(token) = shown_drain(self.manners.ending) {
                return Err(token);
            }
            match self.listener.bring(self.alloc, needs) {
                Ok(Some(connection)) => return Ok(Ok(self.let_in(connection))),
                Ok(None) => {}
                Err(fault) => return Ok(Err(fault)),
            }
        }
        unreachable!()
    }

    // What the connection of a client is to have.
    fn needs(&self) -> ConnectionNeeds<'a>
        ensures { AreNeeds L.Listener self.now result }
    {
        let TcpManners {
            greeting,
            attentive,
            ending,
            ..
        } = self.manners;
        ConnectionNeeds {
            greeting,
            look: self.patience().map(|patience| patience.look()),
            returns: ending.is_some(),
            watched: attentive,
            heard: attentive || ending.is_some(),
        }
    }

    // Lets in a client whose connection has what it was to have.
    fn let_in(
        &self,
        connection: Connection<L::Reader, L::Writer>,
    ) -> TcpVisit<'a, L::Reader, L::Writer>
        requires brought { IsBrought L.Listener self.now connection }
        ensures { IsClient L.Listener self.now result }
    {
        let patience = self.patience();
        Visit {
            reader: TcpReader {
                stream: connection.reader,
                patience,
                standing: connection.seen,
                has_left: false,
            },
            writer: TcpWriter {
                stream: connection.writer,
                patience,
            },
            gate: TcpGate {
                limit: self.turns,
                ending: self.manners.ending,
                watched: connection.watched,
                standing: connection.heard,
            },
        }
    }

    // How long its sessions wait for their clients, if not for as long as it takes.
    fn patience(&self) -> Option<Patience<'a>>
        ensures { IsPatience L.Listener self.now result }
    {
        let TcpManners { silent, ending, .. } = self.manners;
        if silent.is_none() && ending.is_none() {
            return None;
        }
        Some(Patience {
            clock: self.clock,
            silent,
            ending,
        })
    }

    // The answer to a worker before whom a client was asked for this often.
    pub(crate) fn answer<R: Wait + time::Clock>(
        &self,
        rt: &R,
        asked: u64,
    ) -> Result<Result<TcpVisit<'a, L::Reader, L::Writer>, DoorFault>, NoMore<'a>>
        ensures no_more { IfErr result (IsNoMore self.now.sessions self.now.manners.ending asked) }
        ensures left { OnOk result (asked < self.now.sessions) }
        ensures let_in { IfOk result (λ visit. IfOk visit (IsClient L.Listener self.now)) }
        ensures turned_away { IfOk result (λ visit. OnErr visit (L.fails self.now.listener)) }
    {
        if asked >= self.sessions {
            return Err(NoMore::UsedUp);
        }
        match self.accept(rt) {
            Ok(Ok(visit)) => Ok(Ok(visit)),
            Ok(Err(_)) => {
                thread::sleep(rt, Duration::from_millis(PAUSE));
                Ok(Err(DoorFault))
            }
            Err(token) => Err(NoMore::Drains(token)),
        }
    }
}

impl<'a, L> Debug for TcpDoor<'a, L> {
    fn fmt<W: fmt::Write>(&self, f: &mut Formatter<W>) -> fmt::Result {
        f.debug_struct("TcpDoor")
            .field("sessions", &self.sessions)
            .field("turns", &self.turns)
            .finish_non_exhaustive()
    }
}
