ghost use Rattle.std.specs.Prelude.{◌≡◌, Some};
ghost use Rattle.std.specs.List.{All};
ghost use Rattle.rb_serving.specs.TcpSteps.{ShowsStep, ShowsStepSomewhere};

use crate::door::{Door, DoorFault};
use crate::listener::Listener;
use crate::tcp_door::{NoMore, TcpDoor, TcpVisit};
use crate::tcp_gate::TcpGate;
use crate::tcp_reader::TcpReader;
use crate::tcp_writer::TcpWriter;
use rb_lock::Pass;
use rb_protocol::{LimitedReader, WriterStatus};
use rb_timer::Timer;
use std::sync::Wait;
use std::time;

/// An entrance of a `TcpDoor`. All of them let in the clients of its one listener, and count the same sessions.
#[derive(Drop)]
pub struct TcpEntrance<'a, L> {
    door: &'a TcpDoor<'a, L>,
    // Why it has no more visits, once it has none.
    no_more: Option<NoMore<'a>>,
}

impl<'a, L> TcpDoor<'a, L> {
    /// An entrance at which nothing happened yet.
    pub fn entrance(&'a self) -> TcpEntrance<'a, L>
        ensures { result.door.now ≡ self.now }
    {
        TcpEntrance {
            door: self,
            no_more: None,
        }
    }
}

impl<'a, L> TcpEntrance<'a, L> {
    // Has no more visits, for this reason.
    fn end(&mut self, why: NoMore<'a>)
        ensures door { self.new.door ≡ self.old.door }
        ensures why { self.new.no_more ≡ Some why.entry }
    {
        self.no_more = Some(why);
    }
}

impl<'a, L: Listener> Door for TcpEntrance<'a, L>
where
    L::Reader: Send,
    L::Writer: Send,
{
    type Reader = TcpReader<'a, L::Reader>;

    type Writer = TcpWriter<'a, L::Writer>;

    type Gate = TcpGate<'a, L::Reader>;

    ghost has_seen = { λ entrance log. All (ShowsStep L.Listener entrance.door.now entrance.no_more) log };

    ghost demands = { λ visit reader status writer before after. Unit {0} };

    ghost is_ready = { λ entrance pass. Unit {0} };

    ghost awaits = { λ entrance visit before. Unit {0} };

    ghost may_split = { λ entrance more least. Unit {0} };

    ghost has_joined = { λ entrance out log. All (ShowsStepSomewhere L.Listener) log };

    fn next<T: Timer, R: Wait + time::Clock>(
        &mut self,
        rt: &R,
        _pass: &Pass<T>,
    ) -> Option<Result<TcpVisit<'a, L::Reader, L::Writer>, DoorFault>> {
        let asked = self.door.listener.ask();
        match self.door.answer(rt, asked) {
            Ok(answer) => Some(answer),
            Err(why) => {
                self.end(why);
                None
            }
        }
    }

    fn leave<T: Timer>(
        &mut self,
        _reader: &LimitedReader<'_, TcpReader<'a, L::Reader>>,
        _status: &WriterStatus<TcpWriter<'a, L::Writer>>,
        writer: TcpWriter<'a, L::Writer>,
        _pass: &Pass<T>,
    ) {
        let TcpWriter { stream, patience } = writer;
        self.door.listener.close(stream, patience.is_some());
    }

    fn split<T: Timer>(&mut self, _pass: &Pass<T>) -> TcpEntrance<'a, L> {
        self.door.entrance()
    }

    fn join(&mut self, _other: TcpEntrance<'a, L>) {}
}
