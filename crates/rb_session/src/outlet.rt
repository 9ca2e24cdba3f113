ghost use Rattle.std.specs.Prelude.{◌≡◌, ◌<◌, ◌≤◌, ◌+◌, [], OnOk, OnErr, drop, vec_len, vec_capacity};
ghost use Rattle.std.specs.Io.KnownBytes.{Keeps};
ghost use Rattle.rb_protocol.specs.ReplyText.{text_of};
ghost use Rattle.rb_protocol.specs.Sending.{Sends};
ghost use Rattle.rb_session.specs.Rules.{most_held_back, IsGathered, WritesBeforeWaits};

use crate::delivery::Delivery;
use crate::hands_on::HandsOn;
use rb_protocol::{
    LimitedWriter, LineReply, Recipient, ReplyLine, WriteFault, send_line, write_out,
};

/// Where the replies of a session go: to a writer, each when its request is served or, if they are
/// gathered, many in one write.
///
/// What was sent is what the writer has got, followed by what is held back. The session has that
/// handed on before each read and at its end, so no client waits for a reply that is held back.
#[derive(Drop)]
pub(crate) struct Outlet<'a, W> {
    writer: LimitedWriter<'a, W>,
    gathered: Vec<u8>,
    delivery: Delivery,
    ghost few: { vec_len gathered ≤ most_held_back delivery },
}

impl<'a, W> Outlet<'a, W> {
    ghost use Rattle.rb_session.specs.Outlet.{sent_to, Becomes, MayHandOn, MaySend, Passes, WriterTells};

    /// An outlet to this writer, which gathers in the room of an empty vector. It takes no more memory.
    pub(crate) fn new(
        writer: LimitedWriter<'a, W>,
        room: Vec<u8>,
        delivery: Delivery,
    ) -> Outlet<'a, W>
        requires { room.items ≡ [] }
        ensures same { result.writer ≡ writer.entry }
        ensures empty { result.gathered.items ≡ [] }
        ensures delivery { result.delivery ≡ delivery }
    {
        Outlet {
            writer,
            gathered: room,
            delivery,
        }
    }

    /// The writer, and the room for what is gathered. What is still held back is dropped.
    pub(crate) fn into_parts(self) -> (LimitedWriter<'a, W>, Vec<u8>)
        ensures writer { result.0 ≡ self.entry.writer }
        ensures empty { result.1.items ≡ [] }
    {
        let Outlet {
            writer,
            mut gathered,
            ..
        } = self;
        gathered.clear();
        (writer, gathered)
    }

    /// Sends a reply's line in one piece: gathers it or, if there is no room for it behind what is handed on
    /// then, writes it.
    ///
    /// After an `Err` the first bytes of the line were sent, perhaps none. Here and below, the writer is shown `shown` with
    /// what it is handed.
    pub(crate) fn send<V>(&mut self, shown: &V, reply: &LineReply) -> Result<(), WriteFault>
    where
        W: Recipient<V>,
        requires { MaySend W.Recipient self.old shown.now (text_of reply.now) }
        ensures passes { OnOk result (Passes W.Recipient self.old (text_of reply.now) self.new) }
        ensures sent { Sends result (sent_to W.Recipient self.old) (text_of reply.now) (sent_to W.Recipient self.new) }
        ensures told { WriterTells W.Recipient result self.old self.new }
        ensures becomes { Becomes W.Recipient self.old self.new }
    {
        let mut text = ReplyLine::new();
        reply.write_to(&mut text);
        let line = text.as_bytes();
        if line.len() > self.room() {
            self.hand_on(shown)?;
            if line.len() > self.room() {
                return send_line(&mut self.writer, shown, line);
            }
        }
        self.gathered.extend_from_slice(line).unwrap();
        Ok(())
    }

    /// The replies to a request have been sent: what is not gathered is flushed.
    pub(crate) fn after_replies<V>(&mut self, shown: &V) -> Result<(), WriteFault>
    where
        W: Recipient<V>,
        ensures kept { Keeps (sent_to W.Recipient self.old) (sent_to W.Recipient self.new) }
        ensures passes { OnOk result (Passes W.Recipient self.old [] self.new) }
        ensures told { WriterTells W.Recipient result self.old self.new }
        ensures becomes { Becomes W.Recipient self.old self.new }
    {
        match self.delivery {
            Delivery::AtOnce => self.writer.flush(shown),
            Delivery::Gathered(_) => Ok(()),
        }
    }

    /// A request has to wait: hands on what is held back, unless that is for reads alone.
    pub(crate) fn before_wait<V>(&mut self, shown: &V) -> Result<(), WriteFault>
    where
        W: Recipient<V>,
        requires { MayHandOn W.Recipient self.old shown.now }
        ensures kept { Keeps (sent_to W.Recipient self.old) (sent_to W.Recipient self.new) }
        ensures passes { OnOk result (Passes W.Recipient self.old [] self.new) }
        ensures told { WriterTells W.Recipient result self.old self.new }
        ensures clear { OnOk result (WritesBeforeWaits self.old.delivery → self.new.gathered.items ≡ []) }
        ensures late { OnErr result (IsGathered self.old.delivery) }
        ensures becomes { Becomes W.Recipient self.old self.new }
    {
        match self.delivery {
            Delivery::Gathered(HandsOn::BeforeReads) => Ok(()),
            _ => self.hand_on(shown),
        }
    }

    /// Hands on what is held back. What the writer did not take before a failing write stays there.
    pub(crate) fn hand_on<V>(&mut self, shown: &V) -> Result<(), WriteFault>
    where
        W: Recipient<V>,
        requires { MayHandOn W.Recipient self.old shown.now }
        ensures kept { Keeps (sent_to W.Recipient self.old) (sent_to W.Recipient self.new) }
        ensures passes { OnOk result (Passes W.Recipient self.old [] self.new) }
        ensures told { WriterTells W.Recipient result self.old self.new }
        ensures clear { OnOk result (self.new.gathered.items ≡ []) }
        ensures late { OnErr result (0 < vec_len self.old.gathered) }
        ensures becomes { Becomes W.Recipient self.old self.new }
    {
        if self.gathered.is_empty() {
            return Ok(());
        }
        let taken = write_out(&mut self.writer, shown, &self.gathered);
        remove_first(&mut self.gathered, taken);
        if !self.gathered.is_empty() {
            return Err(WriteFault);
        }
        self.writer.flush(shown)
    }

    // How many bytes can still be gathered.
    fn room(&self) -> usize
        ensures taken { vec_len self.now.gathered + result ≤ vec_capacity self.now.gathered }
        ensures few { vec_len self.now.gathered + result ≤ most_held_back self.now.delivery }
    {
        self.gathered.capacity().min(self.delivery.most_held_back()) - self.gathered.len()
    }
}

// Drops the first bytes.
fn remove_first(bytes: &mut Vec<u8>, count: usize)
    requires { count ≤ vec_len bytes.old }
    ensures { bytes.new.items ≡ drop count bytes.old.items }
{
    let len = bytes.len();
    bytes.copy_within(count..len, 0);
    bytes.truncate(len - count);
}
