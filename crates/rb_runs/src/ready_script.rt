ghost use Rattle.std.specs.Prelude.{◌≡◌, ◌≢◌, ◌≤◌, [], Result, Err, Some, IfOk};
ghost use Rattle.std.specs.Io.KnownBytes.{IsAtEnd};
ghost use Rattle.rb_ledger.specs.Totals.{nothing};
ghost use Rattle.rb_session.specs.Exchange.{Exchanges};
ghost use Rattle.rb_session.specs.Reasons.{IsReason, IsWriteReason};
ghost use Rattle.rb_protocol.specs.Writes.{WritesOn};
ghost use Rattle.rb_ending.specs.Recording.{lent, given_back};
ghost use Rattle.rb_runs.specs.RecordedScript.{RanRecorded};
ghost use Rattle.rb_runs.specs.Script.{IsFresh, LeadsTo, IsRecording, RanScript, script_terms, device_of};

use crate::recording::Recording;
use crate::script_report::ScriptReport;
use rb_ending::{Recorder, write_recording};
use rb_history::HistoryRoom;
use rb_kept::Kept;
use rb_ledger::Tally;
use rb_options::ScriptOptions;
use rb_protocol::{LimitedReader, LimitedWriter};
use rb_queue::Opening;
use rb_retry::{KeptDesk, Policy};
use rb_session::{Delivery, Ended, SessionFault, SessionRoom, run_in};
use rb_timer::Timer;
use std::alloc::{AllocError, Global};
use std::io::{Read, Write};

/// A script that can be run: the queue that it begins with, and all memory that its run takes, except for
/// what is offered and drained.
///
/// So whoever has one can empty the file that the history goes to: the run will end with a history.
#[derive(Drop)]
pub struct ReadyScript<T: Timer> {
    kept: Kept<T>,
    tally: Tally,
    policy: Policy,
    session: SessionRoom,
    text: HistoryRoom,
    ghost unused: { kept.history ≡ [] },
    ghost uncounted: { tally ≡ nothing },
}

impl<T: Timer> ReadyScript<T> {
    /// Takes the memory for a script over the queue of this opening, whose replies are written when
    /// `delivery` says so.
    pub fn new(
        alloc: Global,
        options: &ScriptOptions,
        delivery: Delivery,
        opening: Opening,
    ) -> Result<ReadyScript<T>, AllocError>
        ensures queue { IfOk result (λ ready. IsFresh ready.kept opening options.now.calls) }
        ensures policy { IfOk result (λ ready. ready.policy ≡ options.now.policy) }
        ensures delivery { IfOk result (λ ready. ready.session.delivery ≡ delivery) }
    {
        let text = HistoryRoom::new(alloc)?;
        let session = SessionRoom::new(alloc, delivery)?;
        // The number of calls is in range, so only memory can be missing.
        let Ok((kept, tally)) = Kept::<T>::new_from(alloc, options.calls, opening) else {
            return Err(AllocError);
        };
        Ok(ReadyScript {
            kept,
            tally,
            policy: options.policy,
            session,
            text,
        })
    }

    /// Runs one session over the queue, from a reader to a writer, and then writes the run's history, if there
    /// is a device for it.
    ///
    /// The history is also written after a session that ended with a fault. `EndOfInput` means that the last
    /// read met the end of the input, `Read` that it failed, and `ReadTurns` that there is none left; a session
    /// that ends otherwise has had no read that failed. `Write` means that a write or a flush failed or a write
    /// took no byte, and in a session that ends otherwise none did. None ends for want of memory.
    pub fn run<'a, R: Read, W: Write, H: Write>(
        self,
        reader: &mut LimitedReader<'_, R>,
        writer: LimitedWriter<'a, W>,
        history: Option<&mut H>,
    ) -> (LimitedWriter<'a, W>, ScriptReport)
        ensures ran { Exchanges
            (R.remaining reader.old.inner.now) (R.remaining reader.new.inner.now)
            (W.contents writer.entry.inner.now) (W.contents result.0.inner.now) (λ came sent.
            RanScript (script_terms W.contents (W.contents writer.entry.inner.now)
            self.policy self.kept.capacity self.session.delivery self.kept.opening)
            (IsAtEnd (R.remaining reader.new.inner.now)) came sent result.1
            (device_of H.contents (lent history.entry) (given_back history.exit))) }
        ensures begun { result.1.session ≢ Err SessionFault.Memory }
        ensures reason { IsReason reader.old.state reader.new result.1.session }
        ensures write_reason { IsWriteReason writer.entry.status.now.state result.0.status.now result.1.session }
        ensures on { WritesOn writer.entry result.0 }
        ensures counted { reader.new.left ≤ reader.old.left }
        ensures same_reference { reader.new.inner.ghost_name ≡ reader.old.inner.ghost_name }
    {
        let (writer, session, kept, text) = self.run_session(reader, writer);
        match history {
            Some(device) => {
                let recording = recorded(text, &kept, device);
                (writer, ScriptReport { session, recording })
            }
            None => {
                let recording = Recording::NotAsked;
                (writer, ScriptReport { session, recording })
            }
        }
    }

    /// Runs one session like `run`, and then writes the run's history to the recorder, if that records.
    pub(crate) fn run_recorded<'a, R: Read, W: Write, B: Recorder + Write>(
        self,
        reader: &mut LimitedReader<'_, R>,
        writer: LimitedWriter<'a, W>,
        recorder: &mut B,
    ) -> (LimitedWriter<'a, W>, ScriptReport)
        ensures ran { Exchanges
            (R.remaining reader.old.inner.now) (R.remaining reader.new.inner.now)
            (W.contents writer.entry.inner.now) (W.contents result.0.inner.now) (λ came sent.
            RanRecorded B.keeps B.contents (script_terms W.contents (W.contents writer.entry.inner.now)
            self.policy self.kept.capacity self.session.delivery self.kept.opening)
            (IsAtEnd (R.remaining reader.new.inner.now)) came sent result.1 recorder.old recorder.new) }
        ensures begun { result.1.session ≢ Err SessionFault.Memory }
        ensures reason { IsReason reader.old.state reader.new result.1.session }
        ensures write_reason { IsWriteReason writer.entry.status.now.state result.0.status.now result.1.session }
        ensures on { WritesOn writer.entry result.0 }
        ensures same_reference { reader.new.inner.ghost_name ≡ reader.old.inner.ghost_name }
    {
        let (writer, session, kept, room) = self.run_session(reader, writer);
        if recorder.records() {
            let recording = recorded(room, &kept, recorder);
            (writer, ScriptReport { session, recording })
        } else {
            let recording = Recording::NotAsked;
            (writer, ScriptReport { session, recording })
        }
    }

    // Runs the session. The queue that it led to comes back, with the room for its history's text.
    fn run_session<'a, R: Read, W: Write>(
        self,
        reader: &mut LimitedReader<'_, R>,
        writer: LimitedWriter<'a, W>,
    ) -> (
        LimitedWriter<'a, W>,
        Result<Ended, SessionFault>,
        Kept<T>,
        HistoryRoom,
    )
        ensures ran { Exchanges
            (R.remaining reader.old.inner.now) (R.remaining reader.new.inner.now)
            (W.contents writer.entry.inner.now) (W.contents result.0.inner.now) (λ came sent.
            LeadsTo (script_terms W.contents (W.contents writer.entry.inner.now)
            self.policy self.kept.capacity self.session.delivery self.kept.opening)
            (IsAtEnd (R.remaining reader.new.inner.now)) (record { came = came; sent = sent; ended = result.1 }) result.2) }
        ensures begun { result.1 ≢ Err SessionFault.Memory }
        ensures reason { IsReason reader.old.state reader.new result.1 }
        ensures write_reason { IsWriteReason writer.entry.status.now.state result.0.status.now result.1 }
        ensures on { WritesOn writer.entry result.0 }
        ensures counted { reader.new.left ≤ reader.old.left }
        ensures same_reference { reader.new.inner.ghost_name ≡ reader.old.inner.ghost_name }
    {
        let ReadyScript {
            mut kept,
            mut tally,
            policy,
            mut session,
            text,
        } = self;
        let mut desk = KeptDesk::new(&mut kept, &mut tally);
        let (writer, session) = run_in(&mut session, reader, writer, &mut desk, &policy);
        (writer, session, kept, text)
    }
}

// Writes the history to the device.
fn recorded<T: Timer, H: Write>(text: HistoryRoom, kept: &Kept<T>, device: &mut H) -> Recording
    ensures { (session : Result Ended SessionFault) → (session ≢ Err SessionFault.Memory)
        → IsRecording H.contents kept.now session result (Some device.old) (Some device.new) }
{
    match write_recording(text, kept, device) {
        Ok(()) => Recording::Written,
        Err(fault) => Recording::Failed(fault),
    }
}
