ghost use Rattle.std.specs.Prelude.{◌≡◌, IfErr};
ghost use Rattle.rb_history.specs.declared.history_fault.HistoryFault.TheVariants.{Write};
ghost use Rattle.rb_ending.specs.Recording.{RecordsTo};

use rb_history::{HistoryFault, HistoryRoom, write_history_in};
use rb_kept::Kept;
use rb_protocol::{LimitedWriter, WriteFault, WriterStatus};
use rb_timer::Timer;
use std::io;

/// Writes the history of the kept queue to a device. It takes no memory: `Write` is the only fault, and says that a write
/// or a flush of the device failed, or that a write took no byte.
///
/// A history that was written whole is legal and has all values in the ranges of texts, so it is read
/// again as exactly this history.
pub fn write_recording<T: Timer, H: io::Write>(
    room: HistoryRoom,
    kept: &Kept<T>,
    device: &mut H,
) -> Result<(), HistoryFault>
    ensures records { RecordsTo H.contents kept.now result device.old device.new }
    ensures fault { IfErr result (λ fault. fault ≡ Write) }
{
    // For the proof: how long the history may get.
    let _ = kept.capacity();
    let written = {
        let mut status = WriterStatus::of(&*device);
        let device = LimitedWriter::new(device, &mut status);
        let (_, written) = write_history_in(room, kept.opening(), kept.history(), device);
        written
    };
    match written {
        Ok(()) => Ok(()),
        Err(WriteFault) => Err(HistoryFault::Write),
    }
}
