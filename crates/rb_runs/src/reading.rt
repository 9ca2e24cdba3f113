ghost use Rattle.std.specs.Prelude.{◌≡◌, ◌<◌, ◌≤◌, Err, length};
ghost use Rattle.rb_runs.specs.FileText.{ReadsAll, IsReadReason};

use rb_ending::BrokerFault;
use rb_protocol::{BUFFER_BYTES, LimitedReader};
use std::alloc::Global;
use std::io::{ErrorKind, Read};

/// Everything that a reader gives, up to its end.
///
/// The faults are `ReadHistory` if a read failed, `ReadTurns` if there was no end within 10,000,000
/// reads, and `Memory`. An interrupted read is made again. It takes memory for what is read, and
/// for one piece of 64 KiB.
pub fn read_all<R: Read>(alloc: Global, reader: &mut R) -> Result<Vec<u8>, BrokerFault>
    ensures { ReadsAll (R.remaining reader.old) result (R.remaining reader.new) }
{
    read_all_limited(alloc, &mut LimitedReader::new(reader))
}

/// Everything that a reader with a limited number of reads gives, like `read_all`.
///
/// Each read takes one of those that the reader has left, and `ReadTurns` comes only once none is left.
/// So what is left afterwards tells how often it read. The reader's state tells the same as the result: it
/// is at its end if there is a text, and has failed exactly if the fault is `ReadHistory`.
pub fn read_all_limited<R: Read>(
    alloc: Global,
    reader: &mut LimitedReader<'_, R>,
) -> Result<Vec<u8>, BrokerFault>
    ensures reads { ReadsAll (R.remaining reader.old.inner.now) result (R.remaining reader.new.inner.now) }
    ensures used_up { result ≡ Err BrokerFault.ReadTurns → reader.new.left ≡ 0 }
    ensures reason { IsReadReason reader.old.state reader.new.state result }
    ensures counted { reader.new.left ≤ reader.old.left }
    ensures same_reference { reader.new.inner.ghost_name ≡ reader.old.inner.ghost_name }
{
    let mut piece = vec![in alloc; 0; BUFFER_BYTES]?;
    read_pieces(alloc, reader, &mut piece)
}

// Reads piece after piece, until there is no more.
fn read_pieces<R: Read>(
    alloc: Global,
    reader: &mut LimitedReader<'_, R>,
    piece: &mut [u8],
) -> Result<Vec<u8>, BrokerFault>
    requires { 0 < length piece.old }
    ensures reads { ReadsAll (R.remaining reader.old.inner.now) result (R.remaining reader.new.inner.now) }
    ensures used_up { result ≡ Err BrokerFault.ReadTurns → reader.new.left ≡ 0 }
    ensures reason { IsReadReason reader.old.state reader.new.state result }
    ensures counted { reader.new.left ≤ reader.old.left }
    ensures same_reference { reader.new.inner.ghost_name ≡ reader.old.inner.ghost_name }
{
    let mut text = Vec::new(alloc);
    while reader.may_read() {
        match reader.read(piece) {
            Ok(0) => return Ok(text),
            Ok(count) => text.extend_from_slice(&piece[..count])?,
            Err(fault) if fault.kind() == ErrorKind::Interrupted => {}
            Err(_) => return Err(BrokerFault::ReadHistory),
        }
    }
    Err(BrokerFault::ReadTurns)
}
