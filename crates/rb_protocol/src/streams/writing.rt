ghost use Rattle.std.specs.Prelude.{◌≡◌, ◌≤◌, ◌<◌, take, length};
ghost use Rattle.std.specs.Io.KnownBytes.{Appends};
ghost use Rattle.rb_protocol.specs.Sending.{Accepts};
ghost use Rattle.rb_protocol.specs.Writes.{CannotWrite, FailsNoMore, WritesOn};

use crate::streams::limited_writer::LimitedWriter;
use crate::streams::recipient::Recipient;
use std::io::ErrorKind;

/// A write or a flush failed, or a write took no byte.
#[derive(Clone, Copy, Debug, PartialEq, Eq)]
pub struct WriteFault;

/// Writes bytes: by one write if that takes all of them, and otherwise by further writes of the
/// rest. It repeats a write that is interrupted. With each the writer is shown `shown`.
///
/// Returns how many bytes the writer has got, from the first on: all of them, unless a write failed
/// or took none.
pub fn write_out<V, W: Recipient<V>>(
    writer: &mut LimitedWriter<'_, W>,
    shown: &V,
    bytes: &[u8],
) -> usize
    requires { Accepts W.contents W.demands writer.old.inner.now shown.now bytes.now }
    ensures within { result ≤ length bytes.now }
    ensures taken { Appends (W.contents writer.old.inner.now) (W.contents writer.new.inner.now) (take result bytes.now) }
    ensures reason { result < length bytes.now → CannotWrite writer.new.status.now }
    ensures well { result ≡ length bytes.now → FailsNoMore writer.old.status.now.state writer.new.status.now }
    ensures on { WritesOn writer.old writer.new }
{
    let mut taken = 0;
    while taken < bytes.len() && writer.may_write() {
        match writer.write(shown, &bytes[taken..]) {
            Ok(0) => return taken,
            Ok(count) => taken += count,
            Err(fault) if fault.kind() == ErrorKind::Interrupted => {}
            Err(_) => return taken,
        }
    }
    taken
}
