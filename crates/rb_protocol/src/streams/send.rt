ghost use Rattle.rb_protocol.specs.Sending.{Accepts, Sends};
ghost use Rattle.rb_protocol.specs.Writes.{TellsOf, WritesOn};

use crate::streams::limited_writer::LimitedWriter;
use crate::streams::recipient::Recipient;
use crate::streams::writing::{WriteFault, write_out};

/// Writes a line: by one write if that takes the whole line, and otherwise by further writes of the
/// rest. It repeats a write that is interrupted. With each the writer is shown `shown`.
///
/// `Err` means that a write failed or took no byte. The writer has then got the first bytes of the
/// line, perhaps none.
pub fn send_line<V, W: Recipient<V>>(
    writer: &mut LimitedWriter<'_, W>,
    shown: &V,
    line: &[u8],
) -> Result<(), WriteFault>
    requires { Accepts W.contents W.demands writer.old.inner.now shown.now line.now }
    ensures sent { Sends result (W.contents writer.old.inner.now) line.now (W.contents writer.new.inner.now) }
    ensures told { TellsOf result writer.old.status.now.state writer.new.status.now }
    ensures on { WritesOn writer.old writer.new }
{
    if write_out(writer, shown, line) < line.len() {
        return Err(WriteFault);
    }
    Ok(())
}

/// Writes a line like `send_line`, and flushes. After an `Err` the writer has got the first bytes of
/// the line, perhaps none or all.
pub fn send_at_once<V, W: Recipient<V>>(
    writer: &mut LimitedWriter<'_, W>,
    shown: &V,
    line: &[u8],
) -> Result<(), WriteFault>
    requires { Accepts W.contents W.demands writer.old.inner.now shown.now line.now }
    ensures sent { Sends result (W.contents writer.old.inner.now) line.now (W.contents writer.new.inner.now) }
    ensures told { TellsOf result writer.old.status.now.state writer.new.status.now }
    ensures on { WritesOn writer.old writer.new }
{
    send_line(writer, shown, line)?;
    writer.flush(shown)
}
