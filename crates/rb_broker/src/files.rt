ghost use Rattle.std.specs.Prelude.{◌≡◌, ◌↔◌, Some, IfErr, IsTrue};
ghost use Rattle.std.specs.IoError.{raw_os_error};
ghost use Rattle.rb_runs.specs.FileText.{IsReadFault};
ghost use Rattle.rb_ending.specs.declared.broker_fault.BrokerFault.TheVariants.{Write};
ghost use Rattle.rb_broker.specs.declared.files.TheConstants.{NOT_OPEN};

use rb_ending::BrokerFault;
use rb_queue::Opening;
use rb_runs::{opening_in, read_all};
use std::fs;
use std::io::{self, Write};

// The system's error number for a call on a descriptor that is not open.
const NOT_OPEN: i32 = 9;

/// All bytes of a file. The fault is `ReadHistory` if it can't be opened or read, `ReadTurns` if it does
/// not end, or `Memory`.
pub fn text_of(rt: &HostRuntime, path: &str) -> Result<Vec<u8>, BrokerFault>
    ensures { IfErr result IsReadFault }
{
    match fs::open(rt, path) {
        Ok(mut file) => read_all(rt.alloc(), &mut file),
        Err(_) => Err(BrokerFault::ReadHistory),
    }
}

/// The opening of a run: the one that the history in a file leads to, or if none is named the empty one. The faults are
/// those of `text_of`, and `BadOpening` if no run can continue that text.
pub fn opening_behind(rt: &HostRuntime, from: Option<&str>) -> Result<Opening, BrokerFault> {
    match from {
        Some(path) => opening_in(rt.alloc(), &text_of(rt, path)?),
        None => Ok(Opening::empty(rt.alloc())),
    }
}

/// Fails with `Write` if a file for the history is named and standard output is closed: the system would
/// give that file the descriptor of standard output, and the replies would go to it.
pub fn check_output(rt: &HostRuntime, history: Option<&str>) -> Result<(), BrokerFault>
    ensures { IfErr result (λ fault. fault ≡ Write) }
{
    if history.is_none() {
        return Ok(());
    }
    match rt.stdout().write(&[]) {
        Err(fault) if is_closed(&fault) => Err(BrokerFault::Write),
        _ => Ok(()),
    }
}

/// Whether a call failed because its descriptor is not open. A full device is another reason.
pub fn is_closed(fault: &io::Error) -> bool
    ensures { IsTrue result ↔ (raw_os_error fault.now ≡ Some NOT_OPEN) }
{
    fault.raw_os_error() == Some(NOT_OPEN)
}
