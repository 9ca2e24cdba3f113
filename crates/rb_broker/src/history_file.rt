ghost use Rattle.std.specs.Prelude.{◌≡◌, IfErr, IsTrue, false, is_some};
ghost use Rattle.std.specs.Fs.{asks_write, asks_create, asks_truncate};
ghost use Rattle.rb_ending.specs.declared.broker_fault.BrokerFault.TheVariants.{WriteHistory};

use rb_ending::{BrokerFault, Recorder};
use rb_protocol::WriteFault;
use std::fs::{File, OpenOptions};
use std::io::{self, ErrorKind, Write};

/// The file that the history of a run is written to, if one is named.
///
/// It is created before the run. If it exists, it keeps its bytes until the run has all that it needs: neither a port
/// in use nor want of memory costs the history of an earlier run.
#[derive(Drop)]
pub struct HistoryFile {
    file: Option<File>,
}

impl HistoryFile {
    /// Opens the file, and creates it if it does not exist. The fault is `WriteHistory`.
    pub fn create(rt: &HostRuntime, path: Option<&str>) -> Result<HistoryFile, BrokerFault>
        ensures { IfErr result (λ fault. fault ≡ WriteHistory) }
    {
        let Some(path) = path else {
            return Ok(HistoryFile { file: None });
        };
        match history_options().open(rt, path) {
            Ok(file) => Ok(HistoryFile { file: Some(file) }),
            Err(_) => Err(BrokerFault::WriteHistory),
        }
    }
}

impl Recorder for HistoryFile {
    type Begun = ();

    ghost has_begun = { λ old new. Unit {0} };

    ghost has_failed = { λ old new. Unit {0} };

    ghost keeps = { λ history. is_some history.file };

    // Empties the file. A pipe or a device has no bytes that could be taken away, which the system answers by an
    // invalid argument.
    fn begin(&mut self) -> Result<(), WriteFault> {
        let Some(file) = &self.file else {
            return Ok(());
        };
        match file.set_len(0) {
            Err(fault) if fault.kind() != ErrorKind::InvalidInput => Err(WriteFault),
            _ => Ok(()),
        }
    }

    fn records(&self) -> bool {
        self.file.is_some()
    }
}

// What is written goes to the file, if one is named.
impl Write for HistoryFile {
    fn write(&mut self, buf: &[u8]) -> io::Result<usize> {
        match &mut self.file {
            Some(file) => file.write(buf),
            None => Ok(buf.len()),
        }
    }

    fn flush(&mut self) -> io::Result<()> {
        Ok(())
    }
}

// How the file of a history is opened, whether it exists or not. Its bytes stay.
fn history_options() -> OpenOptions
    ensures written { IsTrue (asks_write result) }
    ensures created { IsTrue (asks_create result) }
    ensures kept { asks_truncate result ≡ false }
{
    let mut options = OpenOptions::new();
    options.write(true).create(true).truncate(false);
    options
}
