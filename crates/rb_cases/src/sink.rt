use std::alloc::Global;
use std::io::{self, ErrorKind, Write};

/// A writer that holds what is written. Writes and flushes are counted together, and one of them
/// may fail.
#[derive(Drop)]
pub struct Sink {
    pub bytes: Vec<u8>,
    calls: usize,
    fails_at: Option<usize>,
    /// The greatest number of bytes that a write takes.
    most: usize,
}

impl Sink {
    pub fn new(alloc: Global, fails_at: Option<usize>, most: Option<usize>) -> Sink {
        Sink {
            bytes: Vec::new(alloc),
            calls: 0,
            fails_at,
            most: most.unwrap_or(usize::MAX),
        }
    }

    fn fails_now(&mut self) -> bool {
        let call = self.calls;
        self.calls = call.saturating_add(1);
        self.fails_at == Some(call)
    }
}

impl Write for Sink {
    fn write(&mut self, buf: &[u8]) -> io::Result<usize> {
        if self.fails_now() {
            return Err(ErrorKind::BrokenPipe.into());
        }
        let count = self.most.min(buf.len());
        self.bytes.extend_from_slice(&buf[..count])?;
        Ok(count)
    }

    fn flush(&mut self) -> io::Result<()> {
        if self.fails_now() {
            return Err(ErrorKind::BrokenPipe.into());
        }
        Ok(())
    }
}
