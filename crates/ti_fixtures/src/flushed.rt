//! A writer that counts how often it is flushed.

use std::alloc::Global;
use std::io;
use std::io::Write;

/// Takes what it is given, and counts how often it is flushed.
#[derive(Drop)]
pub struct Flushed {
    pub taken: Vec<u8>,
    pub flushes: usize,
}

impl Flushed {
    /// A writer that has taken nothing, and was never flushed.
    pub fn new(alloc: Global) -> Self {
        Flushed {
            taken: Vec::new(alloc),
            flushes: 0,
        }
    }
}

impl Write for Flushed {
    fn write(&mut self, buf: &[u8]) -> io::Result<usize> {
        self.taken.extend_from_slice(buf)?;
        Ok(buf.len())
    }

    fn flush(&mut self) -> io::Result<()> {
        self.flushes = self.flushes.saturating_add(1);
        Ok(())
    }
}
