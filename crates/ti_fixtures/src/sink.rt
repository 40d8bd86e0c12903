//! A writer that is interrupted, takes small steps and fails.

use std::alloc::Global;
use std::io;
use std::io::{ErrorKind, Write};

/// Takes `step` bytes at a time, and fails at write `fails_at`, counted from 1. The first write comes after
/// `interruptions` interrupted ones, each later one after `interruptions_each`.
#[derive(Drop)]
pub struct Sink {
    pub taken: Vec<u8>,
    pub step: usize,
    pub interruptions: u32,
    pub interruptions_each: u32,
    pub writes: usize,
    pub fails_at: usize,
}

impl Sink {
    /// A writer that takes all it is given.
    pub fn new(alloc: Global) -> Self {
        Sink {
            taken: Vec::new(alloc),
            step: usize::MAX,
            interruptions: 0,
            interruptions_each: 0,
            writes: 0,
            fails_at: usize::MAX,
        }
    }

    /// A writer that takes so many bytes at a time, and fails at this write.
    pub fn failing_at(alloc: Global, step: usize, write: usize) -> Self {
        Sink {
            step,
            fails_at: write,
            ..Sink::new(alloc)
        }
    }
}

impl Write for Sink {
    fn write(&mut self, buf: &[u8]) -> io::Result<usize> {
        if self.interruptions > 0 {
            self.interruptions -= 1;
            return Err(io::Error::from(ErrorKind::Interrupted));
        }
        self.interruptions = self.interruptions_each;
        self.writes = self.writes.saturating_add(1);
        if self.writes == self.fails_at {
            return Err(io::Error::from(ErrorKind::BrokenPipe));
        }
        let count = buf.len().min(self.step);
        self.taken.extend_from_slice(&buf[..count])?;
        Ok(count)
    }

    fn flush(&mut self) -> io::Result<()> {
        Ok(())
    }
}
