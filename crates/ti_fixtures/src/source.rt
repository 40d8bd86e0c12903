//! Readers that are interrupted, go in small steps and fail, and one without an end.

ghost use Rattle.std.specs.Prelude.{◌≡◌, ◌≤◌, length};

use std::io;
use std::io::{ErrorKind, Read};

/// Gives its bytes `step` at a time, each after `interruptions` interrupted reads, and fails at call `fails_at`,
/// counted from 1. `pending` reads are interrupted before the next one that gives bytes.
#[derive(Drop)]
pub struct Source<'a> {
    pub bytes: &'a [u8],
    pub step: usize,
    pub interruptions: u32,
    pub pending: u32,
    pub calls: usize,
    pub fails_at: usize,
}

impl<'a> Source<'a> {
    /// A source that gives these bytes, `step` at a time, without an interruption or a failure.
    pub fn new(bytes: &'a [u8], step: usize) -> Self
        ensures { result.bytes.now ≡ bytes.now }
    {
        Source {
            bytes,
            step,
            interruptions: 0,
            pending: 0,
            calls: 0,
            fails_at: usize::MAX,
        }
    }

    /// The same source, which fails at this call.
    pub fn failing_at(bytes: &'a [u8], step: usize, call: usize) -> Self
        ensures { result.bytes.now ≡ bytes.now }
    {
        Source {
            fails_at: call,
            ..Source::new(bytes, step)
        }
    }
}

/// How many bytes a read gives: as many as there are, as there is room for, and as a step allows.
fn count_of(bytes: &[u8], room: usize, step: usize) -> usize
    ensures there { result ≤ length bytes.now }
    ensures fits { result ≤ room }
    ensures small { result ≤ step }
{
    bytes.len().min(room).min(step)
}

impl Read for Source<'_> {
    fn read(&mut self, buf: &mut [u8]) -> io::Result<usize> {
        if self.pending > 0 {
            self.pending -= 1;
            return Err(io::Error::from(ErrorKind::Interrupted));
        }
        self.pending = self.interruptions;
        self.calls = self.calls.saturating_add(1);
        if self.calls == self.fails_at {
            return Err(io::Error::from(ErrorKind::ConnectionReset));
        }
        let count = count_of(self.bytes, buf.len(), self.step);
        let (now, later) = self.bytes.split_at(count);
        buf[..count].copy_from_slice(now);
        self.bytes = later;
        Ok(count)
    }
}

/// Gives a byte `a` at each read, without end, and counts the reads.
#[derive(Drop)]
pub struct Endless {
    pub reads: usize,
}

impl Read for Endless {
    fn read(&mut self, buf: &mut [u8]) -> io::Result<usize> {
        self.reads = self.reads.saturating_add(1);
        let count = buf.len().min(1);
        buf[..count].fill(b'a');
        Ok(count)
    }
}
