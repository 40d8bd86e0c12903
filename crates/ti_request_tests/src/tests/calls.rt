//! Calls that read a source and write, over streams and memory that fail.

use linked_list_allocator::LocalHeap;
use std::alloc::{Allocator, Global};
use ti_fixtures::{
    Finds, Given, Sink, Source, Tally, Tries, Unfound, only_if, place_of, show, show_numbers,
    tally_of,
};
use ti_tool::ToolFault;

/// A call with all that it is given but its memory and its streams.
pub trait Calls {
    /// Returns the result of the call.
    fn call<A: Allocator + Copy>(
        &self,
        alloc: A,
        source: &mut Source<'_>,
        writer: &mut Sink,
    ) -> Result<(), ToolFault>;
}

/// Adds what a writer took, or the fault of a call that wrote nothing.
fn add_outcome(
    found: &mut Vec<u8>,
    returned: Result<(), ToolFault>,
    taken: &[u8],
) -> Result<(), Unfound> {
    match returned {
        Ok(()) => Ok(found.extend_from_slice(taken)?),
        Err(fault) => {
            only_if(taken.is_empty())?;
            show(found, &fault)
        }
    }
}

/// Adds what a call writes over a source, or its fault if it writes nothing.
pub fn add_written<C: Calls>(
    found: &mut Vec<u8>,
    call: &C,
    source: &mut Source<'_>,
) -> Result<(), Unfound> {
    let alloc = *found.allocator();
    let mut writer = Sink::new(alloc);
    let result = call.call(alloc, source, &mut writer);
    add_outcome(found, result, writer.taken.as_slice())
}

/// Whether a call writes this over bytes, or has this fault and writes nothing.
pub fn is_written<C: Calls>(alloc: Global, call: &C, bytes: &[u8], outcome: &[u8]) -> bool {
    let mut found = Vec::new(alloc);
    let added = add_written(&mut found, call, &mut Source::new(bytes, 7));
    added.is_ok() && found.as_slice() == outcome
}

/// The output of a call over the bytes of a row, or its fault.
#[derive(Clone, Copy)]
pub struct WrittenBy<C>(pub C);

impl<C: Calls> Finds for WrittenBy<C> {
    fn find(&self, given: &Given<'_, '_>, found: &mut Vec<u8>) -> Result<(), Unfound> {
        add_written(found, &self.0, &mut Source::new(given.bytes, 7))
    }
}

/// The same if so many reads are interrupted.
#[derive(Clone, Copy)]
pub struct AfterInterruptions<C>(pub C);

impl<C: Calls> Finds for AfterInterruptions<C> {
    fn find(&self, given: &Given<'_, '_>, found: &mut Vec<u8>) -> Result<(), Unfound> {
        let mut source = Source::new(given.bytes, 512);
        source.pending = given.fields()[1].parse::<u32>()?;
        add_written(found, &self.0, &mut source)
    }
}

/// Whether a call says that this read of one byte fails, each after an interruption, and writes nothing.
fn fails_to_read<C: Calls>(alloc: Global, call: &C, bytes: &[u8], read: usize) -> bool {
    let mut source = Source::failing_at(bytes, 1, read);
    source.interruptions = 1;
    let mut writer = Sink::new(alloc);
    let result = call.call(alloc, &mut source, &mut writer);
    result == Err(ToolFault::Read) && writer.taken.is_empty()
}

/// Whether a call fails at each of so many reads.
fn fails_at_each_read<C: Calls>(alloc: Global, call: &C, bytes: &[u8], count: usize) -> bool {
    let mut is_each = true;
    for read in 1..=count {
        is_each &= fails_to_read(alloc, call, bytes, read);
    }
    is_each
}

/// Whether a call says that a writer of one byte at a time fails after it took these.
fn fails_after<C: Calls>(alloc: Global, call: &C, bytes: &[u8], front: &[u8]) -> bool {
    let mut writer = Sink::failing_at(alloc, 1, front.len().saturating_add(1));
    let result = call.call(alloc, &mut Source::new(bytes, 3), &mut writer);
    let gone = front.len() as u64;
    result == Err(ToolFault::Write(gone)) && writer.taken.as_slice() == front
}

/// Whether a call that writes this fails at each of its bytes.
fn fails_at_each_byte<C: Calls>(alloc: Global, call: &C, bytes: &[u8], written: &[u8]) -> bool {
    let mut is_each = true;
    for count in 0..written.len() {
        is_each &= fails_after(alloc, call, bytes, &written[..count]);
    }
    is_each
}

/// Adds how many reads of one byte a call makes, and how many writes. It fails at each of them.
pub fn add_streams<C: Calls>(found: &mut Vec<u8>, call: &C, bytes: &[u8]) -> Result<(), Unfound> {
    let alloc = *found.allocator();
    let mut source = Source::new(bytes, 1);
    let mut writer = Sink::failing_at(alloc, 1, usize::MAX);
    call.call(alloc, &mut source, &mut writer)?;
    only_if(fails_at_each_read(alloc, call, bytes, source.calls))?;
    only_if(fails_at_each_byte(alloc, call, bytes, writer.taken.as_slice()))?;
    show_numbers(found, &[source.calls as u64, writer.writes as u64])
}

/// The same for the bytes of a row.
#[derive(Clone, Copy)]
pub struct StreamsOf<C>(pub C);

impl<C: Calls> Finds for StreamsOf<C> {
    fn find(&self, given: &Given<'_, '_>, found: &mut Vec<u8>) -> Result<(), Unfound> {
        add_streams(found, &self.0, given.bytes)
    }
}

/// A call over bytes that takes its memory from a heap, and what it writes.
#[derive(Drop)]
struct Growing<'a, C> {
    alloc: Global,
    call: &'a C,
    bytes: &'a [u8],
    written: &'a [u8],
}

impl<C: Calls> Tries for Growing<'_, C> {
    fn is_given(&self, heap: &LocalHeap) -> Result<bool, Unfound> {
        let mut writer = Sink::new(self.alloc);
        let result = self
            .call
            .call(heap, &mut Source::new(self.bytes, 512), &mut writer);
        let taken = writer.taken.as_slice();
        match result {
            Ok(()) if taken == self.written => Ok(true),
            Err(ToolFault::Memory) if taken.is_empty() => Ok(false),
            _ => Err(Unfound),
        }
    }
}

/// The tries of a call with more and more memory: with none first, then each time with so many bytes more, and so many times.
pub fn growths_of<C: Calls>(
    alloc: Global,
    call: &C,
    bytes: &[u8],
    more: usize,
    count: usize,
) -> Result<Tally, Unfound> {
    let mut written = Vec::new(alloc);
    add_written(&mut written, call, &mut Source::new(bytes, 512))?;
    let growing = Growing {
        alloc,
        call,
        bytes,
        written: written.as_slice(),
    };
    Ok(tally_of(alloc, &growing, 0, more, count))
}

/// Whether a call over the bytes of a row is refused memory more than so many times, and then is given it and writes the same
/// more than so many times: [`growths_of`] with the numbers of the row.
#[derive(Clone, Copy)]
pub struct GrowthsOf<C>(pub C);

impl<C: Calls> Finds for GrowthsOf<C> {
    fn find(&self, given: &Given<'_, '_>, found: &mut Vec<u8>) -> Result<(), Unfound> {
        let [_, more, count, least, ..] = given.fields();
        let (more, count) = (place_of(more)?, place_of(count)?);
        let tally = growths_of(*found.allocator(), &self.0, given.bytes, more, count)?;
        show(found, &tally.is_refused_then_given(least.parse::<u32>()?))
    }
}
