//! Sources that are read into a reader of entries: how often, and what is left if they fail.

use super::entry_refusals::changed_in;
use crate::tests::check_rows;
use ti_entry::{EntryReader, ReadStop, read_from};
use ti_fixtures::{Finds, Given, Source, Unfound, only_if, place_of, show, show_debug};

/// The source of a row: how many bytes it gives at a time, how many reads are interrupted before the first and before each
/// of the others, and which read fails. What is no number is more than there are.
fn source_in<'a>(given: &Given<'a, '_>) -> Result<Source<'a>, Unfound> {
    let [_, step, pending, interruptions, fails_at] = given.fields();
    let most = |field: &str| place_of(field).unwrap_or(usize::MAX);
    let mut source = Source::failing_at(given.bytes, most(step), most(fails_at));
    source.pending = u32::try_from(place_of(pending)?)?;
    source.interruptions = u32::try_from(place_of(interruptions)?)?;
    Ok(source)
}

/// Adds what reading a source comes to, how many reads are made, and how many bytes are kept. Whether it is read.
fn show_reading(
    found: &mut Vec<u8>,
    reader: &mut EntryReader,
    source: &mut Source<'_>,
) -> Result<bool, Unfound> {
    let result = read_from(reader, source);
    show_debug(found, &(result, source.calls, reader.kept()))?;
    Ok(result.is_ok())
}

/// The same for a source of a row, which is an entry if it is read.
struct ReadingIn;

impl Finds for ReadingIn {
    fn find(&self, given: &Given<'_, '_>, found: &mut Vec<u8>) -> Result<(), Unfound> {
        let mut reader = EntryReader::new();
        let is_read = show_reading(found, &mut reader, &mut source_in(given)?)?;
        only_if(is_read == reader.finish().is_ok())
    }
}

/// Entries that a source gives: so many bytes at a time, with so many interruptions before the first read and before each of
/// the others, failing at a read. What reading it comes to, how many reads are made, and how many bytes are kept.
const READ: &str = r"
# Up to 512 bytes come with a read, and the last one brings none.
@SMALL | all | 0 | 0 | - => (Ok(()), 2, 24)
@DUMB | all | 0 | 0 | - => (Ok(()), 2, 308)
@TMUX | all | 0 | 0 | - => (Ok(()), 8, 3171)
@EXTENDED | 1 | 0 | 1 | - => (Ok(()), 54, 53)
";

#[test]
fn a_source_is_read_in_pieces(rt: HostRuntime) {
    check_rows(&rt, READ, &ReadingIn);
}

/// Whether a second reading, with as many interruptions as may be, goes on to the entry `t`.
fn is_going_on(reader: &mut EntryReader, source: &mut Source<'_>) -> bool {
    source.pending = 1000;
    let is_read = read_from(reader, source).is_ok();
    match reader.finish() {
        Ok(entry) => is_read && entry.names() == b"t".as_slice(),
        Err(_) => false,
    }
}

/// The result of reading a source of a row, if a second reading goes on.
struct GoingOnIn;

impl Finds for GoingOnIn {
    fn find(&self, given: &Given<'_, '_>, found: &mut Vec<u8>) -> Result<(), Unfound> {
        let mut source = source_in(given)?;
        let mut reader = EntryReader::new();
        let _is_read = show_reading(found, &mut reader, &mut source)?;
        only_if(is_going_on(&mut reader, &mut source))
    }
}

/// The same, of which a second reading goes on.
const STOPPED: &str = r"
@SMALL | 10 | 0 | 0 | - => (Ok(()), 4, 24)
@SMALL | 10 | 1000 | 0 | - => (Ok(()), 4, 24)
@SMALL | 10 | 1001 | 0 | - => (Err(Io), 0, 0)
@SMALL | 10 | 0 | 0 | 3 => (Err(Io), 3, 20)
# Forty interruptions before each of 25 reads are tried again, a thousand in all; with one more the last read is not made.
@SMALL | 1 | 40 | 40 | - => (Ok(()), 25, 24)
@SMALL | 1 | 41 | 40 | - => (Err(Io), 24, 24)
";

#[test]
fn a_reader_goes_on_after_a_source_that_failed(rt: HostRuntime) {
    check_rows(&rt, STOPPED, &GoingOnIn);
}

/// The result of reading the bytes of a row one by one.
struct OneByOneIn;

impl Finds for OneByOneIn {
    fn find(&self, given: &Given<'_, '_>, found: &mut Vec<u8>) -> Result<(), Unfound> {
        let bytes = changed_in(*found.allocator(), given)?;
        let mut source = Source::new(bytes.as_slice(), 1);
        let _is_read = show_reading(found, &mut EntryReader::new(), &mut source)?;
        Ok(())
    }
}

/// Entries with bytes 0 up to a length, and what reading them one by one comes to.
const LONG: &str = r"
# an entry of 32768 bytes, and the same with bytes after it: at most 32769 reads are made
^Z^A^B\000\000\000\000\000\000\000\362^?t\000 | - | - | 32768 => (Ok(()), 32769, 32768)
^Z^A^B\000\000\000\000\000\000\000\362^?t\000 | - | - | 40000 => (Err(Refused(Refused { fault: ExtendedTooBig, place: 32768 })), 32769, 32768)
# an extended part of ten bytes, and one byte too many, which decides
@SMALL | - | - | 4096 => (Err(Refused(Refused { fault: Trailing, place: 34 })), 35, 34)
";

#[test]
fn a_source_is_not_read_past_the_byte_that_decides(rt: HostRuntime) {
    check_rows(&rt, LONG, &OneByOneIn);
}

/// How many bytes are kept of a source that gives one at a time and fails at a read.
fn kept_before(bytes: &[u8], call: usize) -> Option<usize> {
    let mut source = Source::failing_at(bytes, 1, call);
    let mut reader = EntryReader::new();
    let is_failed = read_from(&mut reader, &mut source) == Err(ReadStop::Io);
    is_failed.then_some(reader.kept())
}

/// The first read at which a source does not fail, or with other bytes kept than those of the reads before it.
struct FirstOtherRead;

impl Finds for FirstOtherRead {
    fn find(&self, given: &Given<'_, '_>, found: &mut Vec<u8>) -> Result<(), Unfound> {
        for kept in 0..100usize {
            if kept_before(given.bytes, kept + 1) != Some(kept) {
                return show(found, &(kept + 1));
            }
        }
        Err(Unfound)
    }
}

/// The extended entry of 53 bytes, after which one more read brings none.
const FAILING: &str = r"
@EXTENDED => 55
";

#[test]
fn a_source_that_fails_leaves_what_came(rt: HostRuntime) {
    check_rows(&rt, FAILING, &FirstOtherRead);
}
