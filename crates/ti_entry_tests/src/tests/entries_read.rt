//! Entries of the legacy format: what they say, and what a changed byte makes of them.

use super::entry_refusals::{FirstOtherFrontIn, RefusalIn, changed_in, long_in};
use super::entry_views::{entry_of, is_read_as, show_entry};
use crate::tests::check_rows;
use ti_entry::{Entry, EntryReader, Fault, Refused};
use ti_fixtures::{Finds, Given, Unfound, place_of, show, show_debug};
use ti_words::Text;

/// Entries, and what they say: their format and names, and each flag, number and text, with one after them, and then those
/// of the extended part with their names.
const SAID: &str = r"
@SMALL => (Legacy, [116], [Yes, No], [Value(80), Absent], [Absent, Value([7]), Absent])([(None, No)], [(None, Absent)], [(None, Absent)])
# a flag and a number may be cancelled
@SMALL | 14 | \376 => (Legacy, [116], [Cancelled, No], [Value(80), Absent], [Absent, Value([7]), Absent])([(None, No)], [(None, Absent)], [(None, Absent)])
@SMALL | 16 | \376\377 => (Legacy, [116], [Yes, No], [Cancelled, Absent], [Absent, Value([7]), Absent])([(None, No)], [(None, Absent)], [(None, Absent)])
# an extended part without a capability says nothing
@SMALL | - | - | 34 => (Legacy, [116], [Yes, No], [Value(80), Absent], [Absent, Value([7]), Absent])([(None, No)], [(None, Absent)], [(None, Absent)])
@EXTENDED => (Legacy, [116], [Yes, No], [Value(80), Absent], [Absent, Value([7]), Absent])([(Some([65, 88]), Yes), (None, No)], [(None, Absent)], [(Some([69, 51]), Value([27, 91, 51, 74])), (None, Absent)])
# the number of items in the extended table is not looked at
@EXTENDED | 30 | \377\377 => (Legacy, [116], [Yes, No], [Value(80), Absent], [Absent, Value([7]), Absent])([(Some([65, 88]), Yes), (None, No)], [(None, Absent)], [(Some([69, 51]), Value([27, 91, 51, 74])), (None, Absent)])
# texts are lent from the table
@SHARED => (Legacy, [116], [No], [Absent], [Value([7]), Value([7]), Absent])([(None, No)], [(None, Absent)], [(None, Absent)])
@QUESTION => (Legacy, [116], [Yes, No], [Value(80), Absent], [Absent, Value([27, 91, 63, 37, 91, 59, 48, 49, 50, 51, 52, 53, 54, 55, 56, 57, 93, 99]), Absent])([(None, No)], [(None, Absent)], [(None, Absent)])
@ODD => (Legacy, [116], [Yes, No], [Value(80), Absent], [Absent, Value([7, 7]), Absent])([(None, No)], [(None, Absent)], [(None, Absent)])
";

/// The values of the entry of a row.
pub struct SaidIn;

impl Finds for SaidIn {
    fn find(&self, given: &Given<'_, '_>, found: &mut Vec<u8>) -> Result<(), Unfound> {
        let bytes = changed_in(*found.allocator(), given)?;
        show_entry(found, &entry_of(bytes.as_slice())?)
    }
}

#[test]
fn entries_say_what_they_say(rt: HostRuntime) {
    check_rows(&rt, SAID, &SaidIn);
}

/// Entries and indexes, and the flag, the number and the text there.
const AT_INDEX: &str = r"
@SMALL | 0 => (Yes, Value(80), Absent)
@SMALL | 1 => (No, Absent, Value([7]))
@SMALL | 99 => (No, Absent, Absent)
";

/// The capabilities of a row.
struct AtIndex;

impl Finds for AtIndex {
    fn find(&self, given: &Given<'_, '_>, found: &mut Vec<u8>) -> Result<(), Unfound> {
        let index = place_of(given.fields()[1])?;
        let entry = entry_of(given.bytes)?;
        show_debug(
            found,
            &(entry.flag(index), entry.number(index), entry.text(index)),
        )
    }
}

#[test]
fn capabilities_have_indexes(rt: HostRuntime) {
    check_rows(&rt, AT_INDEX, &AtIndex);
}

/// Entries, and a length from which on each front is truncated at its length: up to which.
const FRONTS: &str = r"
@SMALL | 0 => 24
@EXTENDED | 25 => 53
@WIDE | 0 => 26
";

#[test]
fn each_front_of_an_entry_is_truncated(rt: HostRuntime) {
    check_rows(&rt, FRONTS, &FirstOtherFrontIn);
}

/// Whether a reader that is finished after a first piece too reads an entry.
fn is_read_after_finishing(entry: &Entry<'_>, first: &[u8], second: &[u8]) -> bool {
    let mut reader = EntryReader::new();
    reader.feed(first).is_ok()
        && reader.finish().is_err()
        && reader.feed(second).is_ok()
        && is_read_as(&reader, entry)
}

/// After how many fronts of an entry its reader is finished too early, and goes on to read it.
struct EarlyIn;

impl Finds for EarlyIn {
    fn find(&self, given: &Given<'_, '_>, found: &mut Vec<u8>) -> Result<(), Unfound> {
        let entry = entry_of(given.bytes)?;
        let mut count = 0u32;
        for cut in 0..given.bytes.len() {
            let (first, second) = given.bytes.split_at(cut);
            if is_read_after_finishing(&entry, first, second) {
                count = count.saturating_add(1);
            }
        }
        show(found, &count)
    }
}

#[test]
fn a_reader_that_was_finished_too_early_goes_on(rt: HostRuntime) {
    check_rows(&rt, "@SMALL => 24", &EarlyIn);
}

/// Whether a reader that has so many bytes of an entry is truncated there, and keeps one more.
fn is_fed_at(reader: &mut EntryReader, place: usize, byte: u8) -> bool {
    let truncated = Refused {
        fault: Fault::Truncated,
        place,
    };
    reader.finish().err() == Some(truncated)
        && reader.feed(&[byte]).is_ok()
        && reader.kept() == place.saturating_add(1)
}

/// The values of an entry that is fed byte by byte.
struct SaidByteByByte;

impl Finds for SaidByteByByte {
    fn find(&self, given: &Given<'_, '_>, found: &mut Vec<u8>) -> Result<(), Unfound> {
        let mut reader = EntryReader::new();
        for (place, byte) in given.bytes.iter().enumerate() {
            if !is_fed_at(&mut reader, place, *byte) {
                return Err(Unfound);
            }
        }
        show_entry(found, &reader.finish()?)
    }
}

/// An entry, and what it says.
const FED: &str = r"
@SMALL => (Legacy, [116], [Yes, No], [Value(80), Absent], [Absent, Value([7]), Absent])([(None, No)], [(None, Absent)], [(None, Absent)])
";

#[test]
fn a_small_entry_is_fed_byte_by_byte(rt: HostRuntime) {
    check_rows(&rt, FED, &SaidByteByByte);
}

/// Entries, a place and what the bytes there are changed to, and why they are refused.
const REFUSED: &str = r"
@SMALL | 0 | \E => BadMagic at 0
@SMALL | 0 | ^^ => BadMagic at 0
@SMALL | 1 | ^B => BadMagic at 0
@SMALL | 3 | \200 => BadHeader at 2
@SMALL | 2 | \377^?\377^?\377^?\377^?\377^? => HeaderTooBig at 0
@SMALL | 2 | ^A => BadNames at 12
@SMALL | 13 | u => BadNames at 13
@SMALL | 14 | ^B => BadFlag at 14
@SMALL | 15 | ^A => BadPad at 15
@SMALL | 16 | \375\377 => BadNumber at 16
@SMALL | 20 | ^B => BadOffset at 20
@SMALL | 23 | ^A => Unterminated at 20
# a byte after an odd table is 0
@ODD_AND_MORE => Truncated at 26
@ODD_AND_MORE | 25 | ^A => BadPad at 25
# a flag and a number may be cancelled
@SMALL | 14 | \376 => -
@SMALL | 16 | \376\377 => -
";

#[test]
fn changed_bytes_of_an_entry_are_refused(rt: HostRuntime) {
    check_rows(&rt, REFUSED, &RefusalIn);
}

/// How many texts an entry has up to the first that is not this.
fn equal_texts(entry: &Entry<'_>, text: &[u8]) -> usize {
    for index in 0..entry.text_count() {
        if entry.text(index) != Text::Value(text) {
            return index;
        }
    }
    entry.text_count()
}

/// Adds how many texts a long entry has, which are all the letters of its table, and how many of its bytes are kept.
fn show_texts_and_kept(found: &mut Vec<u8>, bytes: &[u8]) -> Result<(), Unfound> {
    let (_, text) = bytes.split_at(bytes.len().saturating_sub(700));
    let mut reader = EntryReader::new();
    reader.feed(bytes)?;
    let count = equal_texts(&reader.finish()?, text.split_last().ok_or("a table")?.1);
    show_debug(found, &(count, reader.kept()))
}

/// The same for the long entry of a row.
struct TextsAndKept;

impl Finds for TextsAndKept {
    fn find(&self, given: &Given<'_, '_>, found: &mut Vec<u8>) -> Result<(), Unfound> {
        let bytes = long_in(*found.allocator(), given)?;
        show_texts_and_kept(found, bytes.as_slice())
    }
}

/// 16000 offsets of the one text of a table of 700 bytes.
const MANY: &str = r"
^Z^A^B\000\000\000\000\000\200>\274^Bt\000 | 32014 | 32713 => (16000, 32714)
";

#[test]
fn many_texts_are_one(rt: HostRuntime) {
    check_rows(&rt, MANY, &TextsAndKept);
}
