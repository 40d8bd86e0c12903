//! At which byte a reader refuses: bytes in one piece, and byte by byte.

use super::entry_refusals::changed_in;
use crate::tests::check_rows;
use ti_entry::{EntryReader, Refused, read};
use ti_fixtures::{Finds, Given, Unfound, only_if, show};

/// Whether a reader keeps its refusal and so many bytes at all its calls.
fn keeps(reader: &mut EntryReader, refused: Refused, kept: usize) -> bool {
    reader.kept() == kept
        && reader.finish().err() == Some(refused)
        && reader.feed(&[]) == Err(refused)
        && reader.feed(&[0]) == Err(refused)
        && reader.kept() == kept
}

/// How many bytes are kept of those that are refused in one piece, if the reader keeps its refusal.
fn kept_at_once(bytes: &[u8], refused: Refused) -> Option<usize> {
    let mut reader = EntryReader::new();
    let is_refused = reader.feed(bytes) == Err(refused);
    let kept = reader.kept();
    (is_refused && keeps(&mut reader, refused, kept)).then_some(kept)
}

/// The same for bytes that are fed one by one, up to the one that is refused.
fn kept_one_by_one(bytes: &[u8], refused: Refused) -> Option<usize> {
    let mut reader = EntryReader::new();
    for (place, byte) in bytes.iter().enumerate() {
        if let Err(found) = reader.feed(&[*byte]) {
            return (found == refused && keeps(&mut reader, refused, place)).then_some(place);
        }
    }
    None
}

/// Adds the refusal of bytes and how many are kept before it, in either way to feed them; nothing if they are read.
fn show_decided(found: &mut Vec<u8>, bytes: &[u8]) -> Result<(), Unfound> {
    let Err(refused) = read(bytes) else {
        return Ok(());
    };
    let kept = kept_at_once(bytes, refused).ok_or("kept")?;
    show(found, &refused)?;
    found.extend_from_slice(b", kept ")?;
    show(found, &kept)?;
    only_if(kept_one_by_one(bytes, refused) == Some(kept))
}

/// The same for the bytes of a row.
struct DecidedIn;

impl Finds for DecidedIn {
    fn find(&self, given: &Given<'_, '_>, found: &mut Vec<u8>) -> Result<(), Unfound> {
        let bytes = changed_in(*found.allocator(), given)?;
        show_decided(found, bytes.as_slice())
    }
}

/// Entries, a place, what the bytes there are changed to, the refusal, and how many bytes are kept before it.
const CHANGED: &str = r"
@SMALL | 0 | \E => BadMagic at 0, kept 1
@SMALL | 3 | \200 => BadHeader at 2, kept 3
@SMALL | 2 | \377^?\377^?\377^?\377^?\377^? => HeaderTooBig at 0, kept 11
@SMALL | 14 | ^B => BadFlag at 14, kept 14
@SMALL | 23 | ^A => Unterminated at 20, kept 23
# the byte after an odd table
@ODD_AND_MORE | 25 | ^A => BadPad at 25, kept 25
@EXTENDED | 32 | \377^? => ExtendedTooBig at 24, kept 33
@EXTENDED | 52 | ^A => Unterminated at 40, kept 52
# a number of four bytes is checked with its fourth
@WIDE | 16 | \375\377\377\377 => BadNumber at 16, kept 19
";

#[test]
fn changed_bytes_are_decided_at_a_byte(rt: HostRuntime) {
    check_rows(&rt, CHANGED, &DecidedIn);
}

/// The same for lengths, up to which there are bytes 0.
const LONG: &str = r"
@EXTENDED | - | - | 54 => Trailing at 53, kept 53
@EXTENDED | - | - | 1000054 => Trailing at 53, kept 53
# a string table that ends with the last byte that an entry may have, and a byte after it
^Z^A^B\000\000\000\000\000\000\000\362^?t\000 | - | - | 32768 => -
^Z^A^B\000\000\000\000\000\000\000\362^?t\000 | - | - | 32769 => ExtendedTooBig at 32768, kept 32768
# the small entry with such an extended table
^Z^A^B\000^A\000^A\000^B\000^B\000t\000^A\000P\000\377\377\000\000^G\000\000\000\000\000\000\000\000\000\336^? | - | - | 32768 => -
^Z^A^B\000^A\000^A\000^B\000^B\000t\000^A\000P\000\377\377\000\000^G\000\000\000\000\000\000\000\000\000\336^? | - | - | 32769 => Trailing at 32768, kept 32768
";

#[test]
fn bytes_after_the_end_are_decided_at_the_first(rt: HostRuntime) {
    check_rows(&rt, LONG, &DecidedIn);
}
