//! Entries with an extended part: what its names are, and what a changed byte makes of them.

use super::entry_refusals::{RefusalIn, long_in, show_refusal};
use super::entry_views::entry_of;
use crate::tests::check_rows;
use ti_fixtures::{Finds, Given, Unfound, show_debug};

/// Entries and names, with the capability of that name, and the text.
const FOUND: &str = r"
@EXTENDED | AX => (Some((Flag, 0)), None)
@EXTENDED | E3 => (Some((Text, 0)), Some(0))
@EXTENDED | E => (None, None)
@EXTENDED | E3\000 => (None, None)
@NO_CAPABILITY | - => (None, None)
@WIDE_EXTENDED | U8 => (Some((Number, 0)), None)
";

/// Where the name of a row stands.
struct FoundIn;

impl Finds for FoundIn {
    fn find(&self, given: &Given<'_, '_>, found: &mut Vec<u8>) -> Result<(), Unfound> {
        let extended = entry_of(given.bytes)?.extended();
        show_debug(
            found,
            &(
                extended.find(given.second),
                extended.find_text(given.second),
            ),
        )
    }
}

#[test]
fn extended_capabilities_are_found_by_their_names(rt: HostRuntime) {
    check_rows(&rt, FOUND, &FoundIn);
}

/// An entry, a place, what the bytes there are changed to and a length, and why they are refused.
const REFUSED: &str = r"
@EXTENDED | 25 | \200 => BadExtendedHeader at 24
@EXTENDED | 32 | \377^? => ExtendedTooBig at 24
@EXTENDED | 34 | ^B => BadFlag at 34
@EXTENDED | 35 | ^A => BadPad at 35
@EXTENDED | 38 | \377\377 => BadExtendedName at 38
@EXTENDED | 40 | ^F => BadExtendedName at 40
@EXTENDED | 52 | ^A => Unterminated at 40
# the number of items in the table is not looked at
@EXTENDED | 30 | \377\377 => -
# a byte after the part is too many
@EXTENDED | - | - | 54 => Trailing at 53
";

#[test]
fn changed_bytes_of_an_extended_part_are_refused(rt: HostRuntime) {
    check_rows(&rt, REFUSED, &RefusalIn);
}

/// Why the long entry of a row is refused.
struct RefusalOfLong;

impl Finds for RefusalOfLong {
    fn find(&self, given: &Given<'_, '_>, found: &mut Vec<u8>) -> Result<(), Unfound> {
        let bytes = long_in(*found.allocator(), given)?;
        show_refusal(found, bytes.as_slice())
    }
}

/// The small entry with 6000 extended texts at the one place of a table of 7000 bytes: their sizes sum past it.
const MANY: &str = r"
^Z^A^B\000^A\000^A\000^B\000^B\000t\000^A\000P\000\377\377\000\000^G\000\000\000\000\000p^W\000\000X\E | 24034 | 31033 => BadExtendedName at 12034
";

#[test]
fn many_extended_texts_are_too_long(rt: HostRuntime) {
    check_rows(&rt, MANY, &RefusalOfLong);
}
