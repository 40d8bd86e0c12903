//! Entries that were read before, and their capabilities by any name.

use super::entry_views::{are_equal, entry_of};
use crate::tests::check_rows;
use ti_entry::{read_with_base, reopen};
use ti_fixtures::entries::EXTENDED;
use ti_fixtures::{Finds, Given, Unfound, only_if, place_of, show, show_debug};

/// An entry, and the place of its extended texts.
const BASES: &str = r"
@EXTENDED => 5
";

/// The base of an entry that says the same however it is opened.
struct BaseIn;

impl Finds for BaseIn {
    fn find(&self, given: &Given<'_, '_>, found: &mut Vec<u8>) -> Result<(), Unfound> {
        let read = entry_of(given.bytes)?;
        let (entry, base) = read_with_base(given.bytes)?;
        let reopened = reopen(given.bytes, base).ok_or("opened again")?;
        show(found, &base)?;
        only_if(are_equal(&entry, &read) && are_equal(&reopened, &read))
    }
}

#[test]
fn an_entry_is_opened_again(rt: HostRuntime) {
    check_rows(&rt, BASES, &BaseIn);
}

/// Entries, the length of their front and a base, and whether that is opened again.
const OPENED: &str = r"
- | 0 | 0 => false
@SMALL | 11 | 0 => false
@SMALL | 12 | 0 => false
@SMALL | 24 | 32769 => false
@SMALL | 24 | 0 => true
";

/// Whether the front of a row is opened.
struct OpenedIn;

impl Finds for OpenedIn {
    fn find(&self, given: &Given<'_, '_>, found: &mut Vec<u8>) -> Result<(), Unfound> {
        let [_, length, base, ..] = given.fields();
        let front = given.bytes.get(..place_of(length)?).ok_or("a front")?;
        show(found, &reopen(front, place_of(base)?).is_some())
    }
}

#[test]
fn bytes_without_their_headers_are_not_opened(rt: HostRuntime) {
    check_rows(&rt, OPENED, &OpenedIn);
}

/// Names, and where the extended entry has the capability.
const POSITIONS: &str = r"
cup => Some(Standard(Text, 10))
max_colors => Some(Standard(Number, 13))
AX => Some(Extended(Flag, 0))
E3 => Some(Extended(Text, 0))
E4 => None
\377 => None
";

/// Where the capability of a name stands.
struct PositionOf;

impl Finds for PositionOf {
    fn find(&self, given: &Given<'_, '_>, found: &mut Vec<u8>) -> Result<(), Unfound> {
        show_debug(found, &entry_of(EXTENDED)?.position(given.bytes))
    }
}

#[test]
fn capabilities_are_found_by_any_name(rt: HostRuntime) {
    check_rows(&rt, POSITIONS, &PositionOf);
}
