//! The items of an entry, by the calls of an iterator.

use super::entry_views::entry_of;
use crate::tests::check_rows;
use ti_fixtures::{Finds, Given, Unfound, show_debug};

/// The last item of the entry of a row.
struct LastItem;

impl Finds for LastItem {
    fn find(&self, given: &Given<'_, '_>, found: &mut Vec<u8>) -> Result<(), Unfound> {
        show_debug(found, &entry_of(given.bytes)?.items().last())
    }
}

/// An entry called `t`, with auto_left_margin, 80 columns, a bell, and an extended text E3.
const LAST: &str = r"
^Z^A^B\000^A\000^A\000^B\000^B\000t\000^A\000P\000\377\377\000\000^G\000\000\000\000\000^A\000^B\000^H\000\000\000\000\000\E[3J\000E3\000 => Some((Extended(Text, [69, 51]), Text(Value([27, 91, 51, 74]))))
";

#[test]
fn the_last_item_is_the_extended_text(rt: HostRuntime) {
    check_rows(&rt, LAST, &LastItem);
}
