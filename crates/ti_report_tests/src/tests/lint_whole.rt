//! The lines on what is wrong with an entry as a whole.

use super::entries::{entry_of, lines_on, look_of};
use crate::tests::check_rows;
use ti_entry::read;
use ti_fixtures::entries::{EXTENDED, changed};
use ti_fixtures::{Finds, Given, Unfound, show_debug};
use ti_rules::coverage_of;

/// Adds the lines on an entry as a whole, which come after those on its texts.
fn add_whole(found: &mut Vec<u8>, file: &[u8]) -> Result<(), Unfound> {
    let lines = lines_on(*found.allocator(), look_of("mistakes in file"), file)?;
    for start in 0..lines.len() {
        if lines.as_slice()[start..].starts_with(b"file: entry\n") {
            return Ok(found.extend_from_slice(&lines.as_slice()[start..])?);
        }
    }
    Ok(())
}

/// The lines on the entry of a row as a whole.
struct WholeLines;

impl Finds for WholeLines {
    fn find(&self, given: &Given<'_, '_>, found: &mut Vec<u8>) -> Result<(), Unfound> {
        let file = entry_of(*found.allocator(), given.text)?;
        add_whole(found, file.as_slice())
    }
}

/// The colors of entries, with their findings. All their other texts are cancelled.
const COLORS: &str = r"
colors#8 | op=\E[m | setaf=\E[m | *@ => -
colors#8 | oc=\E[m | setf=\E[m | *@ => -
colors#8 | op=\E[m | scp=\E[m | initp=\E[m | *@ => -
# As in djgpp204.
colors#8 | setaf=\E[m | setab=\E[m | *@ => file: entry\n  colors-pair: there are colors, and neither op nor oc\n  do: add op, or leave out colors\n
# As in qnxt2.
colors#8 | op=\E[m | *@ => file: entry\n  colors-pair: there are colors, and none of setaf, setf and scp\n  do: add setaf, or leave out colors\n
colors#8 | setab=\E[m | setb=\E[m | *@ => file: entry\n  colors-pair: there are colors, and neither op nor oc\n  do: add op, or leave out colors\nfile: entry\n  colors-pair: there are colors, and none of setaf, setf and scp\n  do: add setaf, or leave out colors\n
# There are no colors.
setaf=\E[m | *@ => -
colors#0 | *@ => -
ccc | colors#8 | op=\E[m | setaf=\E[m | *@ => file: entry\n  colors-pair: there is ccc, and neither initc nor initp\n  do: add initc, or leave out ccc\n
ccc | colors#8 | op=\E[m | setaf=\E[m | initc=\E[m | *@ => -
ccc | colors@ | initp=\E[m | *@ => -
ccc@ | colors#8 | op=\E[m | setaf=\E[m | *@ => -
";

#[test]
fn colors_that_lack_a_text_are_reported(rt: HostRuntime) {
    check_rows(&rt, COLORS, &WholeLines);
}

/// Entries, with their findings.
const LAYOUTS: &str = r"
@EXTENDED => -
@WIDENED => -
@EXTENDED_BY_TIC => -
# Its colors#16777216 has no op and no setaf.
@WIDE_BY_TIC => file: entry\n  colors-pair: there are colors, and neither op nor oc\n  do: add op, or leave out colors\nfile: entry\n  colors-pair: there are colors, and none of setaf, setf and scp\n  do: add setaf, or leave out colors\n
@SHARED => file: entry\n  layout: the bytes are not those that tic writes\n  do: write the entry anew with ti convert\n
# Two extended texts A and B that are `a`, of which the bytes stand once, and then `b`, which is no text. The base is 4 by the
# sizes of the texts and by the items, and 2 by the end of the last text.
^Z^A^B\000\000\000\000\000\000\000\000\000t\000\000\000\000\000^B\000^D\000^H\000\000\000\000\000\000\000^B\000a\000b\000A\000B\000 => file: entry\n  layout: the bytes are not those that tic writes\n  do: write the entry anew with ti convert\nfile: entry\n  base: readers differ in where the user-defined names start\n  do: write the entry anew with ti convert\n
# The extended texts A and B, which are `b` and `a`, the second before the first: each rule says 4.
^Z^A^B\000\000\000\000\000\000\000\000\000t\000\000\000\000\000^B\000^D\000^H\000^B\000\000\000\000\000^B\000a\000b\000A\000B\000 => file: entry\n  layout: the bytes are not those that tic writes\n  do: write the entry anew with ti convert\n
# The extended text a, which is `a`, after `A`, which is no text, and so it is also the name. The base is 2 by the sizes of the
# texts and by the items, and 4 by the end of the last text.
^Z^A^B\000\000\000\000\000\000\000\000\000t\000\000\000\000\000^A\000^B\000^D\000^B\000\000\000A\000a\000 => file: entry\n  layout: the bytes are not those that tic writes\n  do: write the entry anew with ti convert\nfile: entry\n  base: readers differ in where the user-defined names start\n  do: write the entry anew with ti convert\n
# An extended part without a capability, whose header counts an item.
^Z^A^B\000\000\000\000\000\000\000\000\000t\000\000\000\000\000\000\000^A\000\000\000 => file: entry\n  layout: the bytes are not those that tic writes\n  do: write the entry anew with ti convert\n
";

#[test]
fn layouts_that_tic_does_not_write_are_reported(rt: HostRuntime) {
    check_rows(&rt, LAYOUTS, &WholeLines);
}

/// Counts of items in the header of the extended entry, which has one text and two names.
const COUNTS: &str = r"
0 => file: entry\n  layout: the bytes are not those that tic writes\n  do: write the entry anew with ti convert\nfile: entry\n  base: readers differ in where the user-defined names start\n  do: write the entry anew with ti convert\n
2 => file: entry\n  layout: the bytes are not those that tic writes\n  do: write the entry anew with ti convert\nfile: entry\n  base: readers differ in where the user-defined names start\n  do: write the entry anew with ti convert\n
4 => file: entry\n  layout: the bytes are not those that tic writes\n  do: write the entry anew with ti convert\nfile: entry\n  base: readers differ in where the user-defined names start\n  do: write the entry anew with ti convert\n
";

/// The lines on the extended entry with another count of items.
struct LinesOnCount;

impl Finds for LinesOnCount {
    fn find(&self, given: &Given<'_, '_>, found: &mut Vec<u8>) -> Result<(), Unfound> {
        let items = given.text.parse::<u8>()?;
        let file = changed(*found.allocator(), EXTENDED, 30, &[items])?;
        add_whole(found, file.as_slice())
    }
}

#[test]
fn a_count_of_items_that_is_not_theirs_is_reported(rt: HostRuntime) {
    check_rows(&rt, COUNTS, &LinesOnCount);
}

/// Entries with nothing but names, and the lines on them: term(5) has the names between `|`, and the last describes the terminal.
const NAMES: &str = r"
^Z^A^H\000\000\000\000\000\000\000\000\000a|b /cd\000 => -
^Z^A^D\000\000\000\000\000\000\000\000\000aa^A\000 => names\n  aa\^A\n    \^\n  names-control: this is a control character\n  do: leave it out\n
^Z^A^D\000\000\000\000\000\000\000\000\000aa\377\000 => names\n  aa\\377\n    \^\n  names-control: from here on it is no UTF-8\n  do: write the names in UTF-8\n
^Z^A^F\000\000\000\000\000\000\000\000\000a||bc\000 => names\n  a||bc\n    \^\n  names-odd: an alias is empty\n  do: leave out the | before or after it\n
^Z^A^F\000\000\000\000\000\000\000\000\000a|a|b\000 => a\n  alias-repeated: the entry has the alias twice\n  do: leave out one of the two\n
# The description is no alias.
^Z^A^F\000\000\000\000\000\000\000\000\000a|b|a\000 => -
# One name alone is an alias.
^Z^A^D\000\000\000\000\000\000\000\000\000a/b\000 => names\n  a/b\n   \^\n  names-odd: an alias has a space or a /, so no file has its name\n  do: write an alias without it\n
";

/// The lines on the entry of a row.
struct NamesOf;

impl Finds for NamesOf {
    fn find(&self, given: &Given<'_, '_>, found: &mut Vec<u8>) -> Result<(), Unfound> {
        let file = entry_of(*found.allocator(), given.text)?;
        let lines = lines_on(*found.allocator(), look_of("mistakes"), file.as_slice())?;
        Ok(found.extend_from_slice(lines.as_slice())?)
    }
}

#[test]
fn names_with_bytes_of_no_name_are_reported(rt: HostRuntime) {
    check_rows(&rt, NAMES, &NamesOf);
}

/// Entries, and how much of them a report looks at.
const COVERED: &str = r"
bel=^G | lines#2 | cols#3 | cup=\E[%i%p1%d;%p2%dH => Coverage { strings: 2, tried: 1, values: 6, left: 0 }
bel=^G | cup=\E[%i%p1%d;%p2%dH => Coverage { strings: 2, tried: 0, values: 0, left: 0 }
# It is no capability.
cols#3 | hpa=%u => Coverage { strings: 1, tried: 0, values: 0, left: 0 }
# All sets of nine attributes.
colors#8 | setaf=\E[3%p1%dm => Coverage { strings: 1, tried: 1, values: 8, left: 0 }
# it may write 510 bytes, and what is tried writes 256 at most
cols#3 | hpa=%p1%255d%p1%255d => Coverage { strings: 1, tried: 0, values: 0, left: 0 }
+xyz=a | bel=^G => Coverage { strings: 2, tried: 0, values: 0, left: 0 }
sgr=\E[0m => Coverage { strings: 1, tried: 1, values: 512, left: 0 }
";

/// How much of the entry of a row is looked at.
struct CoverageOf;

impl Finds for CoverageOf {
    fn find(&self, given: &Given<'_, '_>, found: &mut Vec<u8>) -> Result<(), Unfound> {
        let alloc = *found.allocator();
        let file = entry_of(alloc, given.text)?;
        let entry = read(file.as_slice())?;
        show_debug(found, &coverage_of(alloc, &entry)?)
    }
}

#[test]
fn reports_look_at_strings_and_values(rt: HostRuntime) {
    check_rows(&rt, COVERED, &CoverageOf);
}
