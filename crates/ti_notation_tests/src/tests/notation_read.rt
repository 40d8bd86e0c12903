//! Notations that are read, as `tic` reads them but for the NUL of `\\400` and the digit 8 after octal ones, and faults.

use crate::tests::check_rows;
use std::alloc::Global;
use ti_escape::{NotationRefused, ReadingFault, push_reading, read_in_place};
use ti_fixtures::{Finds, Given, Unfound, only_if, show};

/// A notation, and its text.
const ROWS: &str = r"
- => -
\\E[%i%p1%d;%p2%dH => \E[%i%p1%d;%p2%dH
\\e\\E\\a\\b\\f\\n\\l\\r\\s\\t => \E\E^G^H^L\n\n^M ^I
\\1.\\12.\\123.\\1234 => ^A.\n.S.S4
\\18\\128\\777\\400 => ^A8\n8\377\000
\\\\\\\^\\,\\:\\% => \\\^,:%
\^G\^g\^?\^[\^@\^ \^! => ^G^G^?\E\000\000^A
%\^A%%\^A\\%\^A => %\^A%%\^A%\^A
\\045\^A\\45\^A\^%\^A => %^A%^A^E^A
$<100/>\\s => $<100/>\s
++\\,\\,--..00``aaff => ++,,--..00``aaff
\sa b\s => \sa b\s
\200\377 => \200\377
\\\351 => \351
";

/// The text of a notation, which is the same if it is pushed and if it is read in place.
struct TextOf;

impl Finds for TextOf {
    fn find(&self, given: &Given<'_, '_>, found: &mut Vec<u8>) -> Result<(), Unfound> {
        found.extend_from_slice(given.bytes)?;
        let len = read_in_place(found.as_mut_slice())?;
        found.truncate(len);
        let mut made = Vec::from_slice(*found.allocator(), b"= ")?;
        push_reading(&mut made, given.bytes)?;
        only_if(made.as_slice().strip_prefix(b"= ") == Some(found.as_slice()))
    }
}

#[test]
fn notations_are_read(rt: HostRuntime) {
    check_rows(&rt, ROWS, &TextOf);
}

/// Characters that are no notation, and their fault with its place.
const REFUSED: &str = r"
\\ => CutShort at 0
abc\\ => CutShort at 3
\\E\^ => CutShort at 2
%\^\^ => CutShort at 2
a\^^_\^ => BadControl at 1
\^^?\\ => BadControl at 0
";

/// Why characters are no notation, in place.
fn refused_in_place(alloc: Global, characters: &[u8]) -> Result<NotationRefused, Unfound> {
    let mut room = characters.to_vec(alloc)?;
    Ok(read_in_place(room.as_mut_slice()).err().ok_or("read")?)
}

/// Why characters are no notation, in place and pushed, which keeps what was there.
struct RefusalOf;

impl Finds for RefusalOf {
    fn find(&self, given: &Given<'_, '_>, found: &mut Vec<u8>) -> Result<(), Unfound> {
        let refused = refused_in_place(*found.allocator(), given.bytes)?;
        show(found, &refused)?;
        let mut made = Vec::from_slice(*found.allocator(), b"= ")?;
        let pushed = push_reading(&mut made, given.bytes);
        let is_same = pushed == Err(ReadingFault::Refused(refused));
        only_if(is_same && made.as_slice() == b"= ".as_slice())
    }
}

#[test]
fn characters_that_are_no_notation_are_refused(rt: HostRuntime) {
    check_rows(&rt, REFUSED, &RefusalOf);
}
