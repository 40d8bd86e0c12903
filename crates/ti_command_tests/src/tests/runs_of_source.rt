//! Runs of `ti cap --source` and `ti trace --source`, which read the notation of a capability.

use super::ending::{EndOf, end_of};
use crate::tests::check_rows;
use std::alloc::Global;
use ti_fixtures::{Finds, Given, Unfound, show_numbers};

/// Notations whose texts are expanded.
const EXPANDED: &str = r"
ti cap --source n:7 | \\E[%p1%dG\n => 0 out \E[7G
# only the last newline is no part of it
ti cap --source | a\n\n => 0 out a\n
ti cap --source | \\n => 0 out \n
ti cap --source --hex | \\033\\e\^[\^?\\s\\,,\\400 => 0 out 1b1b1b7f202c2c00\n
# a `^` after a `%` is the operator
ti cap --source n:5 n:3 | %p1%p2%\^%d\^G\n => 0 out 6^G
ti cap --source --escape | \n => 0 out \n
ti trace --source --escape | \\E\n => 0 out place^Itoken          ^Irun    ^Istack                  ^Iwrote\n    0^I\\E             ^Iran    ^I-                      ^I\\E\noutput: \\E\nwritten: 1\nran: 1\npassed: 0\nheight: 0\ndepth: 0\nbound: 1\n
";

/// Notations with the name of a string before them, and such as have none.
const PASTED: &str = r"
ti cap --source n:4 n:9 | cup=\\E[%i%p1%d;%p2%dH, => 4 err source: HasName at 0\n  this starts with cup=: give the string alone, without a comma at its end\n
ti trace --source n:4 | cursor_address=%p1%d\n => 4 err source: HasName at 0\n  this starts with cursor_address=: give the string alone, without a comma at its end\n
# it comes before each other fault
ti cap --source | bel=%y\\ => 4 err source: HasName at 0\n  this starts with bel=: give the string alone, without a comma at its end\n
# a character in octal is of the string
ti cap --source | cup\\075b => 0 out cup=b
# no name, that of a number, one that no table has, and bytes as they stand
ti cap --source | a=b => 0 out a=b
ti cap --source | =b => 0 out =b
ti cap --source | cols=80 => 0 out cols=80
ti cap --source | \scup=b => 0 out \scup=b
ti cap --source | cup => 0 out cup
ti cap n:4 | cup=%p1%d => 0 out cup=4
";

/// Inputs that are no notation, or the notation of no capability.
const REFUSED: &str = r"
ti cap --source | abc\\ => 4 err source: CutShort at 3\n  nothing follows the last character; write \\\\ for a backslash, \\\^ for a caret\n
ti trace --source | %\^\^\n => 4 err source: CutShort at 2\n  nothing follows the last character; write \\\\ for a backslash, \\\^ for a caret\n
# the newline at the end is no part of it
ti cap --source | \\\n => 4 err source: CutShort at 0\n  nothing follows the last character; write \\\\ for a backslash, \\\^ for a caret\n
ti cap --source | a\^\200\n => 4 err source: BadControl at 1\n  \^ takes a printable ASCII character; write \\\^ for a caret\n
# a fault of the notation comes first
ti cap --source | %y\\ => 4 err source: CutShort at 2\n  nothing follows the last character; write \\\\ for a backslash, \\\^ for a caret\n
# places of a capability are of its bytes, and the caret is below the notation
ti cap --source | \\033\\033%y => 4 err capability: UnknownEscape at 2\n  \\E\\E%y\n      \^\n  this is no escape of terminfo(5); %d prints a number, %% a percent sign\n
# each fault of a capability has its sentence
ti cap --source | %p0 => 4 err capability: BadParameter at 0\n  %p0\n  \^\n  %p takes a digit from 1 to 9\n
ti cap --source | %P1 => 4 err capability: BadVariable at 0\n  %P1\n  \^\n  %P and %g take a letter\n
ti cap --source | a%{x} => 4 err capability: BadConstant at 1\n  a%{x}\n   \^\n  write %{5} with a number up to 2147483647, or %'c' with one character\n
ti cap --source | %300d => 4 err capability: BadFormat at 0\n  %300d\n  \^\n  a width or precision is above 255, or a flag does not go with the conversion\n
ti cap --source | %t => 4 err capability: StrayThen at 0\n  %t\n  \^\n  %t needs a %? before it\n
ti cap --source | %e => 4 err capability: StrayElse at 0\n  %e\n  \^\n  %e needs a %t before it\n
ti cap --source | %; => 4 err capability: StrayEnd at 0\n  %;\n  \^\n  %; needs a %? before it\n
ti cap --source | %p => 4 err capability: CutShort at 0\n  %p\n  \^\n  the string ends inside an escape; write %% for a percent sign\n
ti cap --source | %p1%p1%p1%p1%p1%p1%p1%p1%p1%p1%p1%p1%p1%p1%p1%p1%p1%p1%p1%p1%p1%p1%p1%p1%p1%p1%p1%p1%p1%p1%p1%p1%p1 => 4 err capability: StackTooDeep at 96\n  %p1%p1%p1%p1%p1%p1%p1%p1%p1%p1%p1%p1%p1%p1%p1%p1%p1%p1%p1%p1%p1%p1%p1%p1%p1%p1%p1%p1%p1%p1%p1%p1%p1\n                                                                                                  \^\n  more than 32 values are on the stack\n
ti cap --source | %?%p1%t%?%p1%t%?%p1%t%?%p1%t%?%p1%t%?%p1%t%?%p1%t%?%p1%t%?%p1%t%?%p1%t%?%p1%t%?%p1%t%?%p1%t%?%p1%t%?%p1%t%?%p1%t%?%p1%t%?%p1%t%?%p1%t%?%p1%t%?%p1%t%?%p1%t%?%p1%t%?%p1%t%?%p1%t%?%p1%t%?%p1%t%?%p1%t%?%p1%t%?%p1%t%?%p1%t%?%p1%t%?%p1%t => 4 err capability: NestTooDeep at 224\n  %?%p1%t%?%p1%t%?%p1%t%?%p1%t%?%p1%t%?%p1%t%?%p1%t%?%p1%t%?%p1%t%?%p1%t%?%p1%t%?%p1%t%?%p1%t%?%p1%t%?%p1%t%?%p1%t%?%p1%t%?%p1%t%?%p1%t%?%p1%t%?%p1%t%?%p1%t%?%p1%t%?%p1%t%?%p1%t%?%p1%t%?%p1%t%?%p1%t%?%p1%t%?%p1%t%?%p1%t%?%p1%t%?%p1%t\n                                                                                                                                                                                                                                  \^\n  more than 32 conditionals are open\n
ti trace --source | %?%p1\n => 4 err capability: NoThen at 5\n  %?%p1\n       \^\n  the conditional has no %t before here\n
";

#[test]
fn notations_are_expanded_as_their_texts(rt: HostRuntime) {
    check_rows(&rt, EXPANDED, &EndOf);
}

#[test]
fn a_name_before_a_notation_is_refused(rt: HostRuntime) {
    check_rows(&rt, PASTED, &EndOf);
}

#[test]
fn what_is_no_notation_is_refused(rt: HostRuntime) {
    check_rows(&rt, REFUSED, &EndOf);
}

/// So many NULs in octal, and what comes after them.
fn nuls(alloc: Global, count: usize, after: &[u8]) -> Result<Vec<u8>, Unfound> {
    let mut characters = Vec::new(alloc);
    for _ in 0..count {
        characters.extend_from_slice(b"\\000")?;
    }
    characters.extend_from_slice(after)?;
    Ok(characters)
}

/// How the run of a row ends over as many NULs as a capability may have, with how many bytes of output.
struct EndAfterNuls;

impl Finds for EndAfterNuls {
    fn find(&self, given: &Given<'_, '_>, found: &mut Vec<u8>) -> Result<(), Unfound> {
        let alloc = *found.allocator();
        let input = nuls(alloc, 32767, given.second)?;
        let end = end_of(alloc, given.words, input.as_slice());
        show_numbers(found, &[end.status as u64, end.output.len() as u64])?;
        Ok(found.extend_from_slice(end.errors.as_slice())?)
    }
}

/// The longest capability, and one that is longer, whatever the character is that is too many.
const LONGEST: &str = r"
ti cap --source | \n => 0 32767
ti cap --source | \\\n => 4 0capability: TooLong at 32767\n  a string has at most 32767 bytes\n
";

#[test]
fn the_longest_capability_has_four_characters_a_byte(rt: HostRuntime) {
    check_rows(&rt, LONGEST, &EndAfterNuls);
}
