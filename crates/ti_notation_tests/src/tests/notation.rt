//! Worked rows of the notation, from terminfo(5), `infocmp -1`, `tic` and by hand.

use crate::tests::check_rows;
use std::alloc::{AllocError, Allocator};
use ti_escape::{
    Form, escape_into, formed_len, notation_len, push_formed, push_label, push_notation, push_shown,
};
use ti_fixtures::{Finds, Given, Unfound, only_if, show_debug};

/// A text of entries or of the rules, and its notation.
const ROWS: &str = r"
- => -
\E[%i%p1%d;%p2%dH => \\E[%i%p1%d;%p2%dH
^G => \^G
^? => \^?
++,,--..00``aaff => ++\\,\\,--..00``aaff
+>,<-\^.v0\333`+a\261f\370 => +>\\,<-\\\^.v0\\333`+a\\261f\\370
\E[m^O$<2> => \\E[m\^O$<2>
\E[?5h$<200/>\E[?5l => \\E[?5h$<200/>\\E[?5l
\Ec\E]R => \\Ec\\E]R
\E^I => \\E\^I
\\\^, => \\\\\\\^\\,
\s => \\s
\s\s => \\s\\s
\sa b\s => \\sa b\\s
\000^A^_ ! => \\000\^A\^_ !
~^?\200\377 => ~\^?\\200\\377
\055 => \\055
-- => --
cancelled => \\143ancelled
cancelled\s => cancelled\\s
%p1%d%%^M => %p1%d%%\\015
%^A => %\\001
%^A^Aa => %\\001\^Aa
%^\,%^^, => %\\034\\,%\\036\\,
a%^?%^_. => a%\\177%\\037.
%\E%\E => %\\E%\\E
%\^%\\%,%% => %\\\^%\\\\%\\,%%
% %\s => % %\\s
";

/// The notation of a text in the front of a slice, whose other bytes stay as they are.
struct InSlice;

impl Finds for InSlice {
    fn find(&self, given: &Given<'_, '_>, found: &mut Vec<u8>) -> Result<(), Unfound> {
        let mut room = [b'~'; 40];
        let len = escape_into(given.bytes, &mut room).ok_or("no room")?;
        found.extend_from_slice(room.get(..len).unwrap_or(b"too long"))?;
        let is_rest_kept = room.get(len..) == [b'~'; 40].get(len..);
        only_if(is_rest_kept && notation_len(given.bytes) == len as u128)
    }
}

#[test]
fn notations_are_written_into_slices(rt: HostRuntime) {
    check_rows(&rt, ROWS, &InSlice);
}

/// Adds what is left of bytes after the two that were there before others were pushed.
fn add_after_two(found: &mut Vec<u8>, made: &[u8]) -> Result<(), Unfound> {
    Ok(found.extend_from_slice(made.strip_prefix(b"= ").ok_or("the front")?)?)
}

/// The notation of a text that is pushed.
struct Pushed;

impl Finds for Pushed {
    fn find(&self, given: &Given<'_, '_>, found: &mut Vec<u8>) -> Result<(), Unfound> {
        let mut made = Vec::from_slice(*found.allocator(), b"= ")?;
        push_notation(&mut made, given.bytes)?;
        add_after_two(found, made.as_slice())
    }
}

#[test]
fn notations_are_pushed(rt: HostRuntime) {
    check_rows(&rt, ROWS, &Pushed);
}

/// Texts, the length of their notation, and what a slice of four bytes holds after it.
const IN_FOUR: &str = r"
\EH\s => None ~~~~
\EH, => None ~~~~
\E\s => Some(4) \\E\\s
";

/// The notation of a text in a slice of four bytes.
struct InFour;

impl Finds for InFour {
    fn find(&self, given: &Given<'_, '_>, found: &mut Vec<u8>) -> Result<(), Unfound> {
        let mut room = [b'~'; 4];
        show_debug(found, &escape_into(given.bytes, &mut room))?;
        found.push(b' ')?;
        Ok(found.extend_from_slice(&room)?)
    }
}

#[test]
fn a_slice_needs_the_whole_notation(rt: HostRuntime) {
    check_rows(&rt, IN_FOUR, &InFour);
}

/// A line for which memory is taken once.
fn line_of<A: Allocator>(alloc: A, text: &[u8]) -> Result<Vec<u8, A>, AllocError> {
    let Ok(len) = usize::try_from(notation_len(text) + 1) else {
        return Err(AllocError);
    };
    let mut line = Vec::with_capacity(alloc, len)?;
    push_notation(&mut line, text)?;
    line.push(b'\n')?;
    Ok(line)
}

/// The line of a text, in exactly the memory that it needs.
struct LineOf;

impl Finds for LineOf {
    fn find(&self, given: &Given<'_, '_>, found: &mut Vec<u8>) -> Result<(), Unfound> {
        let line = line_of(*found.allocator(), given.bytes)?;
        found.extend_from_slice(line.as_slice())?;
        only_if(line.capacity() == line.len())
    }
}

#[test]
fn a_notation_uses_the_room_that_is_there(rt: HostRuntime) {
    check_rows(
        &rt,
        r"\E[?1;2c\000\200\s => \\E[?1;2c\\000\\200\\s\n",
        &LineOf,
    );
}

/// A name, and its label.
const LABELS: &str = r"
- => -
XM => XM
\s => \\s
\sa  b\s => \\sa\\s\\sb\\s
a=1,b\n^I\E => a=1\\,b\^J\^I\\E
100%^G^G %\s => 100%\\007\^G\\s%\\s
\000\200\377~^? => \\000\\200\\377~\^?
\055 => \055
cancelled => cancelled
";

/// The label of a name.
struct LabelOf;

impl Finds for LabelOf {
    fn find(&self, given: &Given<'_, '_>, found: &mut Vec<u8>) -> Result<(), Unfound> {
        let mut made = Vec::from_slice(*found.allocator(), b"= ")?;
        push_label(&mut made, given.bytes)?;
        add_after_two(found, made.as_slice())
    }
}

#[test]
fn labels_are_pushed(rt: HostRuntime) {
    check_rows(&rt, LABELS, &LabelOf);
}

/// A label of nine bytes, in a vector that has room for as many.
struct LabelInNine;

impl Finds for LabelInNine {
    fn find(&self, given: &Given<'_, '_>, found: &mut Vec<u8>) -> Result<(), Unfound> {
        let mut made = Vec::with_capacity(*found.allocator(), 9)?;
        push_label(&mut made, given.bytes)?;
        found.extend_from_slice(made.as_slice())?;
        only_if(made.capacity() == made.len())
    }
}

#[test]
fn a_label_uses_the_room_that_is_there(rt: HostRuntime) {
    check_rows(&rt, r"\s%^A\s => \\s%\\001\\s", &LabelInNine);
}

/// A text, and how a listing shows it in hex.
const SHOWN_IN_HEX: &str = r"
- => \055
\055 => 2d
\E[H => 1b5b48
\000 \377 => 0020ff
";

/// The same in the notation.
const SHOWN: &str = r"
- => \055
\055 => \\055
\E[H => \\E[H
\000 \377 => \\000 \\377
";

/// A text as a listing shows it in a form.
struct ShownIn(Form);

impl Finds for ShownIn {
    fn find(&self, given: &Given<'_, '_>, found: &mut Vec<u8>) -> Result<(), Unfound> {
        let mut made = Vec::from_slice(*found.allocator(), b"= ")?;
        push_shown(&mut made, self.0, given.bytes)?;
        add_after_two(found, made.as_slice())
    }
}

#[test]
fn texts_are_shown_in_hex(rt: HostRuntime) {
    check_rows(&rt, SHOWN_IN_HEX, &ShownIn(Form::Hex));
}

#[test]
fn texts_are_shown_in_the_notation(rt: HostRuntime) {
    check_rows(&rt, SHOWN, &ShownIn(Form::Notation));
}

/// Bytes, and what they are in hex and then in the notation, after what was there before.
const IN_BOTH_FORMS: &str = r"
- => =\s
\^ => = 5e\\\^
";

/// Bytes in hex, and then in the notation.
struct InBothForms;

impl Finds for InBothForms {
    fn find(&self, given: &Given<'_, '_>, found: &mut Vec<u8>) -> Result<(), Unfound> {
        found.extend_from_slice(b"= ")?;
        push_formed(found, Form::Hex, given.bytes)?;
        Ok(push_formed(found, Form::Notation, given.bytes)?)
    }
}

#[test]
fn bytes_are_pushed_in_both_forms(rt: HostRuntime) {
    check_rows(&rt, IN_BOTH_FORMS, &InBothForms);
}

/// Bytes, and their lengths in hex and in the notation.
const LENGTHS: &str = r"
\^ => (2, 2)
\^\000 => (4, 6)
";

/// The lengths of bytes in hex and in the notation.
struct FormedLengths;

impl Finds for FormedLengths {
    fn find(&self, given: &Given<'_, '_>, found: &mut Vec<u8>) -> Result<(), Unfound> {
        let in_hex = formed_len(Form::Hex, given.bytes);
        show_debug(found, &(in_hex, formed_len(Form::Notation, given.bytes)))
    }
}

#[test]
fn bytes_in_both_forms_have_their_lengths(rt: HostRuntime) {
    check_rows(&rt, LENGTHS, &FormedLengths);
}
