//! Worked rows of padding, and its limits.

use crate::tests::check_rows;
use ti_fixtures::{Finds, Given, Unfound, are_shown, number_of, only_if, show_debug};
use ti_pad::{PadFault, PadIntoFault, PadStop, Padding, pad, pad_into, padded_len, write_padded};

/// Padding within the limits.
pub fn padding_of(rate: u32, lines: u32, xon: bool) -> Result<Padding, Unfound> {
    Ok(Padding::new(rate, lines, xon, 0).ok_or("padding")?)
}

/// A text, the rate of the line, the affected lines, whether marks that xon makes needless vanish, and the padded text.
const ROWS: &str = r"
\E[H$<5*/> | 960 | 2 | true => \E[H\000\000\000\000\000\000\000\000\000\000
$<5> | 960 | 1 | true => -
$<5> | 960 | 1 | false => \000\000\000\000\000
$<1.55> | 9600 | 1 | false => \000\000\000\000\000\000\000\000\000\000\000\000\000\000\000
$<.5/> | 960 | 1 | false => \000
$<x> | 960 | 1 | false => $<x>
$<.> | 960 | 1 | false => $<.>
$<100000> | 960 | 1 | false => $<100000>
a$<5/*>$ | 100 | 3 | true => a\000\000$
$<$<1.> | 1000 | 1 | false => $<\000
- | 960 | 1 | false => -
";

/// The padding of a row.
fn padding_in(given: &Given<'_, '_>) -> Result<Padding, Unfound> {
    let [_, rate, lines, xon, ..] = given.fields();
    padding_of(rate.parse::<u32>()?, lines.parse::<u32>()?, xon == "true")
}

/// A text padded in a vector, which has the length that was computed before.
struct InVector;

impl Finds for InVector {
    fn find(&self, given: &Given<'_, '_>, found: &mut Vec<u8>) -> Result<(), Unfound> {
        let padding = padding_in(given)?;
        let made = pad(*found.allocator(), given.bytes, &padding)?;
        found.extend_from_slice(made.as_slice())?;
        only_if(padded_len(given.bytes, &padding) == made.len() as u128)
    }
}

#[test]
fn texts_are_padded_in_vectors(rt: HostRuntime) {
    check_rows(&rt, ROWS, &InVector);
}

/// A text padded as it is written.
struct AsWritten;

impl Finds for AsWritten {
    fn find(&self, given: &Given<'_, '_>, found: &mut Vec<u8>) -> Result<(), Unfound> {
        let padding = padding_in(given)?;
        Ok(write_padded(found, given.bytes, &padding)?)
    }
}

#[test]
fn texts_are_padded_as_they_are_written(rt: HostRuntime) {
    check_rows(&rt, ROWS, &AsWritten);
}

/// A text padded into the front of a slice, whose other bytes stay as they are.
struct InSlice;

impl Finds for InSlice {
    fn find(&self, given: &Given<'_, '_>, found: &mut Vec<u8>) -> Result<(), Unfound> {
        let mut room = [b'~'; 32];
        let padding = padding_in(given)?;
        let len = pad_into(given.bytes, &padding, &mut room)?;
        found.extend_from_slice(room.get(..len).unwrap_or(b"too long"))?;
        only_if(room.get(len..) == [b'~'; 32].get(len..))
    }
}

#[test]
fn texts_are_padded_in_slices(rt: HostRuntime) {
    check_rows(&rt, ROWS, &InSlice);
}

#[test]
fn padding_has_limits(rt: HostRuntime) {
    assert_that!(rt; Padding::new(1_000_001, 1, false, 0).is_none());
    assert_that!(rt; Padding::new(1, 65_536, false, 0).is_none());
    assert_that!(rt; Padding::new(1_000_000, 65_535, false, 0).is_some());
}

/// Texts with the most pad bytes that a mark can ask for, and how long they would be.
const TOO_MUCH: &str = r"
$<99999*> | 1000000 | 65535 | false => 6553434465000
a$<99999*> | 1000000 | 65535 | false => 6553434465001
";

/// How long a padded text would be, which is why it is neither made nor written, nor put into a slice.
struct TooMuch;

impl Finds for TooMuch {
    fn find(&self, given: &Given<'_, '_>, found: &mut Vec<u8>) -> Result<(), Unfound> {
        let padding = padding_in(given)?;
        let need = padded_len(given.bytes, &padding);
        let mut room = [b'~'; 4];
        let is_not_made = pad(*found.allocator(), given.bytes, &padding).err()
            == Some(PadFault::TooMuch { need });
        let is_not_written = write_padded(found, given.bytes, &padding)
            == Err(PadStop::TooMuch { need });
        let is_not_put = pad_into(given.bytes, &padding, &mut room)
            == Err(PadIntoFault::TooMuch { need });
        only_if(is_not_made && is_not_written && is_not_put && found.is_empty())?;
        only_if(room == [b'~'; 4])?;
        show_debug(found, &need)
    }
}

#[test]
fn too_much_padding_is_refused(rt: HostRuntime) {
    check_rows(&rt, TOO_MUCH, &TooMuch);
}

/// Texts with padding of a pad byte a millisecond, what comes of them in a slice of six bytes, and what it then holds.
const IN_SIX: &str = r"
ab$<3>cd => Err(OutTooSmall { need: 7 }) ~~~~~~
ab$<3>c => Ok(6) ab\000\000\000c
";

/// A text padded into a slice of six bytes.
struct InSix;

impl Finds for InSix {
    fn find(&self, given: &Given<'_, '_>, found: &mut Vec<u8>) -> Result<(), Unfound> {
        let mut room = [b'~'; 6];
        let padding = padding_of(1000, 1, false)?;
        show_debug(found, &pad_into(given.bytes, &padding, &mut room))?;
        found.push(b' ')?;
        Ok(found.extend_from_slice(&room)?)
    }
}

#[test]
fn a_slice_needs_the_whole_padded_text(rt: HostRuntime) {
    check_rows(&rt, IN_SIX, &InSix);
}

/// The most pad bytes that a mark can ask for.
const MOST: u128 = 6_553_434_465_000;

#[test]
fn faults_of_padding_are_shown(rt: HostRuntime) {
    let too_much = PadFault::TooMuch { need: MOST };
    let faults = [
        (too_much, "TooMuch 6553434465000"),
        (PadFault::Memory, "Memory"),
    ];
    assert_that!(rt; are_shown(rt.alloc(), &faults));
}

#[test]
fn stops_of_padding_are_shown(rt: HostRuntime) {
    let (too_much, failed) = (PadStop::TooMuch { need: MOST }, PadStop::Failed { gone: 2 });
    let stops = [(too_much, "TooMuch 6553434465000"), (failed, "Failed 2")];
    assert_that!(rt; are_shown(rt.alloc(), &stops));
}

#[test]
fn faults_of_padding_in_slices_are_shown(rt: HostRuntime) {
    let too_much = PadIntoFault::TooMuch { need: MOST };
    let too_small = PadIntoFault::OutTooSmall { need: 7 };
    let faults = [
        (too_much, "TooMuch 6553434465000"),
        (too_small, "OutTooSmall 7"),
    ];
    assert_that!(rt; are_shown(rt.alloc(), &faults));
}
