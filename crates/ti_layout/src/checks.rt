//! The checks of single bytes, and of the texts and names of a table.
//!
//! Each function returns the verdict of the checks that its clause names, whose prefixes are there. Whether texts
//! have their NULs is decided for all of them from one look for the last NUL of the table.

ghost use Rattle.std.specs.Prelude.{◌≡◌, ◌+◌, ◌*◌, ◌<◌, ◌≤◌, ◌^◌, ◌∷◌, [], length, map, IsTrue};
ghost use Rattle.ti_layout.specs.Layout.{places, pad_end};
ghost use Rattle.ti_layout.specs.Checks.{verdict, result_verdict, nul_check, pad_checks, ending_check, name_place_checks, all_name_place_checks, is_offset_below as the_is_offset_below};
ghost use Rattle.ti_layout.specs.LastNul.{AreOffsetsBelow, IsAfterLastNul, is_before as the_is_before};

use crate::fault::{Fault, Refused};
use crate::greatest::{are_below, are_names};
use crate::word::{count_at, word_at};

/// A string table: its bytes, where it ends, and the place after its last NUL.
#[derive(Clone, Copy)]
pub(crate) struct Table<'a> {
    pub(crate) bytes: &'a [u8],
    pub(crate) end: usize,
    pub(crate) after_last_nul: usize,
}

/// Whether an offset is a mark, or a place below the size of the table.
pub(crate) fn is_offset_below(size: usize, offset: i16) -> bool
    ensures { result ≡ the_is_offset_below size offset }
{
    if offset < 0 {
        offset >= -2
    } else {
        (offset as usize) < size
    }
}

/// Whether an offset is a mark, or a place before another.
fn is_before(end: usize, offset: i16) -> bool
    ensures { result ≡ the_is_before end offset }
{
    offset < 0 || (offset as usize) < end
}

/// The place after the last NUL of a table: the texts that start before it end in the table.
pub(crate) fn after_last_nul(table: &[u8]) -> usize
    ensures { IsAfterLastNul table.now result }
{
    let mut after = table.len();
    'back: while after > 0 {
        if table[after - 1] == 0 {
            return after;
        }
        after -= 1;
    }
    0
}

/// A NUL stands at a place.
pub(crate) fn check_nul(bytes: &[u8], fault: Fault, place: usize) -> Result<(), Refused>
    requires { place + 1 ≤ length bytes.now }
    ensures { result_verdict result
        ≡ verdict (length bytes.now) (nul_check bytes.now fault place ∷ []) }
{
    if bytes[place] != 0 {
        return Err(Refused { fault, place });
    }
    Ok(())
}

/// The byte at an odd place is 0.
pub(crate) fn check_pad(bytes: &[u8], place: usize) -> Result<(), Refused>
    requires { pad_end place ≤ length bytes.now }
    ensures { result_verdict result ≡ verdict (length bytes.now) (pad_checks bytes.now place) }
{
    if place % 2 == 0 {
        return Ok(());
    }
    check_nul(bytes, Fault::BadPad, place)
}

/// The text whose offset stands at a place has its NUL in the table.
fn check_ending(bytes: &[u8], table: &Table<'_>, place: usize) -> Result<(), Refused>
    requires within { place + 2 ≤ table.now.end }
    requires there { table.now.end ≤ length bytes.now }
    requires last_nul { IsAfterLastNul table.now.bytes.now table.now.after_last_nul }
    ensures { result_verdict result ≡ verdict (length bytes.now)
        (ending_check bytes.now table.now.bytes.now table.now.end place ∷ []) }
{
    if !is_before(table.after_last_nul, word_at(bytes, place)) {
        return Err(Refused {
            fault: Fault::Unterminated,
            place,
        });
    }
    Ok(())
}

/// The name whose offset stands at a place starts in the table, counted from the base, and has its NUL there.
fn check_name_place(
    bytes: &[u8],
    table: &Table<'_>,
    base: usize,
    place: usize,
) -> Result<(), Refused>
    requires within { place + 2 ≤ table.now.end }
    requires there { table.now.end ≤ length bytes.now }
    requires last_nul { IsAfterLastNul table.now.bytes.now table.now.after_last_nul }
    requires small { base < 2 ^ 32 }
    ensures { result_verdict result ≡ verdict (length bytes.now)
        (name_place_checks bytes.now table.now.bytes.now base table.now.end place) }
{
    let start = base + count_at(bytes, place);
    if start >= table.bytes.len() {
        return Err(Refused {
            fault: Fault::BadExtendedName,
            place,
        });
    }
    if start >= table.after_last_nul {
        return Err(Refused {
            fault: Fault::Unterminated,
            place,
        });
    }
    Ok(())
}

/// Each text that is there has its NUL in the table. If all start in it, as may be known, and it ends with a NUL, they do.
pub(crate) fn check_endings(
    bytes: &[u8],
    table: &Table<'_>,
    from: usize,
    count: usize,
    below: bool,
) -> Result<(), Refused>
    requires before { from + 2 * count ≤ table.now.end }
    requires there { table.now.end ≤ length bytes.now }
    requires last_nul { IsAfterLastNul table.now.bytes.now table.now.after_last_nul }
    requires below { IsTrue below
        → AreOffsetsBelow bytes.now (length table.now.bytes.now) from count }
    ensures { result_verdict result ≡ verdict (length bytes.now)
        (map (ending_check bytes.now table.now.bytes.now table.now.end) (places from 2 count)) }
{
    if below && table.after_last_nul == table.bytes.len() {
        return Ok(());
    }
    if are_below(bytes, table.after_last_nul, from, count) {
        return Ok(());
    }
    for i in 0..count {
        check_ending(bytes, table, from + 2 * i)?;
    }
    Ok(())
}

/// Each name starts in the table, counted from the base, and has its NUL there.
pub(crate) fn check_name_places(
    bytes: &[u8],
    table: &Table<'_>,
    base: usize,
    from: usize,
    count: usize,
) -> Result<(), Refused>
    requires before { from + 2 * count ≤ table.now.end }
    requires there { table.now.end ≤ length bytes.now }
    requires last_nul { IsAfterLastNul table.now.bytes.now table.now.after_last_nul }
    requires small { base < 2 ^ 32 }
    ensures { result_verdict result ≡ verdict (length bytes.now) (all_name_place_checks bytes.now
        table.now.bytes.now base table.now.end (places from 2 count)) }
{
    if are_names(bytes, table, base, from, count) {
        return Ok(());
    }
    for i in 0..count {
        check_name_place(bytes, table, base, from + 2 * i)?;
    }
    Ok(())
}
