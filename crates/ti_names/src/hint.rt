//! The one capability that can have a name.
//!
//! A hash of the name, with a step for each byte, leads through two tables to a row. That each name leads to its own row is
//! proved, and another name leads to any row: so a name has to be compared with that of its row, and with no other.

ghost use Rattle.std.specs.Prelude.{◌≡◌};
ghost use Rattle.ti_names.specs.inner.Hints.{IsOnlyPlace, IsRowOf, place_of_row};

use crate::slots::{MULTIPLIER, SHIFTS, SLOTS};
use crate::table::{FLAGS, NUMBERS};
use ti_words::Kind;

/// The kind and the index of the only capability that can have a name, short or long.
pub(crate) fn only_place(name: &[u8]) -> (Kind, usize)
    ensures { IsOnlyPlace name.now result }
{
    place_of_row(row_of(name))
}

/// The number of the row with a name, short or long, if a row has it.
fn row_of(name: &[u8]) -> usize
    ensures { IsRowOf name.now result }
{
    let mut hash: u32 = 0;
    for byte in name {
        hash = hash.wrapping_mul(MULTIPLIER).wrapping_add(u32::from(*byte));
    }
    let shift = u32::from(SHIFTS[(hash % 256) as usize]);
    usize::from(SLOTS[((hash / 256 + shift) % 2048) as usize])
}

/// The kind and the index of the capability of a row: flags stand before numbers before texts.
#[tactic(auto, unfolding(crate::specs::NameLists::all_flags, crate::specs::NameLists::all_numbers))]
fn place_of_row(row: usize) -> (Kind, usize)
    ensures { result ≡ place_of_row row }
{
    if row < FLAGS.len() {
        (Kind::Flag, row)
    } else if row < FLAGS.len() + NUMBERS.len() {
        (Kind::Number, row - FLAGS.len())
    } else {
        (Kind::Text, row - (FLAGS.len() + NUMBERS.len()))
    }
}
