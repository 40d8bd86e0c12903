//! Which texts are tried, and over what.

ghost use Rattle.std.specs.Prelude.{◌≡◌, ◌≤◌, map};
ghost use Rattle.ti_values.specs.Screens.{limited, texts_within, tried_texts};
ghost use Rattle.ti_values.specs.inner.Rows.{row_of};

use crate::limits::{MOST_COLORS, MOST_COLUMNS, MOST_LINES};
use crate::range::Range;

/// A number of an entry as far as it is tried.
fn limited(most: u16, number: i32) -> u16
    ensures value { result ≡ limited most number }
    ensures low { result ≤ most }
{
    if number < 0 {
        return 0;
    }
    if number > i32::from(most) {
        return most;
    }
    number as u16
}

/// The texts that are tried, for a screen of so many lines, columns and colors.
fn texts_within(lines: u16, columns: u16, colors: u16) -> [(&'static str, Range); 20]
    requires lines { lines ≤ MOST_LINES }
    requires columns { columns ≤ MOST_COLUMNS }
    ensures { map row_of result ≡ texts_within lines columns colors }
{
    let colors = Range::Numbers(0, colors);
    let below_columns = Range::Numbers(0, columns);
    let below_lines = Range::Numbers(0, lines);
    let to_columns = Range::Numbers(1, columns + 1);
    let to_lines = Range::Numbers(1, lines + 1);
    [
        ("setaf", colors),
        ("setab", colors),
        ("setf", colors),
        ("setb", colors),
        ("cup", Range::Places(lines, columns)),
        ("csr", Range::Regions(lines)),
        ("hpa", below_columns),
        ("vpa", below_lines),
        ("cub", to_columns),
        ("cuf", to_columns),
        ("dch", to_columns),
        ("ech", to_columns),
        ("ich", to_columns),
        ("cud", to_lines),
        ("cuu", to_lines),
        ("dl", to_lines),
        ("il", to_lines),
        ("indn", to_lines),
        ("rin", to_lines),
        ("sgr", Range::Attributes),
    ]
}

/// The names of the texts that are tried, each with what it is tried over, for the numbers of an entry. One that is absent is 0,
/// and texts that it is needed for are tried over nothing; of one above [`MOST_LINES`], [`MOST_COLUMNS`] or [`MOST_COLORS`] no
/// more is tried.
#[tactic(auto, unfolding(crate::specs::Screens::tried_texts))]
pub fn tried_texts(lines: i32, columns: i32, colors: i32) -> [(&'static str, Range); 20]
    ensures all { map row_of result ≡ tried_texts lines columns colors }
{
    texts_within(
        limited(MOST_LINES, lines),
        limited(MOST_COLUMNS, columns),
        limited(MOST_COLORS, colors),
    )
}
