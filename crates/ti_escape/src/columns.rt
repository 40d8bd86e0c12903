//! Where the notation of a byte stands in that of its text.
//!
//! Each call goes once over the bytes between the places that it is given.

ghost use Rattle.std.specs.Prelude.{◌≡◌, ◌+◌, ◌-◌, ◌*◌, ◌<◌, ◌≤◌, length};
ghost use Rattle.ti_escape.specs.Notation.{column as the_column};

use crate::length::{notation_len, span_len};
use crate::stretch::{Space, Span, start_stretch};

/// How many characters of the notation of a text stand before that of the byte at a place. All of them do if the place is
/// the end.
///
/// # Examples
///
/// ```rust
/// assert!(rt; column(b"\x1b[%i", 2) == 3);
/// ```
pub fn column(text: &[u8], place: usize) -> u128
    ensures value { result ≡ the_column text.now place }
    ensures few { result ≤ 4 * place }
{
    if place == 0 {
        return 0;
    }
    if place >= text.len() {
        return notation_len(text);
    }
    let span = Span {
        space: Space::Kept,
        before: text[0],
        bytes: &text[1..place],
    };
    start_stretch(text, &text[0]).len() as u128 + span_len(span)
}

/// How many more characters stand before that of the byte at one place than before that at an earlier one.
pub fn columns_between(text: &[u8], from: usize, to: usize) -> u128
    requires order { from ≤ to }
    requires within { to < length text.now }
    ensures value { the_column text.now from + result ≡ the_column text.now to }
    ensures few { result ≤ 4 * (to - from) }
{
    if from == 0 {
        return column(text, to);
    }
    let span = Span {
        space: Space::Kept,
        before: text[from - 1],
        bytes: &text[from..to],
    };
    span_len(span)
}
