//! The length of a notation.
//!
//! One pass over the text, without the notation itself.

ghost use Rattle.std.specs.Prelude.{◌≡◌, ◌≤◌, ◌*◌, length};
ghost use Rattle.ti_escape.specs.Notation.{notation};
ghost use Rattle.ti_escape.specs.inner.Stretch.{span_notation};

use crate::stretch::{Span, first_stretch, parts_of};

/// How many characters the notation of a text has: at most four for each of its bytes.
pub fn notation_len(text: &[u8]) -> u128
    ensures value { result ≡ length (notation text.now) }
    ensures few { result ≤ 4 * length text.now }
{
    let parts = parts_of(text);
    parts.first.len() as u128 + span_len(parts.middle) + parts.last.len() as u128
}

/// How many characters the notation of a span has.
pub fn span_len(span: Span<'_>) -> u128
    ensures value { result ≡ length (span_notation span.entry) }
    ensures few { result ≤ 4 * length span.entry.bytes.now }
{
    let mut rest = span;
    let mut total: u128 = 0;
    'stretches: while !rest.bytes.is_empty() {
        let front = first_stretch(rest);
        total += front.stretch.len() as u128;
        rest = front.rest;
    }
    total
}
