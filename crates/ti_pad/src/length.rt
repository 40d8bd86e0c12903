//! The length of a padded text.
//!
//! One pass over the text, without the padded bytes.

ghost use Rattle.std.specs.Prelude.{◌≡◌, length};
ghost use Rattle.ti_pad.specs.Padded.{padded_text};

use crate::padding::Padding;
use crate::stretch::first_stretch;

/// How many bytes the padded text has.
pub fn padded_len(bytes: &[u8], padding: &Padding) -> u128
    ensures { result ≡ length (padded_text bytes.now padding.now) }
{
    let mut rest = bytes;
    let mut total: u128 = 0;
    'stretches: while !rest.is_empty() {
        let front = first_stretch(rest, padding);
        total += u128::from(front.stretch.len());
        rest = front.rest;
    }
    total
}
