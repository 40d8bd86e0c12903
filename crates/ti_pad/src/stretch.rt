//! A text in stretches: bytes that mean themselves, and pad bytes.
//!
//! The next stretch is found by one look at its bytes. No memory is taken.

ghost use Rattle.std.specs.Prelude.{◌≡◌, ◌≤◌, ◌<◌, ◌+◌, ◌*◌, ◌++◌, ℕ, length};
ghost use Rattle.std.specs.List.{prefix_len};
ghost use Rattle.ti_pad.specs.Padded.{padded_text};
ghost use Rattle.ti_pad.specs.inner.Stretch.{is_plain, stretch_bytes};

use crate::find_mark::mark_at_front;
use crate::padding::{MOST_COUNT, Padding};

/// Bytes that mean themselves, or this many pad bytes.
#[derive(Clone, Copy)]
pub enum Stretch<'a> {
    Literal(&'a [u8]),
    Pads(u64),
}

/// The stretch at the front of some bytes, and the bytes after it.
#[derive(Clone, Copy)]
pub struct Front<'a> {
    pub stretch: Stretch<'a>,
    pub rest: &'a [u8],
}

impl Stretch<'_> {
    /// The number of its bytes.
    pub fn len(&self) -> u64
        ensures { (pad : ℕ) → result ≡ length (stretch_bytes pad self.now) }
    {
        match self {
            Stretch::Literal(bytes) => bytes.len() as u64,
            Stretch::Pads(count) => *count,
        }
    }
}

/// How many bytes stand before the first `$`.
fn plain_len(bytes: &[u8]) -> usize
    ensures count { result ≡ prefix_len is_plain bytes.now }
    ensures within { result ≤ length bytes.now }
{
    bytes.iter().take_while(|b| **b != b'$').count()
}

/// The stretch at the front: the pad bytes of a mark, or else the bytes up to the next place where a mark may start.
pub fn first_stretch<'a>(bytes: &'a [u8], padding: &Padding) -> Front<'a>
    requires { 0 < length bytes.now }
    ensures text { padded_text bytes.now padding.now
        ≡ stretch_bytes padding.now.pad result.stretch ++ padded_text result.rest.now padding.now }
    ensures shorter { length result.rest.now < length bytes.now }
    ensures few { length (stretch_bytes padding.now.pad result.stretch)
        + MOST_COUNT * length result.rest.now ≤ MOST_COUNT * length bytes.now }
{
    match mark_at_front(bytes) {
        Some(found) => Front {
            stretch: Stretch::Pads(padding.count(&found.mark)),
            rest: found.rest,
        },
        None => {
            let len = 1 + plain_len(&bytes[1..]);
            Front {
                stretch: Stretch::Literal(&bytes[..len]),
                rest: &bytes[len..],
            }
        }
    }
}
