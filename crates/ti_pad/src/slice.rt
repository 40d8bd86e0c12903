//! Padding a text into a slice of the caller.
//!
//! Bytes that mean themselves are copied as they lie in the text, the pad bytes of a mark are filled in at once. No
//! memory is taken.

ghost use Rattle.std.specs.Prelude.{◌≡◌, ◌≤◌, ◌+◌, ◌++◌, ◌↔◌, Err, length, take, drop, IfOk, OnErr};
ghost use Rattle.ti_pad.specs.Padded.{padded_text};
ghost use Rattle.ti_pad.specs.Into.{IsPadIntoFault};
ghost use Rattle.ti_pad.specs.inner.Stretch.{stretch_bytes};

use crate::length::padded_len;
use crate::padding::Padding;
use crate::stretch::{Stretch, first_stretch};
use thiserror::Error;
use ti_base::MOST_PADDED_BYTES;

/// Why a text is not padded into a slice. As an error it prints its name, and its number after a blank.
#[derive(Clone, Copy, Debug, PartialEq, Eq, Error)]
pub enum PadIntoFault {
    /// The padded text would have this many bytes, more than [`MOST_PADDED_BYTES`].
    #[error("TooMuch {need}")]
    TooMuch { need: u128 },
    /// The slice has fewer bytes than the padded text, which has this many.
    #[error("OutTooSmall {need}")]
    OutTooSmall { need: u64 },
}

/// Pads a text into the slice, and returns the length of the padded text. The bytes of the slice after it are as before.
///
/// # Errors
/// In this order, each only if it holds: [`PadIntoFault::TooMuch`] if the padded text has more than
/// [`MOST_PADDED_BYTES`], [`PadIntoFault::OutTooSmall`] if it has more than the slice. After either the slice is as
/// before.
pub fn pad_into(bytes: &[u8], padding: &Padding, out: &mut [u8]) -> Result<usize, PadIntoFault>
    ensures faults { (fault : PadIntoFault) → (result ≡ Err fault)
        ↔ IsPadIntoFault (padded_text bytes.now padding.now) (length out.old) fault }
    ensures kept { OnErr result (out.new ≡ out.old) }
    ensures len { IfOk result (λ n. n ≡ length (padded_text bytes.now padding.now)) }
    ensures text { IfOk result (λ n. take n out.new ≡ padded_text bytes.now padding.now) }
    ensures rest { IfOk result (λ n. drop n out.new ≡ drop n out.old) }
{
    let need = padded_len(bytes, padding);
    if need > MOST_PADDED_BYTES {
        return Err(PadIntoFault::TooMuch { need });
    }
    let need = need as u64;
    if need > out.len() as u64 {
        return Err(PadIntoFault::OutTooSmall { need });
    }
    put_padded(bytes, padding, out);
    Ok(need as usize)
}

/// Puts the padded text at the front of the slice, which has room for it.
pub fn put_padded(bytes: &[u8], padding: &Padding, out: &mut [u8])
    requires { length (padded_text bytes.now padding.now) ≤ length out.old }
    ensures { out.new ≡ padded_text bytes.now padding.now
        ++ drop (length (padded_text bytes.now padding.now)) out.old }
{
    let mut rest = bytes;
    let mut at = 0;
    'stretches: while !rest.is_empty() {
        let front = first_stretch(rest, padding);
        at = put_stretch(out, at, &front.stretch, padding);
        rest = front.rest;
    }
}

/// Puts a stretch at a place, and returns the place after it.
fn put_stretch(out: &mut [u8], at: usize, stretch: &Stretch<'_>, padding: &Padding) -> usize
    requires { at + length (stretch_bytes padding.now.pad stretch.now) ≤ length out.old }
    ensures end { result ≡ at + length (stretch_bytes padding.now.pad stretch.now) }
    ensures written { take result out.new
        ≡ take at out.old ++ stretch_bytes padding.now.pad stretch.now }
    ensures rest { drop result out.new ≡ drop result out.old }
{
    let end = at + stretch.len() as usize;
    match stretch {
        Stretch::Literal(bytes) => out[at..end].copy_from_slice(bytes),
        Stretch::Pads(_) => out[at..end].fill(padding.pad_byte()),
    }
    end
}
