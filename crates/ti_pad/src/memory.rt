//! Padding a text in memory.
//!
//! The memory is taken once, for exactly the padded text.

ghost use Rattle.std.specs.Prelude.{◌≡◌, ◌≤◌, ◌<◌, ◌⊎◌, ◌↔◌, length, Err, IfOk, IfErr};
ghost use Rattle.ti_base.specs.Limits.{most_padded_bytes};
ghost use Rattle.ti_pad.specs.Padded.{padded_text};
ghost use Rattle.ti_pad.specs.declared.memory.PadFault.TheVariants as fault;

use crate::length::padded_len;
use crate::padding::Padding;
use crate::slice::put_padded;
use std::alloc::{AllocError, Allocator};
use thiserror::Error;
use ti_base::MOST_PADDED_BYTES;

/// Why a text is not padded. As an error it prints its name, and its number after a blank.
#[derive(Clone, Copy, Debug, PartialEq, Eq, Error)]
pub enum PadFault {
    /// The padded text would have this many bytes, more than [`MOST_PADDED_BYTES`].
    #[error("TooMuch {need}")]
    TooMuch { need: u128 },
    /// Memory was refused.
    #[error("Memory")]
    Memory,
}

impl From<AllocError> for PadFault {
    ghost from_gives = { λ _ e. e ≡ fault.Memory };

    fn from(_refused: AllocError) -> PadFault {
        PadFault::Memory
    }
}

/// The padded text. [`PadFault::TooMuch`] is returned exactly if it has more than [`MOST_PADDED_BYTES`], and that
/// memory was refused only if it has no more.
///
/// # Examples
///
/// ```rust
/// let slow = Padding::new(960, 1, false, 0).ok_or("no padding")?;
/// let padded = pad(rt.alloc(), b"\x1b[J$<5>", &slow)?;
/// assert!(rt; padded.as_slice() == b"\x1b[J\0\0\0\0\0".as_slice());
/// ```
pub fn pad<A: Allocator + Copy>(
    alloc: A,
    bytes: &[u8],
    padding: &Padding,
) -> Result<Vec<u8, A>, PadFault>
    ensures text { IfOk result (λ v. v.items ≡ padded_text bytes.now padding.now) }
    ensures faults { IfErr result (λ e. (e ≡ fault.Memory)
        ⊎ (e ≡ fault.TooMuch (length (padded_text bytes.now padding.now)))) }
    ensures limit { (result ≡ Err (fault.TooMuch (length (padded_text bytes.now padding.now))))
        ↔ (most_padded_bytes < length (padded_text bytes.now padding.now)) }
    ensures memory { (result ≡ Err fault.Memory)
        → length (padded_text bytes.now padding.now) ≤ most_padded_bytes }
{
    let need = padded_len(bytes, padding);
    if need > MOST_PADDED_BYTES {
        return Err(PadFault::TooMuch { need });
    }
    let mut out = vec![in alloc; 0; need as usize]?;
    put_padded(bytes, padding, &mut out);
    Ok(out)
}
