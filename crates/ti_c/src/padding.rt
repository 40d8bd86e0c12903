//! Padding a text for C.

ghost use Rattle.std.specs.Prelude.{◌≡◌, ◌⊎◌, ℕ, IsTrue, IfNone, IfSome, false, true, length, take, drop};
ghost use Rattle.ti_c.specs.Numbers.{bad_padding, done};
ghost use Rattle.ti_c.specs.Padding.{is_within_limits, padded_as_given, IsPaddingFault, setting_given, told_length};

use crate::faults::{BAD_PADDING, DONE, OUT_TOO_SMALL, TOO_MUCH};
use ti_pad::{PadIntoFault, Padding, pad_into};

/// The settings that padding depends on.
#[repr(C)]
#[derive(Clone, Copy, Debug)]
pub struct GivenPadding {
    /// The rate of the line in bytes per second.
    pub rate: u32,
    /// The number of affected lines.
    pub affected_lines: u32,
    /// 0 if the terminal has no xon.
    pub xon: u8,
    /// The pad byte.
    pub pad: u8,
}

/// The padding that is given, if it is within its limits.
pub(crate) fn padding_of(given: &GivenPadding) -> Option<Padding>
    ensures value { IfSome result (λ padding. padding ≡ setting_given given.now) }
    ensures within { IfSome result (λ padding. is_within_limits given.now ≡ true) }
    ensures none { IfNone result (is_within_limits given.now ≡ false) }
{
    Padding::new(given.rate, given.affected_lines, given.xon != 0, given.pad)
}

/// A length as C gets it.
pub(crate) fn told_length(need: u128) -> usize
    ensures { result ≡ told_length need }
{
    usize::try_from(need).unwrap_or(usize::MAX)
}

/// Pads a text into the caller's bytes, and returns 0 with the length of the padded text, or the number of a fault.
///
/// After a fault the bytes are as before; the length is written after each fault but that of the padding, and is the
/// greatest `usize` if it is greater still.
#[unsafe(no_mangle)]
pub extern "C" fn ti_pad(
    text: &[u8],
    padding: &GivenPadding,
    out: &mut [u8],
    padded_length: &mut usize,
) -> u32
    ensures answer { (result ≡ done)
        ⊎ IsPaddingFault text.now padding.now (length out.old) result }
    ensures only { (number : ℕ) → IsPaddingFault text.now padding.now (length out.old) number
        → result ≡ number }
    ensures kept { (result ≡ done) ⊎ (out.new ≡ out.old) }
    ensures told { (result ≡ bad_padding)
        ⊎ (padded_length.new ≡ told_length (length (padded_as_given text.now padding.now))) }
    ensures untold { result ≡ bad_padding → padded_length.new ≡ padded_length.old }
    ensures len { result ≡ done
        → padded_length.new ≡ length (padded_as_given text.now padding.now) }
    ensures text { result ≡ done
        → take padded_length.new out.new ≡ padded_as_given text.now padding.now }
    ensures rest { result ≡ done
        → drop padded_length.new out.new ≡ drop padded_length.new out.old }
{
    let Some(padding) = padding_of(padding) else {
        return BAD_PADDING;
    };
    match pad_into(text, &padding, out) {
        Ok(written) => {
            *padded_length = written;
            DONE
        }
        Err(PadIntoFault::TooMuch { need }) => {
            *padded_length = told_length(need);
            TOO_MUCH
        }
        Err(PadIntoFault::OutTooSmall { need }) => {
            *padded_length = need as usize;
            OUT_TOO_SMALL
        }
    }
}
