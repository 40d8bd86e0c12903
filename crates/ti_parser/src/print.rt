//! Numbers that are not known, in each form that their format allows.

ghost use Rattle.std.specs.Prelude.{◌≡◌, ◌≢◌, ◌≤◌, ◌&&◌, not, ℕ, ℤ, List, IfOk, OnOk};
ghost use Rattle.ti_expand.specs.Printed.{least_count, print_of_number};
ghost use Rattle.ti_parser.specs.Covers.{IsOf, SendMore};
ghost use Rattle.ti_parser.specs.inner.Receivers.{Lead};
ghost use Rattle.ti_parser.specs.inner.Forms.{AreBlanks, data_bytes, digit_bytes, has_zeros, is_filled, least_of, plus_of, sign_of};

use crate::function::Function;
use crate::parsers::{Digits, Lost, follow, step_most, step_on, unite};
use crate::reading::Reception;
use crate::receiver::Receiver;
use std::alloc::Allocator;
use ti_cap::{Conversion, Format};
use ti_expand::format_number;

/// The bytes of digits of a conversion, and of their prefix.
fn digit_bytes(conversion: Conversion, alternate: bool) -> &'static [u8]
    ensures { result.now ≡ digit_bytes conversion alternate }
{
    match (conversion, alternate) {
        (Conversion::LowerHex, false) => b"0123456789abcdef",
        (Conversion::LowerHex, true) => b"0123456789abcdefx",
        (Conversion::UpperHex, false) => b"0123456789ABCDEF",
        (Conversion::UpperHex, true) => b"0123456789ABCDEFX",
        _ => b"0123456789",
    }
}

/// The least count of digits.
fn least_digits(precision: Option<u8>) -> u8
    ensures { result ≡ least_count precision }
{
    match precision {
        Some(count) => count,
        None => 1,
    }
}

/// More digits than these at least play no part.
const FEW_DIGITS: u8 = 8;

/// Whether zeros fill a number without a sign, so that it has as many digits as its width.
fn has_zeros(format: &Format) -> bool
    ensures { result ≡ has_zeros format.now.conversion format.now }
{
    match format.conversion {
        Conversion::Signed => false,
        _ => format.zero && !format.left && format.precision.is_none(),
    }
}

/// Digits that are printed at least, if they are few.
fn few_digits(format: &Format) -> u8
    ensures { result ≤ least_of format.now.conversion format.now }
{
    let least = if has_zeros(format) {
        format.width
    } else {
        least_digits(format.precision)
    };
    if least < FEW_DIGITS {
        least
    } else {
        FEW_DIGITS
    }
}

/// Whether spaces may fill a number.
fn is_filled(format: &Format) -> bool
    ensures { result ≡ is_filled format.now }
{
    let has_zeros = format.zero && !format.left && format.precision.is_none();
    least_digits(format.precision) < format.width && !has_zeros
}

/// Whether they may stand before it.
fn is_filled_before(format: &Format) -> bool
    ensures { result ≡ (is_filled format.now && not format.now.left) }
{
    is_filled(format) && !format.left
}

/// Whether they may stand after it.
fn is_filled_after(format: &Format) -> bool
    ensures { result ≡ (is_filled format.now && format.now.left) }
{
    is_filled(format) && format.left
}

/// The sign of a number that is not negative.
fn plus(format: &Format) -> &'static [u8]
    ensures { result.now ≡ plus_of format.now }
{
    if format.plus {
        b"+"
    } else if format.space {
        b" "
    } else {
        b""
    }
}

/// The parsers after spaces, if there may be any.
fn fill<A: Allocator + Copy>(
    alloc: A,
    reception: Reception,
    here: Vec<Receiver, A>,
    may: bool,
    sent: &mut Vec<Function, A>,
) -> Result<Vec<Receiver, A>, Lost>
    ensures kept { OnOk result (SendMore sent.old.items sent.new.items) }
    ensures leads { IfOk result (λ after. (text : List ℕ) → AreBlanks may text
        → Lead reception text here.items sent.new.items after.items) }
{
    if may {
        let after = step_on(alloc, reception, here, b" ", sent)?;
        Ok(after)
    } else {
        Ok(here)
    }
}

/// The parsers after each sign that a number may have.
fn sign<A: Allocator + Copy>(
    alloc: A,
    reception: Reception,
    here: &[Receiver],
    format: &Format,
    sent: &mut Vec<Function, A>,
) -> Result<Vec<Receiver, A>, Lost>
    ensures kept { OnOk result (SendMore sent.old.items sent.new.items) }
    ensures leads { IfOk result (λ after. (n : ℤ) → Lead reception
        (sign_of format.now.conversion format.now n) here.now sent.new.items after.items) }
{
    match format.conversion {
        Conversion::Signed => {
            let positive = follow(alloc, reception, here, plus(format), sent)?;
            let negative = follow(alloc, reception, here, b"-", sent)?;
            let both = unite(alloc, positive, &negative)?;
            Ok(both)
        }
        _ => {
            let after = follow(alloc, reception, here, b"", sent)?;
            Ok(after)
        }
    }
}

/// A number that is known, and how it is printed.
#[derive(Clone, Copy)]
pub(crate) struct KnownNumber {
    /// The format, whose conversion is that of a number.
    pub format: Format,
    /// The number.
    pub number: i32,
}

/// Room for a number in any format.
const MOST_PRINTED: usize = 512;

/// The parsers after a number that is known.
pub(crate) fn print_known<A: Allocator + Copy>(
    alloc: A,
    reception: Reception,
    here: &[Receiver],
    known: KnownNumber,
    sent: &mut Vec<Function, A>,
) -> Result<Vec<Receiver, A>, Lost>
    requires { known.format.conversion ≢ Conversion.Text }
    ensures kept { OnOk result (SendMore sent.old.items sent.new.items) }
    ensures leads { IfOk result (λ after. Lead reception
        (print_of_number known.format known.number) here.now sent.new.items after.items) }
{
    if known.format.size(0) > MOST_PRINTED as u64 {
        return Err(Lost::NotTried);
    }
    let mut out = [0; MOST_PRINTED];
    let count = format_number(&known.format, known.number, &mut out);
    let after = follow(alloc, reception, here, &out[..count], sent)?;
    Ok(after)
}

/// The bytes of data.
pub(crate) fn data_bytes() -> &'static [u8]
    ensures { result.now ≡ data_bytes }
{
    b" !\"#$%&'()*+,-./0123456789:;<=>@ABCDEFGHIJKLMNOPQRSTUVWXYZ[\\]^_`abcdefghijklmnopqrstuvwxyz{|}~"
}

/// Whether a parser is within a function, so that a letter of a number may end it.
fn is_within(here: &[Receiver]) -> bool {
    here.iter().any(|parser| parser.parser.state.is_header())
}

/// The parsers after a number that is not known.
pub(crate) fn print_number<A: Allocator + Copy>(
    alloc: A,
    reception: Reception,
    here: &[Receiver],
    format: &Format,
    sent: &mut Vec<Function, A>,
) -> Result<Vec<Receiver, A>, Lost>
    requires { format.now.conversion ≢ Conversion.Text }
    ensures kept { OnOk result (SendMore sent.old.items sent.new.items) }
    ensures leads { IfOk result (λ after. (n : ℤ) → Lead reception
        (print_of_number format.now n) here.now sent.new.items after.items) }
{
    let is_hex = matches!(
        format.conversion,
        Conversion::LowerHex | Conversion::UpperHex
    );
    if is_hex && is_within(here) {
        return Err(Lost::ComputedByte);
    }
    let start = follow(alloc, reception, here, b"", sent)?;
    let front = fill(alloc, reception, start, is_filled_before(format), sent)?;
    let signed = sign(alloc, reception, &front, format, sent)?;
    let digits = Digits {
        bytes: digit_bytes(format.conversion, format.alternate),
        least: few_digits(format),
    };
    let number = step_most(alloc, reception, signed, digits, sent)?;
    let after = fill(alloc, reception, number, is_filled_after(format), sent)?;
    Ok(after)
}
