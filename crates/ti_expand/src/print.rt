//! The output of `%d`, `%o`, `%x`, `%X` and `%s`, written straight into the caller's slice: the bytes are those of
//! `print_of_number` and `print_of_text`, and no value needs more of them than the format's size.

ghost use Rattle.std.specs.Prelude.{◌≡◌, ◌≢◌, ◌+◌, ◌-◌, ◌<◌, ◌≤◌, ◌++◌, length, take, drop, replicate, codes};
ghost use Rattle.std.specs.Bool.{OnTrue};
ghost use Rattle.ti_base.specs.Letters.{letter};
ghost use Rattle.ti_base.specs.Limits.{most_text_bytes};
ghost use Rattle.ti_cap.specs.Sizes.{format_size};
ghost use Rattle.ti_expand.specs.Effect.{print_for};
ghost use Rattle.ti_expand.specs.State.{without_top};
ghost use Rattle.ti_expand.specs.inner.Decimal.{IsPlainDecimal, decimal_digits};
ghost use Rattle.ti_expand.specs.inner.Slots.{values_on};
ghost use Rattle.ti_expand.specs.Printed.{magnitude, least_count, front_for, print_of_number, print_of_text, after_zeros, field};

use crate::digits::Digits;
use crate::stack::Stack;
use crate::write::{put, put_repeated};
use ti_cap::{Conversion, Format};

/// The least count of digits.
fn least_digits(precision: Option<u8>) -> usize
    ensures { result ≡ least_count precision }
{
    match precision {
        Some(count) => count as usize,
        None => 1,
    }
}

/// The sign, or the prefix that `#` requests. The digits of a number but 0 start with no `0`, so that the octal prefix
/// is wanted exactly if no zeros stand before them.
fn front_bytes(format: &Format, number: i32, zeros: usize) -> &'static [u8]
    ensures { result.now ≡ front_for format.now.conversion format.now number
        (after_zeros zeros (magnitude format.now.conversion number)) }
{
    match format.conversion {
        Conversion::Signed if number < 0 => b"-",
        Conversion::Signed if format.plus => b"+",
        Conversion::Signed if format.space => b" ",
        Conversion::Octal if format.alternate && zeros == 0 => b"0",
        Conversion::LowerHex if format.alternate && number.cast_unsigned() != 0 => b"0x",
        Conversion::UpperHex if format.alternate && number.cast_unsigned() != 0 => b"0X",
        _ => b"",
    }
}

/// Puts the front, zeros and the digits.
#[tactic(auto, using(crate::proofs::RestLemmas::drop_further))]
fn put_body(digits: &Digits, out: &mut [u8], at: usize, front: &[u8], zeros: usize) -> usize
    requires { at + (length front.now + (zeros + length digits.now)) ≤ length out.old }
    ensures end { result ≡ at + (length front.now + (zeros + length digits.now)) }
    ensures written { take result out.new
        ≡ take at out.old ++ (front.now ++ (after_zeros zeros digits.now)) }
    ensures rest { drop result out.new ≡ drop result out.old }
{
    let after_front = put(out, at, front);
    let after_zeros = put_repeated(out, after_front, b'0', zeros);
    digits.put(out, after_zeros)
}

/// Puts the front, zeros and the digits, filled to the width.
#[tactic(auto, using(crate::proofs::RestLemmas::drop_further))]
fn put_filled(
    format: &Format,
    digits: &Digits,
    out: &mut [u8],
    at: usize,
    front: &[u8],
    zeros: usize,
) -> usize
    requires { at + length (field format.now front.now (after_zeros zeros digits.now))
        ≤ length out.old }
    ensures end { result ≡ at + length (field format.now front.now (after_zeros zeros digits.now)) }
    ensures written { take result out.new ≡ take at out.old
        ++ field format.now front.now (after_zeros zeros digits.now) }
    ensures rest { drop result out.new ≡ drop result out.old }
{
    let body = front.len() + (zeros + digits.len());
    let missing = (format.width as usize).saturating_sub(body);
    if format.zero && !format.left && format.precision.is_none() {
        return put_body(digits, out, at, front, missing + zeros);
    }
    if format.left {
        let end = put_body(digits, out, at, front, zeros);
        return put_repeated(out, end, b' ', missing);
    }
    let start = put_repeated(out, at, b' ', missing);
    put_body(digits, out, start, front, zeros)
}

/// Whether a format prints a number with its digits alone.
#[inline(always)]
fn is_plain_decimal(format: &Format) -> bool
    ensures { OnTrue result (IsPlainDecimal format.now) }
{
    matches!(format.conversion, Conversion::Signed)
        && !format.plus
        && !format.space
        && format.width == 0
        && format.precision.is_none()
}

/// Puts an amount below 1000 in decimal, and returns the place after it.
#[inline(always)]
fn put_decimal(amount: u32, out: &mut [u8], at: usize) -> usize
    requires small { amount < 1000 }
    requires room { at + length (decimal_digits amount) ≤ length out.old }
    ensures end { result ≡ at + length (decimal_digits amount) }
    ensures written { take result out.new ≡ take at out.old ++ decimal_digits amount }
    ensures rest { drop result out.new ≡ drop result out.old }
{
    if amount < 10 {
        return put(out, at, &[b'0' + amount as u8]);
    }
    let tens = amount / 10;
    let ones = b'0' + (amount % 10) as u8;
    if amount < 100 {
        return put(out, at, &[b'0' + tens as u8, ones]);
    }
    put(
        out,
        at,
        &[b'0' + (tens / 10) as u8, b'0' + (tens % 10) as u8, ones],
    )
}

/// Prints a number from a place on, and returns the place after it.
#[inline(never)]
pub(crate) fn print_number(format: Format, number: i32, out: &mut [u8], at: usize) -> usize
    requires numeric { format.conversion ≢ Conversion.Text }
    requires room { at + length (print_of_number format number) ≤ length out.old }
    ensures end { result ≡ at + length (print_of_number format number) }
    ensures written { take result out.new ≡ take at out.old ++ print_of_number format number }
    ensures rest { drop result out.new ≡ drop result out.old }
{
    print_number_here(format, number, out, at)
}

/// The same, without a call for most numbers, which are small, and most formats, which are `%d`.
#[inline(always)]
pub(crate) fn print_number_here(format: Format, number: i32, out: &mut [u8], at: usize) -> usize
    requires numeric { format.conversion ≢ Conversion.Text }
    requires room { at + length (print_of_number format number) ≤ length out.old }
    ensures end { result ≡ at + length (print_of_number format number) }
    ensures written { take result out.new ≡ take at out.old ++ print_of_number format number }
    ensures rest { drop result out.new ≡ drop result out.old }
{
    let amount = number.cast_unsigned();
    if amount < 1000 && is_plain_decimal(&format) {
        return put_decimal(amount, out, at);
    }
    print_by_parts(&format, number, out, at)
}

/// Prints a number part by part from a place on, and returns the place after it.
#[inline(never)]
fn print_by_parts(format: &Format, number: i32, out: &mut [u8], at: usize) -> usize
    requires numeric { format.now.conversion ≢ Conversion.Text }
    requires room { at + length (print_of_number format.now number) ≤ length out.old }
    ensures end { result ≡ at + length (print_of_number format.now number) }
    ensures written { take result out.new ≡ take at out.old ++ print_of_number format.now number }
    ensures rest { drop result out.new ≡ drop result out.old }
{
    let digits = Digits::new(format.conversion, number);
    let zeros = least_digits(format.precision).saturating_sub(digits.len());
    let front = front_bytes(format, number, zeros);
    put_filled(format, &digits, out, at, front, zeros)
}

/// Prints a number from the front of a slice on, and returns how many bytes that took, at most the format's size; the
/// bytes after them stay. The conversion is not `Text`, and the slice has the format's size for texts of no bytes.
pub fn format_number(format: &Format, number: i32, out: &mut [u8]) -> usize
    requires numeric { format.now.conversion ≢ Conversion.Text }
    requires room { format_size format.now 0 ≤ length out.old }
    ensures count { result ≡ length (print_of_number format.now number) }
    ensures low { result ≤ format_size format.now 0 }
    ensures written { take result out.new ≡ print_of_number format.now number }
    ensures rest { drop result out.new ≡ drop result out.old }
{
    print_number(*format, number, out, 0)
}

/// Prints a text from the front of a slice on, and returns how many bytes that took, at most the format's size; the
/// bytes after them stay. The conversion is `Text`, the text has at most [`ti_base::MOST_TEXT_BYTES`] bytes, and the
/// slice has the format's size for its length.
pub fn format_text(format: &Format, text: &[u8], out: &mut [u8]) -> usize
    requires textual { format.now.conversion ≡ Conversion.Text }
    requires short { length text.now ≤ most_text_bytes }
    requires room { format_size format.now (length text.now) ≤ length out.old }
    ensures count { result ≡ length (print_of_text format.now text.now) }
    ensures low { result ≤ format_size format.now (length text.now) }
    ensures written { take result out.new ≡ print_of_text format.now text.now }
    ensures rest { drop result out.new ≡ drop result out.old }
{
    print_text(*format, text, out, 0)
}

/// Prints a text from a place on, and returns the place after it.
#[inline(never)]
#[tactic(auto, using(crate::proofs::RestLemmas::drop_further))]
pub(crate) fn print_text(format: Format, text: &[u8], out: &mut [u8], at: usize) -> usize
    requires room { at + length (print_of_text format text.now) ≤ length out.old }
    ensures end { result ≡ at + length (print_of_text format text.now) }
    ensures written { take result out.new ≡ take at out.old ++ print_of_text format text.now }
    ensures rest { drop result out.new ≡ drop result out.old }
{
    let shown = match format.precision {
        Some(precision) if (precision as usize) < text.len() => &text[..precision as usize],
        _ => text,
    };
    let missing = (format.width as usize).saturating_sub(shown.len());
    if format.left {
        let end = put(out, at, shown);
        return put_repeated(out, end, b' ', missing);
    }
    let start = put_repeated(out, at, b' ', missing);
    put(out, start, shown)
}

/// Prints what lies on the stack, from a place on, and returns the place after it.
#[inline(always)]
pub fn print(format: Format, stack: &mut Stack<'_, '_>, out: &mut [u8], written: usize) -> usize
    requires { written + length (print_for format.conversion format (values_on stack.old))
        ≤ length out.old }
    ensures room { length stack.new.slots.now ≡ length stack.old.slots.now }
    ensures height { stack.new.height ≡ stack.old.height - 1 }
    ensures highest { stack.new.highest ≡ stack.old.highest }
    ensures held { values_on stack.new ≡ without_top (values_on stack.old) }
    ensures written { take result out.new
        ≡ take written out.old ++ print_for format.conversion format (values_on stack.old) }
    ensures end { result
        ≡ written + length (print_for format.conversion format (values_on stack.old)) }
    ensures rest { drop result out.new ≡ drop result out.old }
{
    match format.conversion {
        Conversion::Text => print_text(format, stack.pop_text(), out, written),
        _ => print_number(format, stack.pop_number(), out, written),
    }
}
