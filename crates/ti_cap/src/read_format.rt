//! The format after a `%`: flags, width, precision and conversion, each as far as its bytes go.
//!
//! It guarantees what the list lexer's `format_read` says, which is proved to read exactly the spellings of formats.
//! Cost: each byte is looked at a fixed number of times, and no memory is taken. Each part goes on where the one
//! before it ended, with the format so far and the number of bytes that have spelled it.

ghost use Rattle.std.specs.Prelude.{◌≡◌, ◌+◌, ◌<◌, ◌≤◌, ◌^◌, length, drop, IfSome, IfNone};
ghost use Rattle.std.specs.List.{prefix_len};
ghost use Rattle.ti_base.specs.Limits.{greatest_width};
ghost use Rattle.ti_cap.specs.Spelling.{number_of};
ghost use Rattle.ti_cap.specs.Refusal.{opens_format};
ghost use Rattle.ti_cap.specs.inner.Lexer.{format_read, width_read, precision_read, letter_read, with_flags, plain_format, conversion_of, is_flag, is_plain_flag, is_digit, print_read, front, rest};

use crate::language::{CapFault, Conversion, Format, Token};
use ti_base::GREATEST_WIDTH;

/// The greatest width or precision, in the width that one digit more takes.
const GREATEST: u16 = GREATEST_WIDTH as u16;

/// Whether something before the conversion of a format may begin with this byte.
fn opens_format(byte: u8) -> bool
    ensures { result ≡ opens_format byte }
{
    matches!(byte, b':' | b'#' | b' ' | b'.' | b'0'..=b'9')
}

/// The format at the front, and how many bytes spell it with the `%` before them.
#[inline(always)]
pub fn read_format(bytes: &[u8]) -> Result<(Token, usize), CapFault>
    ensures { result ≡ print_read bytes.now }
{
    match bytes {
        [] => Err(CapFault::CutShort),
        // Most formats are a conversion alone.
        [letter, ..] => match conversion(*letter) {
            Some(conversion) => Ok((Token::Print(plain(conversion)), 2)),
            None if opens_format(*letter) => read_parts(bytes),
            None => Err(CapFault::UnknownEscape),
        },
    }
}

/// The format of a conversion alone.
#[inline]
pub fn plain(conversion: Conversion) -> Format
    ensures { result ≡ plain_format conversion }
{
    Format {
        conversion,
        left: false,
        plus: false,
        space: false,
        alternate: false,
        zero: false,
        width: 0,
        precision: None,
    }
}

/// The format at the front, part by part.
#[inline(never)]
fn read_parts(bytes: &[u8]) -> Result<(Token, usize), CapFault>
    ensures { result ≡ format_read bytes.now }
{
    match bytes {
        [] => Err(CapFault::CutShort),
        [b':', after @ ..] => {
            let (flags, left) = split_flags(after);
            read_width(with_flags(flags), 2 + flags.len(), left)
        }
        [first, ..] if is_plain_flag(*first) => {
            let (flags, left) = split_plain_flags(bytes);
            read_width(with_flags(flags), 1 + flags.len(), left)
        }
        _ => read_width(plain(Conversion::Signed), 1, bytes),
    }
}

/// Takes the flags that may stand after a colon off the front.
#[tactic(auto, using(crate::proofs::FrontLemmas::front_take, crate::proofs::FrontLemmas::rest_drop, crate::proofs::FrontLemmas::prefix_len_within))]
fn split_flags(bytes: &[u8]) -> (&[u8], &[u8])
    ensures flags { result.0.now ≡ front is_flag bytes.now }
    ensures left { result.1.now ≡ rest is_flag bytes.now }
    ensures whole { length result.0.now + length result.1.now ≡ length bytes.now }
{
    bytes.split_at(count_flags(bytes))
}

/// How many flags stand at the front, after a colon.
fn count_flags(bytes: &[u8]) -> usize
    ensures { result ≡ prefix_len is_flag bytes.now }
{
    bytes.iter().take_while(|byte| is_flag(**byte)).count()
}

/// Takes the flags that need no colon off the front.
#[tactic(auto, using(crate::proofs::FrontLemmas::front_take, crate::proofs::FrontLemmas::rest_drop, crate::proofs::FrontLemmas::prefix_len_within))]
fn split_plain_flags(bytes: &[u8]) -> (&[u8], &[u8])
    ensures flags { result.0.now ≡ front is_plain_flag bytes.now }
    ensures left { result.1.now ≡ rest is_plain_flag bytes.now }
    ensures whole { length result.0.now + length result.1.now ≡ length bytes.now }
{
    bytes.split_at(count_plain_flags(bytes))
}

/// How many flags stand at the front, without a colon.
fn count_plain_flags(bytes: &[u8]) -> usize
    ensures { result ≡ prefix_len is_plain_flag bytes.now }
{
    bytes
        .iter()
        .take_while(|byte| is_plain_flag(**byte))
        .count()
}

/// A flag that needs no colon before it.
fn is_plain_flag(byte: u8) -> bool
    ensures { result ≡ is_plain_flag byte }
{
    byte == b'#' || byte == b' ' || byte == b'0'
}

/// A flag that may stand after a colon.
fn is_flag(byte: u8) -> bool
    ensures { result ≡ is_flag byte }
{
    byte == b'-' || byte == b'+' || is_plain_flag(byte)
}

/// The format with these flags, and nothing else yet.
fn with_flags(flags: &[u8]) -> Format
    ensures { result ≡ with_flags flags.now }
{
    Format {
        left: flags.contains(&b'-'),
        plus: flags.contains(&b'+'),
        space: flags.contains(&b' '),
        alternate: flags.contains(&b'#'),
        zero: flags.contains(&b'0'),
        ..plain(Conversion::Signed)
    }
}

/// Goes on with the width; `taken` bytes have spelled the format so far.
fn read_width(format: Format, taken: usize, bytes: &[u8]) -> Result<(Token, usize), CapFault>
    requires { taken + length bytes.now < 2 ^ 64 }
    ensures { result ≡ width_read format taken bytes.now }
{
    match small_number(bytes) {
        None => Err(CapFault::BadFormat),
        Some((width, count)) => {
            let format = Format { width, ..format };
            read_precision(format, taken + count, &bytes[count..])
        }
    }
}

/// Goes on with the precision.
fn read_precision(format: Format, taken: usize, bytes: &[u8]) -> Result<(Token, usize), CapFault>
    requires { taken + length bytes.now < 2 ^ 64 }
    ensures { result ≡ precision_read format taken bytes.now }
{
    match bytes {
        [b'.', after @ ..] => match small_number(after) {
            None => Err(CapFault::BadFormat),
            Some((number, count)) => {
                let format = Format {
                    precision: Some(number),
                    ..format
                };
                read_letter(format, taken + 1 + count, &after[count..])
            }
        },
        _ => read_letter(format, taken, bytes),
    }
}

/// Ends with the conversion.
fn read_letter(format: Format, taken: usize, bytes: &[u8]) -> Result<(Token, usize), CapFault>
    requires { taken + length bytes.now < 2 ^ 64 }
    ensures { result ≡ letter_read format taken bytes.now }
{
    match bytes {
        [] => Err(CapFault::CutShort),
        [letter, ..] => match conversion(*letter) {
            None => Err(CapFault::BadFormat),
            Some(conversion) => {
                let format = Format {
                    conversion,
                    ..format
                };
                Ok((Token::Print(format), taken + 1))
            }
        },
    }
}

/// The conversion that has this letter.
#[inline]
fn conversion(letter: u8) -> Option<Conversion>
    ensures { result ≡ conversion_of letter }
{
    match letter {
        b'd' => Some(Conversion::Signed),
        b'o' => Some(Conversion::Octal),
        b'x' => Some(Conversion::LowerHex),
        b'X' => Some(Conversion::UpperHex),
        b's' => Some(Conversion::Text),
        _ => None,
    }
}

/// The number that the digits at the front mean, and how many they are, or none if it is above the limit.
#[tactic(auto, using(crate::proofs::FrontLemmas::front_within, crate::proofs::FrontLemmas::rest_after_front))]
fn small_number(bytes: &[u8]) -> Option<(u8, usize)>
    ensures none { IfNone result (greatest_width < number_of (front is_digit bytes.now)) }
    ensures number { IfSome result
        (λ (number, count). number ≡ number_of (front is_digit bytes.now)) }
    ensures count { IfSome result (λ (number, count). count ≡ length (front is_digit bytes.now)) }
    ensures within { IfSome result (λ (number, count). count ≤ length bytes.now) }
    ensures left { IfSome result
        (λ (number, count). drop count bytes.now ≡ rest is_digit bytes.now) }
{
    let mut number: u16 = 0;
    for (count, byte) in bytes.iter().enumerate() {
        if !byte.is_ascii_digit() {
            return Some((number as u8, count));
        }
        number = 10 * number + u16::from(*byte - b'0');
        if number > GREATEST {
            return None;
        }
    }
    Some((number as u8, bytes.len()))
}
