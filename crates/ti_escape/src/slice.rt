//! The notation of a text in a slice of the caller.
//!
//! Bytes that are written as they are, are copied as they lie in the text. No memory is taken.

ghost use Rattle.std.specs.Prelude.{◌≡◌, ◌≤◌, ◌<◌, ◌+◌, ◌++◌, ◌↔◌, None, length, take, drop, IfSome, IfNone};
ghost use Rattle.ti_escape.specs.Notation.{notation, octal as the_octal};
ghost use Rattle.ti_escape.specs.inner.Stretch.{span_notation, stretch_notation};

use crate::length::notation_len;
use crate::stretch::{Span, Stretch, first_stretch, parts_of};

/// Writes the notation of a text into the slice, and returns the length of the notation. The bytes of the slice after it
/// are as before.
///
/// `None` exactly if the notation has more characters than the slice has bytes; then the slice is as before.
pub fn escape_into(text: &[u8], out: &mut [u8]) -> Option<usize>
    ensures room { (result ≡ None) ↔ (length out.old < length (notation text.now)) }
    ensures kept { IfNone result (out.new ≡ out.old) }
    ensures len { IfSome result (λ n. n ≡ length (notation text.now)) }
    ensures text { IfSome result (λ n. take n out.new ≡ notation text.now) }
    ensures rest { IfSome result (λ n. drop n out.new ≡ drop n out.old) }
{
    if notation_len(text) > out.len() as u128 {
        return None;
    }
    Some(put_notation(text, out))
}

/// Puts the notation of a text at the front of the slice, which has room for it, and returns the place after it.
pub fn put_notation(text: &[u8], out: &mut [u8]) -> usize
    requires { length (notation text.now) ≤ length out.old }
    ensures len { result ≡ length (notation text.now) }
    ensures text { take result out.new ≡ notation text.now }
    ensures rest { drop result out.new ≡ drop result out.old }
{
    let parts = parts_of(text);
    let start = put_stretch(out, 0, &parts.first);
    let end = put_span(out, start, parts.middle);
    put_stretch(out, end, &parts.last)
}

/// Puts the notation of a span at a place, and returns the place after it.
pub fn put_span(out: &mut [u8], at: usize, span: Span<'_>) -> usize
    requires { at + length (span_notation span) ≤ length out.old }
    ensures end { result ≡ at + length (span_notation span.entry) }
    ensures written { take result out.new ≡ take at out.old ++ span_notation span.entry }
    ensures rest { drop result out.new ≡ drop result out.old }
{
    let mut rest = span;
    let mut end = at;
    'stretches: while !rest.bytes.is_empty() {
        let front = first_stretch(rest);
        end = put_stretch(out, end, &front.stretch);
        rest = front.rest;
    }
    end
}

/// Puts a stretch at a place, and returns the place after it.
fn put_stretch(out: &mut [u8], at: usize, stretch: &Stretch<'_>) -> usize
    requires { at + length (stretch_notation stretch.now) ≤ length out.old }
    ensures end { result ≡ at + length (stretch_notation stretch.now) }
    ensures written { take result out.new ≡ take at out.old ++ stretch_notation stretch.now }
    ensures rest { drop result out.new ≡ drop result out.old }
{
    let end = at + stretch.len();
    let place = &mut out[at..end];
    match *stretch {
        Stretch::Plain(bytes) => place.copy_from_slice(bytes),
        Stretch::Backslash(char) => place.copy_from_slice(&[b'\\', char]),
        Stretch::Caret(char) => place.copy_from_slice(&[b'^', char]),
        Stretch::Octal(byte) => place.copy_from_slice(&octal(byte)),
    }
    end
}

/// `\` and the three octal digits of a byte.
fn octal(byte: u8) -> [u8; 4]
    ensures { result ≡ the_octal byte }
{
    [
        b'\\',
        b'0' + byte / 64 % 8,
        b'0' + byte / 8 % 8,
        b'0' + byte % 8,
    ]
}
