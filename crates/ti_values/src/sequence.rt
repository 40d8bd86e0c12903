//! Control sequences that are not ended, and what a terminal shows.

ghost use Rattle.std.specs.Prelude.{◌≡◌, ◌≢◌, ◌≤◌, ◌<◌, ◌↔◌, ℕ, IsTrue, IfSome, IfNone, length, drop, option_map};
ghost use Rattle.std.specs.List.{prefix_len};
ghost use Rattle.ti_values.specs.Findings.{IsFirstOf, IsShownAt, IsUnendedAt, sent_at};
ghost use Rattle.ti_values.specs.Sent.{texts_of};
ghost use Rattle.ti_values.specs.Sequences.{HasRendition, HasShown, HasUnended, IsRendition, IsUnended, after, after_decimal, after_text, escape_len, is_ansi, is_digit, is_ended, is_final, is_intermediate, is_parameter, is_printable, shows_after, starts_final, starts_motion, starts_rendition};

use crate::list::sent_at;
use std::alloc::Allocator;

/// The byte `\E`.
const ESCAPE: u8 = 0x1b;

/// Whether a byte is one of the parameters of a control sequence, digits and `:` to `?`.
fn is_parameter(byte: u8) -> bool
    ensures { result ≡ is_parameter byte }
{
    0x30 <= byte && byte <= 0x3f
}

/// Whether a byte stands between the parameters and the end, a space or up to `/`.
fn is_intermediate(byte: u8) -> bool
    ensures { result ≡ is_intermediate byte }
{
    0x20 <= byte && byte <= 0x2f
}

/// Whether a byte ends a control sequence.
fn is_final(byte: u8) -> bool
    ensures { result ≡ is_final byte }
{
    0x40 <= byte && byte <= 0x7e
}

/// Whether a byte shows on the screen, if it is in no sequence.
fn is_printable(byte: u8) -> bool
    ensures { result ≡ is_printable byte }
{
    0x20 <= byte && byte <= 0x7e
}

/// How many bytes of parameters stand at the front.
pub fn parameter_len(bytes: &[u8]) -> usize
    ensures count { result ≡ prefix_len is_parameter bytes.now }
    ensures within { result ≤ length bytes.now }
{
    bytes.iter().take_while(|byte| is_parameter(**byte)).count()
}

/// How many intermediate bytes stand at the front.
fn intermediate_len(bytes: &[u8]) -> usize
    ensures count { result ≡ prefix_len is_intermediate bytes.now }
    ensures within { result ≤ length bytes.now }
{
    bytes
        .iter()
        .take_while(|byte| is_intermediate(**byte))
        .count()
}

/// Whether bytes start with one that ends a control sequence.
pub(crate) fn starts_final(bytes: &[u8]) -> bool
    ensures { result ≡ starts_final bytes.now }
{
    match bytes {
        [byte, ..] => is_final(*byte),
        [] => false,
    }
}

/// Whether the bytes after a `\E[` end its sequence.
fn is_ended(bytes: &[u8]) -> bool
    ensures { result ≡ is_ended bytes.now }
{
    let rest = &bytes[parameter_len(bytes)..];
    starts_final(&rest[intermediate_len(rest)..])
}

/// Whether a `\E[` that is not ended stands at a place.
fn is_unended(bytes: &[u8], place: usize) -> bool
    requires { place ≤ length bytes.now }
    ensures exact { IsTrue result ↔ IsUnended bytes.now place }
{
    bytes[place..].starts_with(b"\x1b[") && !is_ended(&bytes[place + 2..])
}

/// Whether there is a `\E[` that is not ended: no parameter bytes, intermediate bytes and final byte follow (ECMA-48, 5.4).
pub fn has_unended(bytes: &[u8]) -> bool
    ensures exact { IsTrue result ↔ HasUnended bytes.now }
{
    'bytes: for place in 0..bytes.len() {
        if is_unended(bytes, place) {
            return true;
        }
    }
    false
}

/// The place of the first value for which a `\E[` is sent that is not ended.
pub fn first_unended<A: Allocator>(sent: &[Vec<u8, A>]) -> Option<usize>
    ensures exact { IsFirstOf (IsUnendedAt (texts_of sent.now)) result }
{
    'values: for place in 0..sent.len() {
        if has_unended(sent_at(sent, place)) {
            return Some(place);
        }
    }
    None
}

/// How many digits stand at the front.
pub(crate) fn width_len(bytes: &[u8]) -> usize
    ensures count { result ≡ prefix_len is_digit bytes.now }
    ensures within { result ≤ length bytes.now }
{
    bytes
        .iter()
        .take_while(|byte| byte.is_ascii_digit())
        .count()
}

/// Returns the bytes after a text, if they start with it.
pub(crate) fn after_text<'a>(text: &[u8], bytes: &'a [u8]) -> Option<&'a [u8]>
    ensures { option_map (λ rest. rest.now) result ≡ after_text text.now bytes.now }
{
    if !bytes.starts_with(text) {
        return None;
    }
    Some(past(bytes, text.len()))
}

/// Returns the bytes after a parameter that is printed in decimal, in any width.
fn after_decimal<'a>(parameter: &[u8], bytes: &'a [u8]) -> Option<&'a [u8]>
    ensures { option_map (λ rest. rest.now) result ≡ after_decimal parameter.now bytes.now }
{
    let rest = after_text(b"%", after_text(parameter, bytes)?)?;
    after_text(b"d", past(rest, width_len(rest)))
}

/// Whether bytes start with two parameters in decimal, a semicolon between them, and `H` or `f` after them.
fn starts_motion(one: &[u8], other: &[u8], bytes: &[u8]) -> bool
    ensures { result ≡ starts_motion one.now other.now bytes.now }
{
    let Some(rest) = after_decimal(one, bytes) else {
        return false;
    };
    let Some(rest) = after_text(b";", rest) else {
        return false;
    };
    let Some(rest) = after_decimal(other, rest) else {
        return false;
    };
    rest.starts_with(b"H") || rest.starts_with(b"f")
}

/// Whether a `cup` has the form of a terminal whose control sequences are those of ECMA-48.
pub fn is_ansi(cup: &[u8]) -> bool
    ensures exact { result ≡ is_ansi cup.now }
{
    let Some(rest) = after_text(b"\x1b[", cup) else {
        return false;
    };
    let motion = after_text(b"%i", rest).unwrap_or(rest);
    starts_motion(b"%p1", b"%p2", motion) || starts_motion(b"%p2", b"%p1", motion)
}

/// How many bytes go on after an escape to the end of its sequence, or more if it is not ended.
fn escape_len(bytes: &[u8]) -> usize
    ensures { result ≡ escape_len bytes.now }
{
    match bytes {
        [] => 0,
        [b'[', rest @ ..] => {
            let len = parameter_len(rest);
            2 + len + intermediate_len(&rest[len..])
        }
        [..] => 1 + intermediate_len(bytes),
    }
}

/// Returns the bytes after the first so many.
pub fn past(bytes: &[u8], count: usize) -> &[u8]
    ensures { result.now ≡ drop count bytes.now }
{
    if count < bytes.len() {
        return &bytes[count..];
    }
    &[]
}

/// Whether some byte is printable, and in no sequence.
fn has_shown(bytes: &[u8]) -> bool
    ensures { result ≡ shows_after 0 bytes.now }
{
    let mut rest = bytes;
    'bytes: while let Some((byte, after)) = rest.split_first() {
        if *byte == ESCAPE {
            rest = past(after, escape_len(after));
        } else if is_printable(*byte) {
            return true;
        } else {
            rest = after;
        }
    }
    false
}

/// Whether bytes start with the end of a sequence that selects a rendition.
pub fn starts_rendition(bytes: &[u8]) -> bool
    ensures { result ≡ starts_rendition bytes.now }
{
    match bytes {
        [byte, ..] => *byte == b'm',
        [] => false,
    }
}

/// Whether a control sequence that selects a rendition stands at a place.
fn is_rendition(bytes: &[u8], place: usize) -> bool
    requires { place ≤ length bytes.now }
    ensures exact { IsTrue result ↔ IsRendition bytes.now place }
{
    if !bytes[place..].starts_with(b"\x1b[") {
        return false;
    }
    let rest = &bytes[place + 2..];
    starts_rendition(&rest[parameter_len(rest)..])
}

/// Whether there is one at all.
fn has_rendition(bytes: &[u8]) -> bool
    ensures exact { IsTrue result ↔ HasRendition bytes.now }
{
    'bytes: for place in 0..bytes.len() {
        if is_rendition(bytes, place) {
            return true;
        }
    }
    false
}

/// The place of the first value for which something is sent that shows on the screen.
fn find_shown<A: Allocator>(sent: &[Vec<u8, A>]) -> Option<usize>
    ensures { IsFirstOf (λ k. (k < length (texts_of sent.now))
        × HasShown (sent_at (texts_of sent.now) k)) result }
{
    'values: for place in 0..sent.len() {
        if has_shown(sent_at(sent, place)) {
            return Some(place);
        }
    }
    None
}

/// The same, if a rendition is selected for the first value, as `sgr` does for no attribute on a terminal of ECMA-48.
pub fn first_shown<A: Allocator>(sent: &[Vec<u8, A>]) -> Option<usize>
    ensures exact { IsFirstOf (IsShownAt (texts_of sent.now)) result }
{
    if !has_rendition(sent_at(sent, 0)) {
        return None;
    }
    find_shown(sent)
}
