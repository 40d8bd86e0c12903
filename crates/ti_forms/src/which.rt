//! Sentences that say which and what, for which a string is looked at again.

use std::alloc::Allocator;
use ti_cap::Capability;
use ti_rules::NamedText;
use ti_sink::Page;
use ti_values::{Tried, sent_by};

/// The attributes of `sgr` by terminfo(5), each with the set of it alone.
static ATTRIBUTES: [(&str, u16); 9] = [
    ("standout", 1),
    ("underline", 2),
    ("reverse", 4),
    ("blink", 8),
    ("dim", 16),
    ("bold", 32),
    ("invis", 64),
    ("protect", 128),
    ("altcharset", 256),
];

/// Returns the bytes that a text sends; nothing if it is no capability. If memory is refused, the page is too.
fn sent_of<A: Allocator + Copy>(
    page: &mut Page<A>,
    alloc: A,
    text: &[u8],
    tried: Tried,
) -> Vec<u8, A> {
    match Capability::parse(text) {
        Ok(capability) => match sent_by(alloc, &capability, tried) {
            Ok(sent) => return sent,
            Err(_) => page.refuse(),
        },
        Err(_) => (),
    }
    Vec::new(alloc)
}

/// Whether a byte separates two parameters.
fn is_separator(byte: u8) -> bool {
    !matches!(byte, b'0'..=b'9')
}

/// A parameter without the zeros in front, so that one that is left out is 0.
fn without_zeros(digits: &[u8]) -> &[u8] {
    let zeros = digits.iter().take_while(|digit| **digit == b'0').count();
    digits.get(zeros..).unwrap_or(b"")
}

/// A parameter as it is told: one that is left out is 0.
fn with_digit(digits: &[u8]) -> &[u8] {
    if digits.is_empty() { b"0" } else { digits }
}

/// The number of a control sequence at an index, by its digits; one that is left out is 1 (ECMA-48, 8.3.21).
fn number_at(sent: &[u8], index: usize) -> &[u8] {
    let numbers = sent.strip_prefix(b"\x1b[").unwrap_or(sent);
    let digits = numbers
        .split(|byte| is_separator(*byte))
        .nth(index)
        .unwrap_or(b"");
    if digits.is_empty() {
        return b"1";
    }
    with_digit(without_zeros(digits))
}

/// A number that `cup` and another motion send: what it counts, and its index in each of both.
type Axis = (&'static str, usize, usize);

/// The numbers that a motion shares with `cup`.
fn axes_of(name: &[u8]) -> [Axis; 2] {
    match name {
        b"home" => [("line", 0, 0), ("column", 1, 1)],
        b"hpa" => [("column", 1, 0); 2],
        b"csr" => [("line", 0, 0), ("line", 0, 1)],
        _ => [("line", 0, 0); 2],
    }
}

/// Writes a motion, and the number that it sends.
fn write_number<A: Allocator>(page: &mut Page<A>, name: &[u8], number: &[u8]) {
    page.label(name);
    page.put(" sends ");
    page.bytes(number)
}

/// Writes that a motion with parameters lacks `%i`, if it does: it counts from 0 without it, and the other one from 1.
fn write_lacking<A: Allocator>(
    page: &mut Page<A>,
    motion: NamedText<'_>,
    number: &[u8],
    other: &[u8],
) {
    let takes_some = motion.text.windows(2).any(|pair| pair == b"%p".as_slice());
    let has_increment = motion.text.windows(2).any(|pair| pair == b"%i".as_slice());
    let counts_from_0 = number == b"0".as_slice() && other == b"1".as_slice();
    if counts_from_0 && takes_some && !has_increment {
        page.put(": ");
        page.label(motion.name);
        page.put(" lacks %i")
    }
}

/// Writes which numbers `cup` and another motion send for the first line or column, and which of both lacks `%i`.
pub fn write_origins<A: Allocator + Copy>(
    page: &mut Page<A>,
    alloc: A,
    cup: NamedText<'_>,
    other: NamedText<'_>,
) {
    let one = sent_of(page, alloc, cup.text, Tried::Number(0));
    let two = sent_of(page, alloc, other.text, Tried::Number(0));
    'axes: for (axis, place, its) in axes_of(other.name) {
        let mine = number_at(one.as_slice(), place);
        let theirs = number_at(two.as_slice(), its);
        if mine != theirs {
            page.put("for the first ");
            page.put(axis);
            page.put(" ");
            write_number(page, cup.name, mine);
            page.put(", and ");
            write_number(page, other.name, theirs);
            write_lacking(page, cup, mine, theirs);
            write_lacking(page, other, theirs, mine);
            return;
        }
    }
}

/// The parameter bytes of the rendition at a place, if one stands there.
fn rendition_at(sent: &[u8], place: usize) -> Option<&[u8]> {
    let rest = match sent.get(place..).unwrap_or(b"") {
        [0x1b, b'[', rest @ ..] => rest,
        [0x9b, rest @ ..] => rest,
        _ => return None,
    };
    let len = rest
        .iter()
        .take_while(|byte| matches!(**byte, b'0'..=b'?'))
        .count();
    match rest.get(len) {
        Some(b'm') => rest.get(..len),
        _ => None,
    }
}

/// Whether a parameter is among those of a rendition.
fn is_among(wanted: &[u8], parameters: &[u8]) -> bool {
    parameters
        .split(|byte| is_separator(*byte))
        .any(|one| without_zeros(one) == wanted)
}

/// Whether some rendition in bytes has a parameter.
fn has_parameter(sent: &[u8], wanted: &[u8]) -> bool {
    'places: for place in 0..sent.len() {
        match rendition_at(sent, place) {
            Some(parameters) if is_among(wanted, parameters) => return true,
            _ => (),
        }
    }
    false
}

/// The first of the parameters of a rendition that is in none of two others.
fn first_missing<'a>(none: &[u8], all: &[u8], parameters: &'a [u8]) -> Option<&'a [u8]> {
    'parameters: for digits in parameters.split(|byte| is_separator(*byte)) {
        let one = without_zeros(digits);
        if !has_parameter(none, one) && !has_parameter(all, one) {
            return Some(one);
        }
    }
    None
}

/// The first parameter of the renditions in bytes that neither of two others has.
fn first_lost<'a>(none: &[u8], all: &[u8], alone: &'a [u8]) -> Option<&'a [u8]> {
    'places: for place in 0..alone.len() {
        let lost = rendition_at(alone, place).and_then(|parameters| first_missing(
            none, all, parameters,
        ));
        if lost.is_some() {
            return lost;
        }
    }
    None
}

/// Writes the names of attributes, with a comma between two.
pub fn write_attributes<A: Allocator>(page: &mut Page<A>, set: u16) {
    let mut is_first = true;
    'attributes: for (name, bit) in &ATTRIBUTES {
        if set & *bit != 0 {
            page.put(if is_first { " (" } else { ", " });
            page.put(name);
            is_first = false;
        }
    }
    page.put(if is_first { "" } else { ")" })
}

/// Writes what `sgr` sends for an attribute of a set alone, and not for the set.
pub fn write_lost<A: Allocator + Copy>(
    page: &mut Page<A>,
    alloc: A,
    text: &[u8],
    set: u16,
    sent: &[u8],
) {
    let none = sent_of(page, alloc, text, Tried::Attributes(0));
    'attributes: for (name, bit) in &ATTRIBUTES {
        if set & *bit != 0 {
            let alone = sent_of(page, alloc, text, Tried::Attributes(*bit));
            if let Some(lost) = first_lost(none.as_slice(), sent, alone.as_slice()) {
                page.put(", without the ");
                page.bytes(with_digit(lost));
                page.put(" of ");
                page.put(name);
                page.put(" alone");
                return;
            }
        }
    }
}

/// The conversion of the escape at a place, after its flags, its width and its precision; none of an operator.
fn conversion_at(text: &[u8], place: usize) -> Option<u8> {
    let escape = text.get(place.saturating_add(1)..).unwrap_or(b"");
    if matches!(escape, [b'+' | b'-', ..]) {
        return None;
    }
    escape.iter().copied().find(|byte| !matches!(
        *byte,
        b':' | b'-' | b'+' | b'#' | b' ' | b'.' | b'0'..=b'9'
    ))
}

/// The sentence on the token at a place that takes a value of the other kind, and its remedy.
pub fn operand_words(text: &[u8], place: usize) -> (&'static str, &'static str) {
    match conversion_at(text, place) {
        Some(b's') => ("%s takes a string, and the value is a number", "write %d"),
        Some(b'c') => ("%c takes a number, and the value is a string", "write %s"),
        Some(b'd') => ("%d takes a number, and the value is a string", "write %s"),
        Some(b'o') => ("%o takes a number, and the value is a string", "write %s"),
        Some(b'x') => ("%x takes a number, and the value is a string", "write %s"),
        Some(b'X') => ("%X takes a number, and the value is a string", "write %s"),
        Some(b'l') => (
            "%l takes a string, and the value is a number",
            "leave it out, or push a parameter that is a string",
        ),
        _ => (
            "it takes a number, and the value is a string",
            "leave it out, or push a parameter that is a number",
        ),
    }
}
