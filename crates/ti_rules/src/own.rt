//! Strings of a stranger's entry that have a rule of their own: bytes that a program prints by themselves, and data that a
//! terminal keeps.

ghost use Rattle.std.specs.Prelude.{◌≡◌, OnOk};
ghost use Rattle.ti_rules.specs.Own.{acting_finding, acting_first, acting_in_pairs, acting_of, after_first, after_selection, asked_name, has_character, has_own_data, is_acting, is_clipboard_given, is_given, is_given_after, is_key_given, judged_name, on_acting, own_remarks, programs_keys, rest_after};
ghost use Rattle.ti_rules.specs.inner.Growing.{GainsThese};

use crate::finding::Finding;
use crate::remark::{About, Evidence, NamedText};
use crate::report::Report;
use std::alloc::{AllocError, Allocator};
use ti_allow::Effect;

/// Whether a byte acts on some terminal where a program prints it: ENQ, a shift, an escape, or a control of C1 but ST, which does
/// nothing by itself.
fn is_acting(byte: u8) -> bool
    ensures { result ≡ is_acting byte }
{
    matches!(byte, 0x05 | 0x0e | 0x0f | 0x1b | 0x80..=0x9b | 0x9d..=0x9f)
}

/// What is left from the first such byte on, of the second ones of pairs.
fn acting_in_pairs(text: &[u8]) -> &[u8]
    ensures { result.now ≡ acting_in_pairs text.now }
{
    let mut rest = text;
    'pairs: while let [_first, from @ ..] = rest {
        let [second, after @ ..] = from else {
            return &[];
        };
        if is_acting(*second) {
            return from;
        }
        rest = after;
    }
    &[]
}

/// The same of the first byte alone.
fn acting_first(text: &[u8]) -> &[u8]
    ensures { result.now ≡ acting_first text.now }
{
    match text {
        [byte, ..] if is_acting(*byte) => text,
        _ => &[],
    }
}

/// What is left from the first byte on that a program prints of the string with a name, and that acts.
fn acting_of<'a>(name: &[u8], text: &'a [u8]) -> &'a [u8]
    ensures { result.now ≡ acting_of name.now text.now }
{
    if b"acsc".as_slice() == name {
        return acting_in_pairs(text);
    }
    if b"pad".as_slice() == name {
        return acting_first(text);
    }
    &[]
}

/// The finding on such a byte.
fn acting_finding(byte: u8) -> Finding
    ensures { result ≡ acting_finding byte }
{
    if byte == 0x05 {
        return Finding::Control(Effect::Answer);
    }
    Finding::UnknownFunction
}

/// What stands after the first such byte, and nothing without one.
fn rest_after(byte: u8, text: &[u8]) -> &[u8]
    ensures { result.now ≡ rest_after byte text.now }
{
    let mut rest = text;
    'bytes: while let [one, after @ ..] = rest {
        if *one == byte {
            return after;
        }
        rest = after;
    }
    &[]
}

/// Whether data are the second parameter as a string, and what ends a control string.
fn is_given(data: &[u8]) -> bool
    ensures { result ≡ is_given data.now }
{
    b"%p2%s\x07".as_slice() == data
        || b"%p2%s\x1b\\".as_slice() == data
        || b"%p2%s\x9c".as_slice() == data
}

/// What stands after the letters that select a clipboard.
fn after_selection(text: &[u8]) -> &[u8]
    ensures { result.now ≡ after_selection text.now }
{
    let mut rest = text;
    'bytes: while let [byte, after @ ..] = rest {
        if !matches!(*byte, b'a'..=b'z') {
            return rest;
        }
        rest = after;
    }
    &[]
}

/// The same, or what stands after the first parameter in their place.
fn after_first(text: &[u8]) -> &[u8]
    ensures { result.now ≡ after_first text.now }
{
    match text.strip_prefix(b"%p1%s") {
        Some(rest) => rest,
        None => after_selection(text),
    }
}

/// Whether a semicolon and such data are left.
fn is_given_after(rest: &[u8]) -> bool
    ensures { result ≡ is_given_after rest.now }
{
    match rest {
        [byte, data @ ..] => *byte == b';' && is_given(data),
        [] => false,
    }
}

/// Whether a string writes a clipboard, and its second parameter alone into it.
fn is_clipboard_given(text: &[u8]) -> bool
    ensures { result ≡ is_clipboard_given text.now }
{
    match text.strip_prefix(b"\x1b]52;") {
        Some(rest) => is_given_after(after_first(rest)),
        None => false,
    }
}

/// Whether a string prints a character that is computed.
fn has_character(text: &[u8]) -> bool
    ensures { result ≡ has_character text.now }
{
    let mut rest = text;
    'bytes: while let [_byte, after @ ..] = rest {
        if rest.starts_with(b"%c") {
            return true;
        }
        rest = after;
    }
    false
}

/// Whether a string gives a key its second parameter alone.
fn is_key_given(text: &[u8]) -> bool
    ensures { result ≡ is_key_given text.now }
{
    !has_character(text) && is_given(rest_after(b'/', text))
}

/// Whether the string with a name programs keys.
fn programs_keys(name: &[u8]) -> bool
    ensures { result ≡ programs_keys name.now }
{
    b"pfkey".as_slice() == name
        || b"pfloc".as_slice() == name
        || b"pfx".as_slice() == name
        || b"pfxl".as_slice() == name
        || b"pln".as_slice() == name
}

/// Whether what the terminal keeps of the string with a name is not its parameter alone.
fn has_own_data(name: &[u8], text: &[u8]) -> bool
    ensures { result ≡ has_own_data name.now text.now }
{
    b"Ms".as_slice() == name && !is_clipboard_given(text)
        || programs_keys(name) && !is_key_given(text)
}

/// The name by which the table is asked what a string of a stranger's entry may send: none if the terminal keeps what the entry has.
fn judged_name<'a>(name: &'a [u8], text: &[u8]) -> &'a [u8]
    ensures { result.now ≡ judged_name name.now text.now }
{
    if has_own_data(name, text) {
        return &[];
    }
    name
}

/// The name by which the table is asked what a string may send.
pub fn asked_name<'a>(untrusted: bool, name: &'a [u8], text: &[u8]) -> &'a [u8]
    ensures { result.now ≡ asked_name untrusted name.now text.now }
{
    if untrusted {
        return judged_name(name, text);
    }
    name
}

impl<'r, 'a, A: Allocator + Copy> Report<'r, 'a, A> {
    /// Adds the remark on a byte that acts, of which this is left.
    fn push_acting(&mut self, subject: &NamedText<'a>, left: &[u8]) -> Result<(), AllocError>
        ensures { OnOk result (GainsThese
            (on_acting subject.now.name.now subject.now.text.now left.now) self.old self.new) }
    {
        let [byte, ..] = left else {
            return Ok(());
        };
        let mut places = Vec::new(self.allocator());
        places.push(subject.text.len().saturating_sub(left.len()))?;
        let mut words = Vec::new(self.allocator());
        words.push(*byte)?;
        self.push(
            About::Text(*subject),
            places,
            acting_finding(*byte),
            Evidence::Function(words),
        )
    }

    /// Adds the remark on a byte that acts where a program prints it, if the entry is a stranger's.
    pub fn push_own(&mut self, untrusted: bool, subject: &NamedText<'a>) -> Result<(), AllocError>
        ensures { OnOk result (GainsThese
            (own_remarks untrusted subject.now.name.now subject.now.text.now) self.old self.new) }
    {
        if !untrusted {
            return Ok(());
        }
        self.push_acting(subject, acting_of(subject.name, subject.text))
    }
}
