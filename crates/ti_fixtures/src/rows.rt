//! Rows of tests, which are lines of one text.
//!
//! A row is what is given, ` => ` and what is to be found for it. ` | ` stands between its fields. Bytes are as terminfo(5) writes
//! them, as in `\E[H^G\000`; `-` is no bytes, and `@NAME` the entry, capability or trace of that name. A line that starts with
//! `# ` is a remark.

use crate::named::named;
use std::alloc::{AllocError, Global};
use std::fmt::{Debug, Display};
use std::str::from_utf8;

/// The first five fields of a row or of a part of it. Those that it lacks are empty.
fn fields_of(row: &str) -> [&str; 5] {
    let mut fields = [""; 5];
    let mut count = 0;
    for field in row.split(" | ") {
        if count < 5 {
            fields[count] = field;
            count += 1;
        }
    }
    fields
}

/// The number of a field.
pub fn number_of(field: &str) -> Result<u64, Unfound> {
    Ok(field.parse::<u64>().ok().ok_or("a number")?)
}

/// The place or the length of a field.
pub fn place_of(field: &str) -> Result<usize, Unfound> {
    Ok(field.parse::<usize>().ok().ok_or("a place")?)
}

/// How far a byte in the notation is read.
#[derive(Clone, Copy)]
enum ByteSoFar {
    Whole,
    Backslash,
    Caret,
    /// The value of so many octal digits.
    Octal(u8, u8),
}

/// Reads a character: the part that is read now, and a byte that is whole.
fn read_character(part: ByteSoFar, character: u8) -> (ByteSoFar, Option<u8>) {
    match (part, character) {
        (ByteSoFar::Whole, b'\\') => (ByteSoFar::Backslash, None),
        (ByteSoFar::Whole, b'^') => (ByteSoFar::Caret, None),
        (ByteSoFar::Whole, _) => (ByteSoFar::Whole, Some(character)),
        (ByteSoFar::Caret, _) => (ByteSoFar::Whole, Some(character ^ 0x40)),
        (ByteSoFar::Backslash, b'E') => (ByteSoFar::Whole, Some(0x1b)),
        (ByteSoFar::Backslash, b'n') => (ByteSoFar::Whole, Some(b'\n')),
        (ByteSoFar::Backslash, b's') => (ByteSoFar::Whole, Some(b' ')),
        (ByteSoFar::Backslash, b'0'..=b'7') => (ByteSoFar::Octal(character & 7, 1), None),
        (ByteSoFar::Backslash, _) => (ByteSoFar::Whole, Some(character)),
        (ByteSoFar::Octal(value, 2), _) => (ByteSoFar::Whole, Some(value << 3 | character & 7)),
        (ByteSoFar::Octal(value, _), _) => (ByteSoFar::Octal(value << 3 | character & 7, 2), None),
    }
}

/// The bytes of a field.
pub fn bytes_of(alloc: Global, field: &str) -> Result<Vec<u8>, AllocError> {
    if field == "-" {
        return Ok(Vec::new(alloc));
    }
    if let Some(bytes) = named(field) {
        return bytes.to_vec(alloc);
    }
    let mut bytes = Vec::new(alloc);
    let mut part = ByteSoFar::Whole;
    for character in field.as_bytes() {
        let (next, byte) = read_character(part, *character);
        part = next;
        if let Some(byte) = byte {
            bytes.push(byte)?;
        }
    }
    Ok(bytes)
}

/// Why nothing is found for a row: any error.
#[derive(Drop)]
pub struct Unfound;

// It has no `Debug`, so that each error that has it converts.
impl<E: Debug + Drop> From<E> for Unfound {
    fn from(_error: E) -> Unfound {
        Unfound
    }
}

/// Adds what a value prints.
pub fn show<D: Display>(found: &mut Vec<u8>, value: &D) -> Result<(), Unfound> {
    let text = format!(in *found.allocator(); "{value}")?;
    Ok(found.extend_from_slice(text.as_str().as_bytes())?)
}

/// Adds what a value prints with `{:?}`.
pub fn show_debug<D: Debug>(found: &mut Vec<u8>, value: &D) -> Result<(), Unfound> {
    let text = format!(in *found.allocator(); "{value:?}")?;
    Ok(found.extend_from_slice(text.as_str().as_bytes())?)
}

/// Adds numbers with a blank between them.
pub fn show_numbers(found: &mut Vec<u8>, numbers: &[u64]) -> Result<(), Unfound> {
    let mut is_first = true;
    for number in numbers {
        if !is_first {
            found.push(b' ')?;
        }
        is_first = false;
        show(found, number)?;
    }
    Ok(())
}

/// Finds nothing unless a condition holds.
pub fn only_if(holds: bool) -> Result<(), Unfound> {
    if holds { Ok(()) } else { Err(Unfound) }
}

/// Whether a value prints this.
fn is_shown<D: Display>(alloc: Global, value: &D, text: &str) -> Result<bool, Unfound> {
    let mut shown = Vec::new(alloc);
    show(&mut shown, value)?;
    Ok(shown.as_slice() == text.as_bytes())
}

/// Whether each value prints its text.
pub fn are_shown<D: Display>(alloc: Global, values: &[(D, &str)]) -> bool {
    let mut is_each = true;
    for (value, text) in values {
        is_each &= is_shown(alloc, value, *text).unwrap_or(false);
    }
    is_each
}

/// The values of a row.
#[derive(Clone, Copy)]
pub struct Given<'a, 'w> {
    /// All of it.
    pub text: &'a str,
    /// The bytes of the first field.
    pub bytes: &'a [u8],
    /// The bytes of the second field.
    pub second: &'a [u8],
    /// The bytes of the third field.
    pub third: &'a [u8],
    /// The words of the first field, between which blanks stand. There are none if its bytes are no text.
    pub words: &'w [&'a str],
}

impl<'a, 'w> Given<'a, 'w> {
    /// Its fields.
    pub fn fields(&self) -> [&'a str; 5] {
        fields_of(self.text)
    }
}

/// A way to find what rows are about.
pub trait Finds {
    /// Adds what is found for what a row gives.
    fn find(&self, given: &Given<'_, '_>, found: &mut Vec<u8>) -> Result<(), Unfound>;
}

/// Whether what is found for what a row gives is this.
fn is_found<F: Finds>(
    alloc: Global,
    finds: &F,
    given: &Given<'_, '_>,
    wanted: &str,
) -> Result<bool, Unfound> {
    let mut found = Vec::new(alloc);
    finds.find(given, &mut found)?;
    Ok(found.as_slice() == bytes_of(alloc, wanted)?.as_slice())
}

/// The words of a text, between which blanks stand.
fn words_of(alloc: Global, text: &str) -> Result<Vec<&str>, Unfound> {
    let mut words = Vec::new(alloc);
    if !text.is_empty() {
        for word in text.split(' ') {
            words.push(word)?;
        }
    }
    Ok(words)
}

/// Whether a row holds that gives this text, and these bytes of its first field.
fn holds_with<F: Finds>(
    alloc: Global,
    finds: &F,
    (text, wanted): (&str, &str),
    bytes: &[u8],
) -> Result<bool, Unfound> {
    let [_, second, third, ..] = fields_of(text);
    let second = bytes_of(alloc, second)?;
    let third = bytes_of(alloc, third)?;
    let words = words_of(alloc, from_utf8(bytes).unwrap_or(""))?;
    let given = Given {
        text,
        bytes,
        second: second.as_slice(),
        third: third.as_slice(),
        words: words.as_slice(),
    };
    is_found(alloc, finds, &given, wanted)
}

/// Whether what is found for what a row gives is what the row says.
fn holds<F: Finds>(alloc: Global, finds: &F, row: &str) -> Result<bool, Unfound> {
    let (text, wanted) = row.split_once(" => ").ok_or("a row")?;
    let [first, ..] = fields_of(text);
    let bytes = bytes_of(alloc, first)?;
    holds_with(alloc, finds, (text, wanted), bytes.as_slice())
}

/// The first row for which nothing, or something else, is found than it says, if there is one.
pub fn first_wrong<'a, F: Finds>(alloc: Global, rows: &'a str, finds: &F) -> Option<&'a str> {
    for row in rows.lines() {
        let is_row = !row.is_empty() && !row.starts_with("# ");
        if is_row && !holds(alloc, finds, row).unwrap_or(false) {
            return Some(row);
        }
    }
    None
}
