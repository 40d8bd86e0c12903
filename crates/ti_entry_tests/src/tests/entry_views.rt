//! Entries as text, and whether two entries have the same values.

use std::alloc::{AllocError, Global};
use ti_entry::{Entry, EntryReader, Extended, Refused, read};
use ti_fixtures::{Unfound, show_debug};
use ti_words::{Flag, Kind, Number, Text};

/// The entry that the bytes spell.
pub fn entry_of<'a>(bytes: &'a [u8]) -> Result<Entry<'a>, Unfound> {
    Ok(read(bytes)?)
}

/// The flags of an entry, and the one after them.
fn flags_of(alloc: Global, entry: &Entry<'_>) -> Result<Vec<Flag>, AllocError> {
    let mut flags = Vec::new(alloc);
    for index in 0..=entry.flag_count() {
        flags.push(entry.flag(index))?;
    }
    Ok(flags)
}

/// The numbers of an entry, and the one after them.
fn numbers_of(alloc: Global, entry: &Entry<'_>) -> Result<Vec<Number>, AllocError> {
    let mut numbers = Vec::new(alloc);
    for index in 0..=entry.number_count() {
        numbers.push(entry.number(index))?;
    }
    Ok(numbers)
}

/// The texts of an entry, and the one after them.
fn texts_of<'a>(alloc: Global, entry: &Entry<'a>) -> Result<Vec<Text<'a>>, AllocError> {
    let mut texts = Vec::new(alloc);
    for index in 0..=entry.text_count() {
        texts.push(entry.text(index))?;
    }
    Ok(texts)
}

/// Adds what an entry says, but for its extended part: its format, its names, its flags, its numbers and its texts.
fn show_standard(found: &mut Vec<u8>, entry: &Entry<'_>) -> Result<(), Unfound> {
    let alloc = *found.allocator();
    show_debug(
        found,
        &(
            entry.width(),
            entry.names(),
            flags_of(alloc, entry)?.as_slice(),
            numbers_of(alloc, entry)?.as_slice(),
            texts_of(alloc, entry)?.as_slice(),
        ),
    )
}

/// A capability of an extended part, after its name.
type Named<'a, T> = (Option<&'a [u8]>, T);

/// The flags of an extended part, and the one after them.
fn extended_flags_of<'a>(
    alloc: Global,
    extended: &Extended<'a>,
) -> Result<Vec<Named<'a, Flag>>, AllocError> {
    let mut flags = Vec::new(alloc);
    for index in 0..=extended.flag_count() {
        flags.push((extended.name(Kind::Flag, index), extended.flag(index)))?;
    }
    Ok(flags)
}

/// The numbers of an extended part, and the one after them.
fn extended_numbers_of<'a>(
    alloc: Global,
    extended: &Extended<'a>,
) -> Result<Vec<Named<'a, Number>>, AllocError> {
    let mut numbers = Vec::new(alloc);
    for index in 0..=extended.number_count() {
        numbers.push((extended.name(Kind::Number, index), extended.number(index)))?;
    }
    Ok(numbers)
}

/// The texts of an extended part, and the one after them.
fn extended_texts_of<'a>(
    alloc: Global,
    extended: &Extended<'a>,
) -> Result<Vec<Named<'a, Text<'a>>>, AllocError> {
    let mut texts = Vec::new(alloc);
    for index in 0..=extended.text_count() {
        texts.push((extended.name(Kind::Text, index), extended.text(index)))?;
    }
    Ok(texts)
}

/// Adds what an extended part says: its flags, its numbers and its texts, with their names.
fn show_extended(found: &mut Vec<u8>, extended: &Extended<'_>) -> Result<(), Unfound> {
    let alloc = *found.allocator();
    show_debug(
        found,
        &(
            extended_flags_of(alloc, extended)?.as_slice(),
            extended_numbers_of(alloc, extended)?.as_slice(),
            extended_texts_of(alloc, extended)?.as_slice(),
        ),
    )
}

/// Adds what an entry says, and then what its extended part does.
pub fn show_entry(found: &mut Vec<u8>, entry: &Entry<'_>) -> Result<(), Unfound> {
    show_standard(found, entry)?;
    show_extended(found, &entry.extended())
}

/// Whether two entries say the same but for their extended parts.
fn is_standard_equal(one: &Entry<'_>, other: &Entry<'_>) -> bool {
    one.width() == other.width()
        && one.names() == other.names()
        && one.flag_count() == other.flag_count()
        && one.number_count() == other.number_count()
        && one.text_count() == other.text_count()
        && (0..one.flag_count()).all(|i| one.flag(i) == other.flag(i))
        && (0..one.number_count()).all(|i| one.number(i) == other.number(i))
        && (0..one.text_count()).all(|i| one.text(i) == other.text(i))
}

/// Whether all capabilities of a kind have the same names in two extended parts.
fn are_names_equal(one: &Extended<'_>, other: &Extended<'_>, kind: Kind) -> bool {
    one.count_of(kind) == other.count_of(kind)
        && (0..one.count_of(kind)).all(|i| one.name(kind, i) == other.name(kind, i))
}

/// Whether two extended parts say the same, name by name.
fn is_extended_equal(one: &Extended<'_>, other: &Extended<'_>) -> bool {
    are_names_equal(one, other, Kind::Flag)
        && are_names_equal(one, other, Kind::Number)
        && are_names_equal(one, other, Kind::Text)
        && (0..one.flag_count()).all(|i| one.flag(i) == other.flag(i))
        && (0..one.number_count()).all(|i| one.number(i) == other.number(i))
        && (0..one.text_count()).all(|i| one.text(i) == other.text(i))
}

/// Whether two entries say the same.
pub fn are_equal(one: &Entry<'_>, other: &Entry<'_>) -> bool {
    is_standard_equal(one, other) && is_extended_equal(&one.extended(), &other.extended())
}

/// Whether two ways to read bytes come to the same: entries that say the same, or one refusal.
pub fn are_same(one: &Result<Entry<'_>, Refused>, other: &Result<Entry<'_>, Refused>) -> bool {
    match (one, other) {
        (Ok(one), Ok(other)) => are_equal(one, other),
        (Err(one), Err(other)) => one == other,
        _ => false,
    }
}

/// Whether the bytes that a reader was fed say what an entry does.
pub fn is_read_as(reader: &EntryReader, entry: &Entry<'_>) -> bool {
    match reader.finish() {
        Ok(read) => are_equal(&read, entry),
        Err(_) => false,
    }
}
