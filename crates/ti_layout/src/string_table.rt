//! The texts of a string table, each up to its NUL.

ghost use Rattle.std.specs.Prelude.{◌≡◌, ◌≢◌, ◌+◌, ◌<◌, ◌≤◌, ◌↔◌, length, take, IfSome, IsTrue};
ghost use Rattle.std.specs.List.{position_or_len};
ghost use Rattle.ti_base.specs.Limits.{most_entry_bytes};
ghost use Rattle.ti_words.specs.Texts.{is_nul, text_value};
ghost use Rattle.ti_words.specs.Word.{word_at as the_word_at};
ghost use Rattle.ti_layout.specs.Table.{text_from as the_text_from, until_nul as the_until_nul, size_at as the_size_at, text_of_word};

use crate::word::word_at;
use memchr::memchr;
use std::simd::prelude::*;
use ti_words::Text;

/// The bytes from a place up to the next NUL. Most texts have less than 16, and start as far before the end of their table.
#[inline(always)]
pub(crate) fn text_from(table: &[u8], place: usize) -> &[u8]
    ensures { result.now ≡ the_text_from table.now place }
{
    if place < (table.len() + 1).saturating_sub(16) {
        let rest = &table[place..];
        if let Some(end) = first_nul(rest) {
            return &rest[..end];
        }
    }
    longer_text_from(table, place)
}

/// The bytes from a place up to the next NUL, wherever both stand.
#[inline(never)]
fn longer_text_from(table: &[u8], place: usize) -> &[u8]
    ensures { result.now ≡ the_text_from table.now place }
{
    match table.get(place..) {
        Some(rest) => until_nul(rest),
        None => until_nul(&[]),
    }
}

/// The bytes before the first NUL. Most texts have less than 32, which one look at a vector finds.
#[inline(always)]
pub(crate) fn until_nul(bytes: &[u8]) -> &[u8]
    ensures { result.now ≡ the_until_nul bytes.now }
{
    if bytes.len() >= 32 {
        if let Some(end) = near_nul(bytes) {
            return &bytes[..end];
        }
    }
    until_far_nul(bytes)
}

/// The place of the first NUL among the first 16 bytes, in which nine texts of ten have theirs.
#[inline(always)]
fn first_nul(bytes: &[u8]) -> Option<usize>
    requires { 16 ≤ length bytes.now }
    ensures near { IfSome result (λ place. place < 16) }
    ensures first { IfSome result (λ place. place ≡ position_or_len is_nul (take 16 bytes.now)) }
{
    let marks = u8x16::from_slice(bytes)
        .simd_eq(u8x16::splat(0))
        .to_bitmask();
    if marks == 0 {
        return None;
    }
    Some(marks.trailing_zeros() as usize)
}

/// The place of the first NUL among the first 32 bytes.
#[inline(always)]
fn near_nul(bytes: &[u8]) -> Option<usize>
    requires { 32 ≤ length bytes.now }
    ensures near { IfSome result (λ place. place < 32) }
    ensures first { IfSome result (λ place. place ≡ position_or_len is_nul (take 32 bytes.now)) }
{
    let nuls = u8x32::from_slice(bytes)
        .simd_eq(u8x32::splat(0))
        .to_bitmask();
    if nuls == 0 {
        return None;
    }
    Some(nuls.trailing_zeros() as usize)
}

/// The bytes before the first NUL, however far it stands.
#[inline(never)]
fn until_far_nul(bytes: &[u8]) -> &[u8]
    ensures { result.now ≡ the_until_nul bytes.now }
{
    match memchr(0, bytes) {
        Some(end) => &bytes[..end],
        None => bytes,
    }
}

/// Returns the value at an offset of a table.
pub(crate) fn text_of<'a>(table: &'a [u8], offset: i16) -> Text<'a>
    ensures { text_value result ≡ text_of_word table.now offset }
{
    match offset {
        -1 => Text::Absent,
        offset if offset < 0 => Text::Cancelled,
        offset => Text::Value(text_from(table, offset as usize)),
    }
}

/// Whether the bytes from a place up to the next NUL are this text.
pub(crate) fn is_text(table: &[u8], place: usize, text: &[u8]) -> bool
    ensures { IsTrue result ↔ the_text_from table.now place ≡ text.now }
{
    match table.get(place..) {
        Some(rest) => is_until_nul(rest, text),
        None => is_until_nul(&[], text),
    }
}

/// Whether the bytes before the first NUL are this text. Mostly the first byte decides it, and else one past its length.
fn is_until_nul(bytes: &[u8], text: &[u8]) -> bool
    ensures { IsTrue result ↔ the_until_nul bytes.now ≡ text.now }
{
    if start_apart(bytes, text) {
        return false;
    }
    let front = &bytes[..bytes.len().min(text.len() + 1)];
    until_nul(front) == text
}

/// Whether both have a first byte, and not the same one.
fn start_apart(bytes: &[u8], text: &[u8]) -> bool
    ensures { IsTrue result → the_until_nul bytes.now ≢ text.now }
{
    match (bytes, text) {
        ([first, ..], [wanted, ..]) => first != wanted,
        _ => false,
    }
}

/// The size of the text at an offset and its NUL, if it is there.
pub(crate) fn size_at(bytes: &[u8], table: &[u8], place: usize) -> usize
    requires room { place + 2 ≤ length bytes.now }
    requires small { length table.now ≤ most_entry_bytes }
    ensures value { result ≡ the_size_at table.now (the_word_at 2 bytes.now place) }
    ensures most { result ≤ most_entry_bytes + 1 }
{
    let offset = word_at(bytes, place);
    if offset < 0 {
        return 0;
    }
    text_from(table, offset as usize).len() + 1
}
