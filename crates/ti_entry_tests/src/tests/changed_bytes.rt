//! Each byte of an entry changed to each other one.

use super::ways_to_read::refusal_by_each_way;
use crate::tests::check_rows;
use std::alloc::Global;
use ti_fixtures::entries::changed;
use ti_fixtures::{Finds, Given, Unfound, place_of, show};

/// How many of the 256 entries that have another byte at a place, or the same, are read or refused alike in each way. That
/// with the same byte has to be read.
fn alike_at(alloc: Global, bytes: &[u8], place: usize) -> Result<u32, Unfound> {
    let mut count = 0u32;
    for byte in 0..=255u8 {
        let other = changed(alloc, bytes, place, &[byte])?;
        let is_refused = refusal_by_each_way(alloc, other.as_slice())?.is_some();
        if !is_refused || other.as_slice() != bytes {
            count = count.saturating_add(1);
        }
    }
    Ok(count)
}

/// The same for all places of a row.
struct AlikeIn;

impl Finds for AlikeIn {
    fn find(&self, given: &Given<'_, '_>, found: &mut Vec<u8>) -> Result<(), Unfound> {
        let [_, from, to, ..] = given.fields();
        let mut count = 0u32;
        for place in place_of(from)?..place_of(to)? {
            let alike = alike_at(*found.allocator(), given.bytes, place)?;
            count = count.saturating_add(alike);
        }
        show(found, &count)
    }
}

#[test]
fn a_changed_byte_of_a_header(rt: HostRuntime) {
    check_rows(&rt, "@SMALL | 0 | 14 => 3584", &AlikeIn);
}

#[test]
fn a_changed_byte_of_a_section(rt: HostRuntime) {
    check_rows(&rt, "@SMALL | 14 | 24 => 2560", &AlikeIn);
}

#[test]
fn a_changed_byte_before_an_extended_part(rt: HostRuntime) {
    check_rows(&rt, "@EXTENDED | 0 | 13 => 3328", &AlikeIn);
}

#[test]
fn a_changed_byte_next_to_an_extended_part(rt: HostRuntime) {
    check_rows(&rt, "@EXTENDED | 13 | 26 => 3328", &AlikeIn);
}

#[test]
fn a_changed_byte_of_an_extended_header(rt: HostRuntime) {
    check_rows(&rt, "@EXTENDED | 26 | 40 => 3584", &AlikeIn);
}

#[test]
fn a_changed_byte_of_an_extended_table(rt: HostRuntime) {
    check_rows(&rt, "@EXTENDED | 40 | 53 => 3328", &AlikeIn);
}

#[test]
fn a_changed_byte_of_a_header_with_shared_texts(rt: HostRuntime) {
    check_rows(&rt, "@SHARED | 0 | 14 => 3584", &AlikeIn);
}

#[test]
fn a_changed_byte_of_shared_texts(rt: HostRuntime) {
    check_rows(&rt, "@SHARED | 14 | 20 => 1536", &AlikeIn);
}

#[test]
fn a_changed_byte_of_a_header_with_a_capability(rt: HostRuntime) {
    check_rows(&rt, "@QUESTION | 0 | 14 => 3584", &AlikeIn);
}

#[test]
fn a_changed_byte_of_an_offset(rt: HostRuntime) {
    check_rows(&rt, "@QUESTION | 14 | 28 => 3584", &AlikeIn);
}

#[test]
fn a_changed_byte_of_a_table(rt: HostRuntime) {
    check_rows(&rt, "@QUESTION | 28 | 41 => 3328", &AlikeIn);
}

#[test]
fn a_changed_byte_of_a_header_with_an_odd_table(rt: HostRuntime) {
    check_rows(&rt, "@ODD | 0 | 13 => 3328", &AlikeIn);
}

#[test]
fn a_changed_byte_of_an_odd_table(rt: HostRuntime) {
    check_rows(&rt, "@ODD | 13 | 25 => 3072", &AlikeIn);
}

#[test]
fn a_changed_byte_of_a_header_without_numbers(rt: HostRuntime) {
    check_rows(&rt, "@TEXT | 0 | 12 => 3072", &AlikeIn);
}

#[test]
fn a_changed_byte_of_a_text(rt: HostRuntime) {
    check_rows(&rt, "@TEXT | 12 | 22 => 2560", &AlikeIn);
}

#[test]
fn a_changed_byte_of_a_wide_header(rt: HostRuntime) {
    check_rows(&rt, "@WIDE | 0 | 13 => 3328", &AlikeIn);
}

#[test]
fn a_changed_byte_of_a_wide_number(rt: HostRuntime) {
    check_rows(&rt, "@WIDE | 13 | 26 => 3328", &AlikeIn);
}

#[test]
fn a_changed_byte_before_a_wide_extended_part(rt: HostRuntime) {
    check_rows(&rt, "@WIDE_EXTENDED | 0 | 13 => 3328", &AlikeIn);
}

#[test]
fn a_changed_byte_next_to_a_wide_extended_part(rt: HostRuntime) {
    check_rows(&rt, "@WIDE_EXTENDED | 13 | 26 => 3328", &AlikeIn);
}

#[test]
fn a_changed_byte_of_a_wide_extended_part(rt: HostRuntime) {
    check_rows(&rt, "@WIDE_EXTENDED | 26 | 36 => 2560", &AlikeIn);
}

#[test]
fn a_changed_byte_of_a_wide_extended_number(rt: HostRuntime) {
    check_rows(&rt, "@WIDE_EXTENDED | 36 | 45 => 2304", &AlikeIn);
}
