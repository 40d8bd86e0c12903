//! Each front of an entry, and entries that are cut in two.

use super::entry_views::{entry_of, is_read_as};
use super::ways_to_read::refusal_by_each_way;
use crate::tests::check_rows;
use std::alloc::Global;
use ti_entry::{Entry, EntryReader, Fault, Refused, read};
use ti_fixtures::{Finds, Given, Unfound, show};

/// Entries, and the lengths of their fronts that are entries too: of an extended one also that without its extended part.
/// Each other front is truncated at its length.
const FRONTS: &str = r"
@SMALL => 24
@EXTENDED => 24 53
@SHARED => 20
@QUESTION => 41
@ODD => 25
@TEXT => 22
@WIDE => 26
@WIDE_EXTENDED => 26 45
";

/// Whether a front is an entry, for each way to read it, or else is truncated at its length.
fn is_entry(alloc: Global, front: &[u8]) -> Result<bool, Unfound> {
    match refusal_by_each_way(alloc, front)? {
        None => Ok(true),
        Some(refused) if refused.fault == Fault::Truncated && refused.place == front.len() => {
            Ok(false)
        }
        Some(_) => Err(Unfound),
    }
}

/// The lengths of the fronts that are entries.
struct FrontsIn;

impl Finds for FrontsIn {
    fn find(&self, given: &Given<'_, '_>, found: &mut Vec<u8>) -> Result<(), Unfound> {
        for cut in 0..=given.bytes.len() {
            if is_entry(*found.allocator(), &given.bytes[..cut])? {
                if !found.is_empty() {
                    found.push(b' ')?;
                }
                show(found, &cut)?;
            }
        }
        Ok(())
    }
}

#[test]
fn each_front_is_truncated_at_its_length(rt: HostRuntime) {
    check_rows(&rt, FRONTS, &FrontsIn);
}

/// Why a reader that is fed two pieces refuses them.
fn refusal_in_two(front: &[u8], back: &[u8]) -> Option<Refused> {
    let mut reader = EntryReader::new();
    if let Err(refused) = reader.feed(front) {
        return Some(refused);
    }
    if let Err(refused) = reader.feed(back) {
        return Some(refused);
    }
    reader.finish().err()
}

/// In how many ways bytes are cut in two and refused as they are whole. The second piece is not empty.
fn cuts_of(bytes: &[u8]) -> u32 {
    let refused = read(bytes).err();
    let mut count = 0u32;
    for cut in 0..bytes.len() {
        if refusal_in_two(&bytes[..cut], &bytes[cut..]) == refused {
            count = count.saturating_add(1);
        }
    }
    count
}

/// Entries, and how many cuts all their fronts have, but for the entry itself: of n bytes n (n - 1) / 2.
const CUTS: &str = r"
@SMALL => 276
@EXTENDED => 1378
@SHARED => 190
@QUESTION => 820
@ODD => 300
@TEXT => 231
@WIDE => 325
@WIDE_EXTENDED => 990
";

/// How many cuts of fronts of an entry are refused as the front is whole.
struct CutsIn;

impl Finds for CutsIn {
    fn find(&self, given: &Given<'_, '_>, found: &mut Vec<u8>) -> Result<(), Unfound> {
        let mut count = 0u32;
        for len in 0..given.bytes.len() {
            count = count.saturating_add(cuts_of(&given.bytes[..len]));
        }
        show(found, &count)
    }
}

#[test]
fn each_front_is_refused_alike_however_it_is_cut(rt: HostRuntime) {
    check_rows(&rt, CUTS, &CutsIn);
}

/// Whether an entry that is cut in two says what it says whole, and the pieces are kept.
fn is_read_in_two(entry: &Entry<'_>, first: &[u8], second: &[u8]) -> bool {
    let mut reader = EntryReader::new();
    reader.feed(first).is_ok()
        && reader.kept() == first.len()
        && reader.feed(second).is_ok()
        && reader.kept() == first.len().saturating_add(second.len())
        && is_read_as(&reader, entry)
}

/// In how many ways an entry is cut in two. Either piece may be empty.
struct CutsReadIn;

impl Finds for CutsReadIn {
    fn find(&self, given: &Given<'_, '_>, found: &mut Vec<u8>) -> Result<(), Unfound> {
        let entry = entry_of(given.bytes)?;
        let mut count = 0u32;
        for cut in 0..=given.bytes.len() {
            let (first, second) = given.bytes.split_at(cut);
            if is_read_in_two(&entry, first, second) {
                count = count.saturating_add(1);
            }
        }
        show(found, &count)
    }
}

/// Entries, and in how many ways they are cut in two: of n bytes n + 1.
const IN_TWO: &str = r"
@SMALL => 25
@EXTENDED => 54
@ODD => 26
";

#[test]
fn an_entry_is_cut_anywhere(rt: HostRuntime) {
    check_rows(&rt, IN_TWO, &CutsReadIn);
}
