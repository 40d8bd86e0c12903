//! Runs on bytes that are no entry.

use super::ending::{EndOf, end_of};
use crate::tests::check_rows;
use std::alloc::Global;
use ti_fixtures::{Finds, Given, Unfound, only_if, show};

/// Whether a run over the front of an entry ends with status 3 and the line on it.
fn is_truncated(alloc: Global, words: &[&str], front: &[u8]) -> bool {
    let end = end_of(alloc, words, front);
    let is_alone = end.status == 3 && end.output.is_empty();
    is_alone && end.errors.as_slice().starts_with(b"entry: Truncated at ")
}

/// How many fronts an entry has. Each is refused.
struct FrontsOf;

impl Finds for FrontsOf {
    fn find(&self, given: &Given<'_, '_>, found: &mut Vec<u8>) -> Result<(), Unfound> {
        let mut is_each = true;
        for len in 0..given.second.len() {
            is_each &= is_truncated(*found.allocator(), given.words, &given.second[..len]);
        }
        only_if(is_each)?;
        show(found, &given.second.len())
    }
}

#[test]
fn fronts_of_entries_end_with_status_three(rt: HostRuntime) {
    check_rows(&rt, "ti show | @SMALL => 24", &FrontsOf);
}

#[test]
fn bytes_that_are_no_entry_end_with_status_three(rt: HostRuntime) {
    check_rows(
        &rt,
        r"ti show | \E^A => 3 err entry: BadMagic at 0\n",
        &EndOf,
    );
}
