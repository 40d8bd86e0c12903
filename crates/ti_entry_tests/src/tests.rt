//! Entries by hand, as `tic` writes them, and changed, in tables.

use std::process::Abort;
use ti_fixtures::{Finds, first_wrong};

/// Ends the test unless the condition holds. One call for each condition keeps the proofs of the tests short.
pub fn claim(rt: &impl Abort, holds: bool, condition: &str) {
    assert!(rt; holds, "it does not hold that {condition}");
}

/// Claims a condition, which the message names.
macro_rules! assert_that {
    ($rt:expr; $condition:expr) => {
        crate::tests::claim(&$rt, $condition, stringify!($condition))
    };
}

/// Ends the test with the first row that does not hold.
pub fn check_rows<F: Finds>(rt: &(impl Abort + AllocGlobal), rows: &str, finds: &F) {
    if let Some(row) = first_wrong(rt.alloc(), rows, finds) {
        claim(rt, false, row);
    }
}

mod changed_bytes;
mod cut_entries;
mod deciding_bytes;
mod entries_read;
mod entries_reopened;
mod entry_messages;
mod entry_refusals;
mod entry_sources;
mod entry_views;
mod extended_parts;
mod items;
mod names;
mod uses;
mod ways_to_read;
mod wide_entries;
