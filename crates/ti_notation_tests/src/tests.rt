//! Worked rows of the notation, of padding, of the parser, of sinks and of traces, in tables.

use std::process::Abort;
use ti_fixtures::{Finds, first_wrong};

/// Ends the test unless the condition holds. One call for each condition keeps the proofs of the tests short.
pub fn claim(rt: &impl Abort, holds: bool, condition: &str) {
    assert!(rt; holds, "it does not hold that {condition}");
}

/// Claims a condition, which the message names.
macro_rules! assert_that {
    ($rt:expr; $condition:expr) => {
        crate::tests::claim(&$rt, $condition, stringify!($condition))
    };
}

/// Ends the test unless the bytes are the same: one call, where `==` and a claim would be two.
pub fn claim_same(rt: &impl Abort, one: &[u8], other: &[u8], what: &str) {
    claim(rt, one == other, what);
}

/// Claims that bytes are the same.
macro_rules! assert_same {
    ($rt:expr; $one:expr, $other:expr) => {
        crate::tests::claim_same(&$rt, $one, $other, stringify!($one))
    };
}

/// Ends the test with the first row that does not hold.
pub fn check_rows<F: Finds>(rt: &(impl Abort + AllocGlobal), rows: &str, finds: &F) {
    if let Some(row) = first_wrong(rt.alloc(), rows, finds) {
        claim(rt, false, row);
    }
}

mod notation;
mod notation_memory;
mod notation_read;
mod padding_memory;
mod padding_rows;
mod padding_writers;
mod parser;
mod sent_names;
mod sinks;
mod traces;
mod uses;
