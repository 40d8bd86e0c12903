//! Texts and entries with mistakes, in tables.

use std::process::Abort;
use ti_fixtures::{Finds, first_wrong};

/// Ends the test unless the condition holds. One call for each condition keeps the proofs of the tests short.
pub fn claim(rt: &impl Abort, holds: bool, condition: &str) {
    assert!(rt; holds, "it does not hold that {condition}");
}

/// Claims a condition, which the message names.
macro_rules! assert_that {
    ($rt:expr; $condition:expr) => {
        crate::tests::claim(&$rt, $condition, stringify!($condition))
    };
}

/// Ends the test with the first row that does not hold.
pub fn check_rows<F: Finds>(rt: &(impl Abort + AllocGlobal), rows: &str, finds: &F) {
    if let Some(row) = first_wrong(rt.alloc(), rows, finds) {
        claim(rt, false, row);
    }
}

mod attributes;
mod controls;
mod entries;
mod lint_findings;
mod lint_reports;
mod lint_texts;
mod lint_values;
mod lint_whole;
mod uses;
