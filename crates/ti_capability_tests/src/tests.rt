//! Worked rows of capabilities, by hand and from terminfo's manual pages, in tables.

use std::process::Abort;
use ti_fixtures::{Finds, first_wrong};

/// Ends the test unless the condition holds. One call for each condition keeps the proofs of the tests short.
pub fn claim(rt: &impl Abort, holds: bool, condition: &str) {
    assert!(rt; holds, "it does not hold that {condition}");
}

/// Claims a condition, which the message names.
macro_rules! assert_that {
    ($rt:expr; $condition:expr) => {
        crate::tests::claim(&$rt, $condition, stringify!($condition))
    };
}

/// Ends the test with the first row that does not hold.
pub fn check_rows<F: Finds>(rt: &(impl Abort + AllocGlobal), rows: &str, finds: &F) {
    if let Some(row) = first_wrong(rt.alloc(), rows, finds) {
        claim(rt, false, row);
    }
}

mod capability_faults;
mod capability_parameters;
mod capability_sizes;
mod expanded;
mod expansion_bytes;
mod expansion_faults;
mod expansion_limits;
mod expansion_memory;
mod expansion_rows;
mod expansion_runs;
mod expansion_steps;
mod expansion_variables;
mod rows;
mod uses;
