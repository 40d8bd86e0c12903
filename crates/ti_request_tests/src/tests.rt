//! Calls that carry out requests, in tables of rows.

use std::process::Abort;
use ti_fixtures::{Finds, first_wrong};

/// Ends the test unless the condition holds. One call for each condition keeps the proofs of the tests short.
pub fn claim(rt: &impl Abort, holds: bool, condition: &str) {
    assert!(rt; holds, "it does not hold that {condition}");
}

/// Claims a condition, which the message names.
macro_rules! assert_that {
    ($rt:expr; $condition:expr) => {
        crate::tests::claim(&$rt, $condition, stringify!($condition))
    };
}

/// Ends the test with the first row that does not hold.
pub fn check_rows<F: Finds>(rt: &(impl Abort + AllocGlobal), rows: &str, finds: &F) {
    if let Some(row) = first_wrong(rt.alloc(), rows, finds) {
        claim(rt, false, row);
    }
}

mod calls;
mod cap_call;
mod check_call;
mod convert_call;
mod expand_call;
mod listings;
mod show_call;
mod trace_call;
mod uses;
