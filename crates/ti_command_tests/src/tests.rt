//! Words of command lines and runs of the program, in tables of rows.

use std::process::Abort;
use ti_fixtures::{Finds, first_wrong};

/// Ends the test unless the condition holds. One call for each condition keeps the proofs of the tests short.
pub fn claim(rt: &impl Abort, holds: bool, condition: &str) {
    assert!(rt; holds, "it does not hold that {condition}");
}

/// Claims a condition, which the message names.
macro_rules! assert_that {
    ($rt:expr; $condition:expr) => {
        crate::tests::claim(&$rt, $condition, stringify!($condition))
    };
}

/// Ends the test with the first row that does not hold.
pub fn check_rows<F: Finds>(rt: &(impl Abort + AllocGlobal), rows: &str, finds: &F) {
    if let Some(row) = first_wrong(rt.alloc(), rows, finds) {
        claim(rt, false, row);
    }
}

mod advice;
mod ending;
mod failing_streams;
mod fault_lines;
mod fault_messages;
mod flushing;
mod forged_names;
mod help;
mod known_files;
mod large_runs;
mod parameters;
mod read_lines;
mod refused_entries;
mod refused_lines;
mod refused_memory;
mod rows_of_cap;
mod rows_of_check;
mod rows_of_convert;
mod rows_of_expand;
mod rows_of_get;
mod rows_of_show;
mod rows_of_trace;
mod runs_of_diff;
mod runs_of_files;
mod runs_of_lint;
mod runs_of_source;
mod uses;
