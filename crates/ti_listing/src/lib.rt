//! The capabilities of an entry, and the differences of two, as lines and as JSON.
//!
//! [`lines_of`] lists an entry, and [`push_row`] writes any row as a line. [`difference_of`] compares two: its list says of each item that
//! they do not have alike what each of them has, and [`differing_lines`], [`write_grouped`] and [`differing_json`] show it.
#![tactic(auto)]

mod change;
mod diff;
mod difference;
mod document;
mod extended_names;
mod first_named;
mod label;
mod lines;
mod listing;
mod name_key;
mod plain_name;
mod row_line;
mod tokens;

pub use diff::difference_of;
pub use difference::Difference;
pub use document::differing_json;
pub use lines::{differing_lines, write_grouped};
pub use listing::lines_of;
pub use row_line::push_row;
