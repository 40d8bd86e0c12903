//! Compiled terminfo entries as JSON (RFC 8259).
//!
//! [`entry_json`] is an array of objects, one for each line of a listing, in the order of the lines. Names and texts are strings
//! in the notation of terminfo(5), so they are ASCII whatever bytes an entry has. [`write_row`] and [`write_compared`] write an object
//! each, of rows that a listing shows as lines, to a document of `ti_sink`.
#![tactic(auto)]

mod entry;
mod object;
mod row;

pub use entry::{entry_json, write_entry};
pub use object::{write_compared, write_row};
pub use row::{Content, Topic, ValueState};
