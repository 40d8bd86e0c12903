//! Findings on a compiled terminfo entry: the list of remarks on it.
//!
//! [`remarks_of`] goes over the texts of an entry, each by what it is: a text with parameters is analysed over all its paths, and one
//! that is sent as it stands, or that a key sends, may not have what only an expansion takes away. A sound entry gives no remark.
//! The time is linear in the bytes of the texts; memory is taken for the remarks and their places.
#![tactic(auto)]

mod actions;
mod attributes;
mod base;
mod colors;
mod constants;
mod control_remarks;
mod controls;
mod coverage;
mod crashes;
mod ecma;
mod finding;
mod harmless;
mod judged;
mod judgements;
mod keys;
pub mod laws;
mod layout;
mod looked;
mod lookup;
mod marks;
mod name_bytes;
mod names;
mod origin;
mod own;
mod pairs;
mod remark;
mod report;
mod reported;
mod sending;
mod sent;
mod sequences;
mod splits;
mod stored;
mod subject;
mod table;
mod text_remarks;
mod texts;
mod trials;
mod usage;
mod values;
mod whole;
mod words;

pub use coverage::{Coverage, coverage_of};
pub use finding::Finding;
pub use remark::{About, Evidence, NamedText, Remark};
pub use report::{count_findings, remarks_of};
pub use ti_lint::{Level, LintOptions};
pub use trials::Trials;
