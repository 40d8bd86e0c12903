//! How a list of remarks is told to people: plain code over the sinks of `ti_sink`, whose words rows show.
//!
//! What is told is the list: [`report_lines`] has a block for each remark, and [`print_remarks`] an object. Memory is taken for the lines
//! or the document.
#![tactic(auto)]

mod document;
mod explained;
mod explanations;
mod lines;
mod sentence;
mod which;

pub use document::{print_remarks, report_json};
pub use explained::{is_explained, write_explanation, write_summaries};
pub use lines::report_lines;
pub use ti_escape::Color;
