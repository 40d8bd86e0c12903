//! The effect of a capability, token by token, as lines of text: where the token starts, its spelling, whether it ran, the
//! stack after it, and what it wrote; then the output and the counts.
//!
//! [`trace`] makes the whole text in memory, in time linear in the capability and in the text. Of a text on the stack at
//! most 16 bytes are shown, so that no capability makes the lines long but by what it writes. [`trace_json`] makes a document
//! of JSON (RFC 8259) with the same content.
#![tactic(auto)]

mod document;
mod fault;
mod lines;
mod options;
mod pass;

pub use document::trace_json;
pub use fault::TraceFault;
pub use lines::trace;
pub use options::{TraceOptions, TraceRows};
