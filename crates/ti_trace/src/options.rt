//! How the lines of a trace are written.

use ti_escape::{Color, Form};

/// Which rows a trace has.
#[derive(Clone, Copy, Debug, PartialEq, Eq)]
pub enum TraceRows {
    /// One for each token.
    Each,
    /// One for each run of bytes that write themselves, and one for each other token.
    Joined,
}

/// How the lines of a trace are written.
#[derive(Clone, Copy, Debug, PartialEq, Eq)]
pub struct TraceOptions {
    /// How texts on the stack and what tokens wrote are shown.
    pub form: Form,
    /// Whether the lines of tokens that were passed over stand out.
    pub color: Color,
    /// Which rows there are.
    pub rows: TraceRows,
}
