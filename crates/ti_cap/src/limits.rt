//! The limits of a capability, found in one pass over its tokens.

/// The exact limits of a capability over all its paths, if no text is longer than some length.
#[derive(Clone, Copy, Debug)]
pub struct Limits {
    /// The number of tokens.
    pub tokens: usize,
    /// The greatest height of the stack.
    pub depth: usize,
    /// The greatest number of open conditionals.
    pub nest: usize,
    /// The most bytes that are written.
    pub bound: u64,
}
