//! The options of a report on an entry.

use crate::level::Level;

/// Which findings a report has, and whether the entry is trusted.
#[derive(Clone, Copy, Debug, PartialEq, Eq)]
pub struct LintOptions {
    pub level: Level,
    /// The entry comes from a stranger: what its strings could make a terminal do is looked for in each of their arms, and on
    /// every terminal.
    pub untrusted: bool,
}
