//! Which streams are terminals.

use ti_line::Destination;

/// Which of the three standard streams are terminals.
#[derive(Clone, Copy, Debug, PartialEq, Eq)]
pub struct Terminals {
    /// The source of entries and capabilities.
    pub input: bool,
    /// The writer of results, and whether parts of lines stand out on it.
    pub output: Destination,
    /// The writer of lines on faults.
    pub errors: bool,
}

impl Terminals {
    /// No stream is a terminal.
    pub const NONE: Terminals = Terminals {
        input: false,
        output: Destination::File,
        errors: false,
    };
}
