//! How much a report says.

/// Which findings a report has.
#[derive(Clone, Copy, Debug, PartialEq, Eq)]
pub enum Level {
    /// Mistakes on nearly every terminal.
    Errors,
    /// Also what many entries have on purpose: keys that send the same, a mode whose start and end are the same, as on a
    /// terminal that toggles it, and a status line (`tsl`) without its column.
    All,
}
