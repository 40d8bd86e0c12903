//! The ways to show the bytes of a text.

/// How the bytes of a text are shown.
#[derive(Clone, Copy, PartialEq, Eq, Debug)]
pub enum Form {
    /// Two lower-case hex digits for each byte.
    Hex,
    /// The notation of terminfo(5), such as `\E[H`.
    Notation,
}
