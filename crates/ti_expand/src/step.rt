//! The result of a pass that goes a token at a time.

use ti_cap::Token;

/// Whether a token ran.
#[derive(Clone, Copy, PartialEq, Eq, Debug)]
pub enum Outcome {
    /// It was met while tokens run, or ended a passing over.
    Ran,
    /// It was passed over.
    PassedOver,
}

/// A step of a pass: the token that was taken, and whether it ran.
#[derive(Clone, Copy, PartialEq, Eq, Debug)]
pub struct Step {
    /// The token.
    pub token: Token,
    /// Whether it ran.
    pub outcome: Outcome,
}
