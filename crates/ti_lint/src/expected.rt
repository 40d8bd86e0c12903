//! The rules for the findings of a capability.

use crate::variables::Variables;

/// The rules that terminfo(5) and the other texts of an entry give for a capability.
#[derive(Clone, Copy, Debug, PartialEq, Eq)]
pub struct Expected {
    /// How many parameters it has.
    pub parameters: u8,
    /// Which of its parameters are texts.
    pub texts: TextParameters,
    /// The variables into which some text of the entry stores.
    pub stored: Variables,
}

/// Which of the first three parameters are texts; no other one is, by terminfo(5).
#[derive(Clone, Copy, Debug, PartialEq, Eq)]
pub struct TextParameters {
    pub first: bool,
    pub second: bool,
    pub third: bool,
}

impl TextParameters {
    /// All are numbers.
    pub const NONE: TextParameters = TextParameters {
        first: false,
        second: false,
        third: false,
    };
}
