//! The differences of two entries, one item after another.

use ti_json::{Content, Topic};

/// The format, the names or a capability that two entries do not have alike.
#[derive(Clone, Copy)]
pub struct Difference<'a> {
    /// Which of these it is.
    pub topic: Topic<'a>,
    /// The content of the first entry: of a capability that it lacks, the state `Absent`.
    pub first: Content<'a>,
    /// The content of the other entry.
    pub other: Content<'a>,
}

impl Difference<'_> {
    /// Whether one entry lacks it.
    pub fn is_in_one(self) -> bool {
        self.first.is_absent() || self.other.is_absent()
    }
}
