//! Why bytes are refused as an entry.
//!
//! A refusal is the first check, in a fixed order, that does not hold of the bytes, with the place that it speaks of. The
//! words of the faults are their names.

ghost use Rattle.std.specs.Prelude.{◌≡◌};

use std::fmt;
use thiserror::Error;

/// Why bytes are no entry. As an error it prints its name.
#[derive(Clone, Copy, Debug, PartialEq, Eq)]
pub enum Fault {
    /// The bytes end before a section does.
    Truncated,
    /// The first two bytes are neither 1a 01 nor 1e 02.
    BadMagic,
    /// A size or a count of the header is negative.
    BadHeader,
    /// By its header the entry has more than [`MOST_ENTRY_BYTES`](ti_base::MOST_ENTRY_BYTES).
    HeaderTooBig,
    /// The names are empty, hold a NUL or do not end with one.
    BadNames,
    /// A byte is no flag.
    BadFlag,
    /// The byte that brings the next section to an even place is not 0.
    BadPad,
    /// A number is below -2.
    BadNumber,
    /// The offset of a text is below -2, or past its table.
    BadOffset,
    /// A text or an extended name runs to the end of its table with no NUL.
    Unterminated,
    /// A size or a count of the extended header is negative.
    BadExtendedHeader,
    /// With its extended part the entry has more than [`MOST_ENTRY_BYTES`](ti_base::MOST_ENTRY_BYTES).
    ExtendedTooBig,
    /// The offset of an extended name is negative, or past its table.
    BadExtendedName,
    /// Bytes follow the end of the entry.
    Trailing,
}

impl Fault {
    ghost use Rattle.ti_layout.specs.Faults.{fault_word};

    /// The fault's name.
    pub fn word(self) -> &'static str
        ensures { result.now ≡ fault_word self }
    {
        match self {
            Fault::Truncated => "Truncated",
            Fault::BadMagic => "BadMagic",
            Fault::BadHeader => "BadHeader",
            Fault::HeaderTooBig => "HeaderTooBig",
            Fault::BadNames => "BadNames",
            Fault::BadFlag => "BadFlag",
            Fault::BadPad => "BadPad",
            Fault::BadNumber => "BadNumber",
            Fault::BadOffset => "BadOffset",
            Fault::Unterminated => "Unterminated",
            Fault::BadExtendedHeader => "BadExtendedHeader",
            Fault::ExtendedTooBig => "ExtendedTooBig",
            Fault::BadExtendedName => "BadExtendedName",
            Fault::Trailing => "Trailing",
        }
    }
}

impl fmt::Display for Fault {
    ghost use Rattle.std.specs.Prelude.{Some};
    ghost use Rattle.ti_layout.specs.Faults.{fault_word};

    ghost output = { λ fault. Some (fault_word fault) };

    fn fmt<W: fmt::Write>(&self, f: &mut fmt::Formatter<W>) -> fmt::Result {
        f.write_str(self.word())
    }
}

impl std::error::Error for Fault {}

/// The first check that does not hold of the bytes.
#[derive(Clone, Copy, Debug, PartialEq, Eq, Error)]
#[error("{fault} at {place}")]
pub struct Refused {
    pub fault: Fault,
    /// The count of bytes before the one that it speaks of.
    pub place: usize,
}
