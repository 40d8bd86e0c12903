//! Why an entry is not written as bytes.
//!
//! Four faults are looked for in a fixed order, each by one look at what it speaks of. The words of the faults are their
//! names.

ghost use Rattle.std.specs.Prelude.{◌≡◌, length};
ghost use Rattle.std.specs.List.{list_any};
ghost use Rattle.ti_draft.specs.Canonical.{canonical};
ghost use Rattle.ti_draft.specs.Lengths.{capped_count};
ghost use Rattle.ti_draft.specs.Sources.{listed};
ghost use Rattle.ti_draft.specs.EncodeFaults.{has_nul as the_has_nul, text_has_nul as the_text_has_nul, is_out_of_range as the_is_out_of_range, has_bad_name as the_has_bad_name, has_bad_text as the_has_bad_text, has_bad_number as the_has_bad_number, encode_fault};

use crate::source::{Part, Source};
use std::alloc::AllocError;
use std::fmt;
use ti_base::MOST_ENTRY_BYTES;
use ti_words::{Number, Text, Width, greatest_number};

/// Why an entry has no bytes. As an error it prints its name.
#[derive(Clone, Copy, Debug, PartialEq, Eq)]
pub enum EncodeFault {
    /// The names are empty or hold a NUL, or an extended name holds one.
    BadName,
    /// A text holds a NUL.
    NulInText,
    /// A number is negative, or too great for the format: above [`GREATEST_WORD`](ti_base::GREATEST_WORD) in a
    /// legacy entry.
    NumberOutOfRange,
    /// The bytes would be more than [`MOST_ENTRY_BYTES`](ti_base::MOST_ENTRY_BYTES).
    TooManyOrLong,
    /// Memory was refused.
    Memory,
}

impl From<AllocError> for EncodeFault {
    ghost use Rattle.ti_draft.specs.declared.fault.EncodeFault.TheVariants.{Memory};

    ghost from_gives = { λ _ e. e ≡ Memory };

    fn from(_refused: AllocError) -> EncodeFault {
        EncodeFault::Memory
    }
}

impl EncodeFault {
    ghost use Rattle.ti_draft.specs.EncodeFaults.{encode_fault_word};

    /// The fault's name.
    pub fn word(self) -> &'static str
        ensures { result.now ≡ encode_fault_word self }
    {
        match self {
            EncodeFault::BadName => "BadName",
            EncodeFault::NulInText => "NulInText",
            EncodeFault::NumberOutOfRange => "NumberOutOfRange",
            EncodeFault::TooManyOrLong => "TooManyOrLong",
            EncodeFault::Memory => "Memory",
        }
    }
}

impl fmt::Display for EncodeFault {
    ghost use Rattle.std.specs.Prelude.{Some};
    ghost use Rattle.ti_draft.specs.EncodeFaults.{encode_fault_word};

    ghost output = { λ fault. Some (encode_fault_word fault) };

    fn fmt<W: fmt::Write>(&self, f: &mut fmt::Formatter<W>) -> fmt::Result {
        f.write_str(self.word())
    }
}

impl std::error::Error for EncodeFault {}

/// Why an entry is not put into a room. As an error it prints its name, and its number after a space.
#[derive(Clone, Copy, Debug, PartialEq, Eq)]
pub enum EncodeIntoFault {
    /// The entry has no bytes.
    Refused(EncodeFault),
    /// The room has fewer bytes than the entry, which has this many.
    OutTooSmall { need: usize },
}

impl fmt::Display for EncodeIntoFault {
    fn fmt<W: fmt::Write>(&self, f: &mut fmt::Formatter<W>) -> fmt::Result {
        match self {
            EncodeIntoFault::Refused(fault) => f.write_str(fault.word()),
            EncodeIntoFault::OutTooSmall { need } => write!(f, "OutTooSmall {need}"),
        }
    }
}

impl std::error::Error for EncodeIntoFault {}

/// Whether bytes hold a NUL.
fn has_nul(bytes: &[u8]) -> bool
    ensures { result ≡ the_has_nul bytes.now }
{
    bytes.contains(&0)
}

/// Whether a text of a part holds a NUL.
fn any_text_has_nul<S: Source>(source: &S, part: Part) -> bool
    ensures { result ≡ list_any the_text_has_nul (listed (S.entry source.now) part).texts }
{
    for i in 0..source.text_count(part) {
        if matches!(source.text(part, i), Text::Value(bytes) if has_nul(bytes)) {
            return true;
        }
    }
    false
}

/// Whether a number is negative, or too great for the format.
fn is_out_of_range(width: Width, number: Number) -> bool
    ensures { result ≡ the_is_out_of_range width number }
{
    match number {
        Number::Absent | Number::Cancelled => false,
        Number::Value(value) => value < 0 || value > greatest_number(width),
    }
}

/// Whether any number of a part is out of range.
fn any_out_of_range<S: Source>(source: &S, part: Part) -> bool
    ensures { result ≡ list_any (the_is_out_of_range (S.entry source.now).width)
        (listed (S.entry source.now) part).numbers }
{
    let width = source.width();
    for i in 0..source.number_count(part) {
        if is_out_of_range(width, source.number(part, i)) {
            return true;
        }
    }
    false
}

/// The names are empty or hold a NUL, or an extended name holds one.
fn has_bad_name<S: Source>(source: &S) -> bool
    ensures { result ≡ the_has_bad_name (S.entry source.now) }
{
    let names = source.names();
    names.is_empty() || has_nul(names) || any_text_has_nul(source, Part::Names)
}

/// A text holds a NUL.
fn has_bad_text<S: Source>(source: &S) -> bool
    ensures { result ≡ the_has_bad_text (S.entry source.now) }
{
    any_text_has_nul(source, Part::Standard) || any_text_has_nul(source, Part::Extended)
}

/// A number is negative, or too great for the format.
fn has_bad_number<S: Source>(source: &S) -> bool
    ensures { result ≡ the_has_bad_number (S.entry source.now) }
{
    any_out_of_range(source, Part::Standard) || any_out_of_range(source, Part::Extended)
}

/// The first fault that an entry of this size has.
pub(crate) fn first_fault<S: Source>(source: &S, size: u64) -> Option<EncodeFault>
    requires { size ≡ capped_count (length (canonical (S.entry source.now))) }
    ensures { result ≡ encode_fault (S.entry source.now) }
{
    if has_bad_name(source) {
        return Some(EncodeFault::BadName);
    }
    if has_bad_text(source) {
        return Some(EncodeFault::NulInText);
    }
    if has_bad_number(source) {
        return Some(EncodeFault::NumberOutOfRange);
    }
    if size > MOST_ENTRY_BYTES as u64 {
        return Some(EncodeFault::TooManyOrLong);
    }
    None
}
