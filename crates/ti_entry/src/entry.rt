//! An entry that was read: a view that lends from its bytes.
//!
//! The view holds the slice and its two parts, which say where the sections lie. Each accessor takes a few instructions
//! and no memory; `text` looks once for its NUL. Reading is the checker of `stage` over all the bytes at once.

ghost use Rattle.std.specs.Prelude.{◌≡◌, length, get_or, OnOk};
ghost use Rattle.ti_words.specs.Texts.{text_value, AbsentText};
ghost use Rattle.ti_layout.specs.Content.{content, content_from};
ghost use Rattle.ti_entry.specs.Reading.{IsReadOf, base_of_names};
ghost use Rattle.ti_layout.specs.Layout.{IsExtended, IsStandard};
ghost use Rattle.ti_layout.specs.Stages.{Stands, Waits};

use crate::extended::{Extended, extended_of};
use crate::part_view::{PartView, part_view};
use std::marker::Model;
use ti_layout::{Fault, Part, Refused, Stage};
use ti_words::{Flag, Number, Text, Width};

/// A compiled entry (term(5)). What it gives is lent from the bytes that it was read from.
#[derive(Debug, Drop)]
pub struct Entry<'a> {
    bytes: &'a [u8],
    standard: Part,
    extended: Part,
    base: usize,
}

impl<'a> Model for Entry<'a> {
    ghost use Rattle.ti_words.specs.Value.{EntryValue};
    ghost use Rattle.ti_layout.specs.Content.{content_from};
    ghost use Rattle.ti_layout.specs.Layout.{IsStandard, IsExtended};

    ghost Value = { EntryValue };

    ghost view = { λ e. content_from e.bytes.now e.standard e.extended e.base };

    ghost invariant = { λ e. IsStandard e.bytes.now e.standard
        × IsExtended e.bytes.now e.extended e.base };
}

/// Reads an entry, which has to be all of the bytes.
///
/// # Errors
///
/// The first check that does not hold of the bytes. Where they end before the prefix that it reads, `Truncated` at their
/// length.
///
/// # Examples
///
/// ```rust
/// let entry = read(FILE)?;
/// assert!(rt; entry.number(0) == Number::Value(80));
/// ```
pub fn read(bytes: &[u8]) -> Result<Entry<'_>, Refused>
    ensures { IsReadOf bytes.now result }
{
    let mut stage = Stage::new();
    stage.advance(bytes)?;
    entry_at(bytes, &stage)
}

/// The entry that bytes spell, if their checks have come to a stage that waits for more.
///
/// # Errors
///
/// `Truncated` at the length of the bytes, if they end before an entry does.
pub(crate) fn entry_at<'a>(bytes: &'a [u8], stage: &Stage) -> Result<Entry<'a>, Refused>
    requires stands { Stands bytes.now stage.now }
    requires waits { Waits bytes.now stage.now }
    ensures read { IsReadOf bytes.now result }
    ensures base { OnOk result (stage.now.base ≡ base_of_names (content bytes.now)) }
{
    if !stage.is_whole() {
        return Err(Refused {
            fault: Fault::Truncated,
            place: bytes.len(),
        });
    }
    Ok(entry_of(bytes, stage.standard(), stage.extended(), stage.base()))
}

/// The entry of two parts.
pub(crate) fn entry_of(bytes: &[u8], standard: Part, extended: Part, base: usize) -> Entry<'_>
    requires standard { IsStandard bytes.now standard }
    requires extended { IsExtended bytes.now extended base }
    ensures { result ≡ content_from bytes.now standard extended base }
{
    Entry {
        bytes,
        standard,
        extended,
        base,
    }
}

impl<'a> Entry<'a> {
    /// How wide its numbers are.
    pub fn width(&self) -> Width
        ensures { result ≡ self.now.width }
    {
        self.standard.width()
    }

    /// The names, separated by `|`, without the NUL after them.
    pub fn names(&self) -> &'a [u8]
        ensures { result.now ≡ self.now.names }
    {
        self.standard.entry_names(self.bytes)
    }

    /// How many flags it has.
    pub fn flag_count(&self) -> usize
        ensures { result ≡ length self.now.standard.flags }
    {
        self.standard().flag_count()
    }

    /// How many numbers it has.
    pub fn number_count(&self) -> usize
        ensures { result ≡ length self.now.standard.numbers }
    {
        self.standard().number_count()
    }

    /// How many texts it has.
    pub fn text_count(&self) -> usize
        ensures { result ≡ length self.now.standard.texts }
    {
        self.standard().text_count()
    }

    /// The flag at an index; at or above the count No.
    pub fn flag(&self, i: usize) -> Flag
        ensures { result ≡ get_or self.now.standard.flags i Flag.No }
    {
        self.standard().flag(i)
    }

    /// The number at an index; at or above the count Absent.
    pub fn number(&self, i: usize) -> Number
        ensures { result ≡ get_or self.now.standard.numbers i Number.Absent }
    {
        self.standard().number(i)
    }

    /// The text at an index; at or above the count Absent.
    pub fn text(&self, i: usize) -> Text<'a>
        ensures { text_value result ≡ get_or self.now.standard.texts i AbsentText }
    {
        self.standard().text(i)
    }

    /// Its standard capabilities.
    pub fn standard(&self) -> PartView<'a>
        ensures { result ≡ self.now.standard }
    {
        part_view(self.bytes, self.standard)
    }

    /// Its extended part, with no capability if it has none.
    pub fn extended(&self) -> Extended<'a>
        ensures { result ≡ self.now.extended }
    {
        extended_of(self.bytes, self.extended, self.base)
    }
}
