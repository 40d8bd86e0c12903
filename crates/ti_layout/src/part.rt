//! A part of an entry, standard or extended, and where its sections lie (term(5)).
//!
//! A place is a sum of what the header says, so it takes a few additions.

ghost use Rattle.std.specs.Prelude.{◌≡◌, ◌+◌, ◌*◌, ◌<◌, ◌≤◌, ◌^◌, ◌↔◌, IfSome, IsTrue, Some, length};
ghost use Rattle.ti_base.specs.Limits.{most_entry_bytes};
ghost use Rattle.ti_words.specs.Word.{unsigned_at};
ghost use Rattle.ti_layout.specs.Content.{extended as the_extended};
ghost use Rattle.ti_layout.specs.Layout.{IsStandard, IsWithin, standard as the_standard, extended_after, no_capability, count_of_kind, kind_names_from, end_of, pad_end as the_pad_end, width_of as the_width_of, flags_end as the_flags_end, numbers_from as the_numbers_from, offsets_from as the_offsets_from, names_from as the_names_from, table_from as the_table_from, extended_from as the_extended_from};

use crate::word::{count_at, numbers_size};
use ti_base::MOST_ENTRY_BYTES;
use ti_words::{Kind, Width, width_of_magic};

/// The sizes of a part, from its header. The flags come first, from `flags_from` on, and then the numbers, the offsets of the
/// texts, those of the names, and the string table.
#[derive(Clone, Copy, Debug, PartialEq, Eq)]
pub struct Part {
    pub(crate) width: Width,
    pub(crate) flags_from: usize,
    /// The counts of flags, numbers and texts.
    pub(crate) flags: usize,
    pub(crate) numbers: usize,
    pub(crate) texts: usize,
    /// The count of names: none in the standard part.
    pub(crate) names: usize,
    /// The size of the string table.
    pub(crate) table: usize,
}

impl Part {
    /// The format of the entry.
    pub fn width(&self) -> Width
        ensures { result ≡ self.now.width }
    {
        self.width
    }

    /// How many capabilities of a kind there are.
    pub fn count(&self, kind: Kind) -> usize
        ensures { result ≡ count_of_kind self.now kind }
    {
        match kind {
            Kind::Flag => self.flags,
            Kind::Number => self.numbers,
            Kind::Text => self.texts,
        }
    }

    /// Where the flags end, and a pad stands if the place is odd.
    pub(crate) fn flags_end(&self) -> usize
        requires { end_of self.now < 2 ^ 32 }
        ensures { result ≡ the_flags_end self.now }
    {
        self.flags_from + self.flags
    }

    /// Where the numbers start.
    pub(crate) fn numbers_from(&self) -> usize
        requires { end_of self.now < 2 ^ 32 }
        ensures { result ≡ the_numbers_from self.now }
    {
        let end = self.flags_end();
        end + end % 2
    }

    /// Where the offsets of the texts start.
    pub(crate) fn offsets_from(&self) -> usize
        requires { end_of self.now < 2 ^ 32 }
        ensures { result ≡ the_offsets_from self.now }
    {
        self.numbers_from() + numbers_size(self.width, self.numbers)
    }

    /// Where the offsets of the names start.
    pub(crate) fn names_from(&self) -> usize
        requires { end_of self.now < 2 ^ 32 }
        ensures { result ≡ the_names_from self.now }
    {
        self.offsets_from() + 2 * self.texts
    }

    /// Where the offsets of the names of a kind start.
    pub(crate) fn names_of(&self, kind: Kind) -> usize
        requires named { self.now.flags + self.now.numbers + self.now.texts ≤ self.now.names }
        requires fits { end_of self.now < 2 ^ 32 }
        ensures place { result ≡ kind_names_from self.now kind }
        ensures within { result + 2 * count_of_kind self.now kind ≤ end_of self.now }
    {
        let before = match kind {
            Kind::Flag => 0,
            Kind::Number => self.flags,
            Kind::Text => self.flags + self.numbers,
        };
        self.names_from() + 2 * before
    }

    /// Where the string table starts.
    pub(crate) fn table_from(&self) -> usize
        requires { end_of self.now < 2 ^ 32 }
        ensures { result ≡ the_table_from self.now }
    {
        self.names_from() + 2 * self.names
    }

    /// Where the part ends.
    pub fn end(&self) -> usize
        requires { end_of self.now < 2 ^ 32 }
        ensures { result ≡ end_of self.now }
    {
        self.table_from() + self.table
    }

    /// Where the header of an extended part starts after this one, if there is one.
    pub(crate) fn extended_from(&self) -> usize
        requires { end_of self.now < 2 ^ 32 }
        ensures { result ≡ the_extended_from self.now }
    {
        let end = self.end();
        end + end % 2
    }

    /// The standard part of bytes that have its header.
    pub fn standard(bytes: &[u8]) -> Part
        requires { 12 ≤ length bytes.now }
        ensures words { result ≡ the_standard bytes.now }
        ensures fits { end_of result < 2 ^ 32 }
    {
        Part {
            width: width_of(bytes).unwrap_or(Width::Legacy),
            flags_from: 12 + count_at(bytes, 2),
            flags: count_at(bytes, 4),
            numbers: count_at(bytes, 6),
            texts: count_at(bytes, 8),
            names: 0,
            table: count_at(bytes, 10),
        }
    }

    /// The extended part after this one, of bytes that have its header.
    pub fn extended(&self, bytes: &[u8]) -> Part
        requires fits { end_of self.now ≤ most_entry_bytes }
        requires there { the_extended_from self.now + 10 ≤ length bytes.now }
        ensures words { result ≡ extended_after self.now bytes.now }
        ensures fits { end_of result < 2 ^ 32 }
    {
        let from = self.extended_from();
        let flags = count_at(bytes, from);
        let numbers = count_at(bytes, from + 2);
        let texts = count_at(bytes, from + 4);
        Part {
            width: self.width,
            flags_from: from + 10,
            flags,
            numbers,
            texts,
            names: flags + numbers + texts,
            table: count_at(bytes, from + 8),
        }
    }

    /// The word items of the extended header after this part. No section depends on it.
    pub fn items_after(&self, bytes: &[u8]) -> usize
        requires fits { end_of self.now ≤ most_entry_bytes }
        requires there { the_extended_from self.now + 10 ≤ length bytes.now }
        ensures { result ≡ unsigned_at 2 bytes.now (the_extended_from self.now + 6) }
    {
        count_at(bytes, self.extended_from() + 6)
    }

    /// No extended part, held as one with no capability.
    pub(crate) fn none() -> Part
        ensures { result ≡ no_capability }
    {
        Part {
            width: Width::Legacy,
            flags_from: 0,
            flags: 0,
            numbers: 0,
            texts: 0,
            names: 0,
            table: 0,
        }
    }

    /// Whether the part lies within the bytes.
    fn is_within(&self, bytes: &[u8]) -> bool
        requires { end_of self.now < 2 ^ 32 }
        ensures { IsTrue result ↔ IsWithin bytes.now self.now }
    {
        self.end() <= bytes.len().min(MOST_ENTRY_BYTES)
    }

    /// The standard part that the header says, if there is a name and the part lies within the bytes.
    pub fn standard_within(bytes: &[u8]) -> Option<Part>
        ensures within { IfSome result (λ s. IsStandard bytes.now s) }
        ensures exact { 14 ≤ (the_standard bytes.now).flags_from
            → IsWithin bytes.now (the_standard bytes.now) → result ≡ Some (the_standard bytes.now) }
    {
        if bytes.len() < 12 {
            return None;
        }
        let standard = Part::standard(bytes);
        (standard.flags_from >= 14 && standard.is_within(bytes)).then_some(standard)
    }

    /// The extended part after this one, with no capability if no byte follows; none if it does not lie within the bytes.
    pub fn extended_within(&self, bytes: &[u8]) -> Option<Part>
        requires within { IsWithin bytes.now self.now }
        requires standard { self.now ≡ the_standard bytes.now }
        ensures within { IfSome result (λ x. IsWithin bytes.now x) }
        ensures named { IfSome result (λ x. x.flags + x.numbers + x.texts ≡ x.names) }
        ensures found { IfSome result (λ x. x ≡ the_extended bytes.now) }
        ensures there { IfSome result (λ x. end_of self.now < length bytes.now
            → the_extended_from self.now + 10 ≤ length bytes.now) }
        ensures exact { IsWithin bytes.now (the_extended bytes.now)
            → (end_of self.now < length bytes.now → the_extended_from self.now + 10 ≤ length bytes.now)
            → result ≡ Some (the_extended bytes.now) }
    {
        if bytes.len() <= self.end() {
            return Some(Part::none());
        }
        if bytes.len() < self.extended_from() + 10 {
            return None;
        }
        let extended = self.extended(bytes);
        extended.is_within(bytes).then_some(extended)
    }
}

/// The bytes up to the pad at a place, if one stands there.
pub(crate) fn pad_end(place: usize) -> usize
    requires { place < 2 ^ 32 }
    ensures { result ≡ the_pad_end place }
{
    if place % 2 == 0 {
        return 0;
    }
    place + 1
}

/// The format whose magic number the first two bytes are.
pub(crate) fn width_of(bytes: &[u8]) -> Option<Width>
    requires { 2 ≤ length bytes.now }
    ensures { result ≡ the_width_of bytes.now }
{
    width_of_magic(count_at(bytes, 0))
}
