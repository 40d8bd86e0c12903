//! The extended part of an entry: capabilities that the entry names itself (term(5), extended storage format).
//!
//! Each accessor takes a few instructions and no memory, and looks once for the NUL of what it lends. A search goes over
//! the names in their order and stops at the first that is equal; a name is compared in place, up to its first difference
//! or one byte past the length that is requested.

ghost use Rattle.std.specs.Prelude.{[], ◌≡◌, map, length, get_or, slice_get};
ghost use Rattle.std.specs.Option.{option_map};
ghost use Rattle.ti_words.specs.Texts.{text_value, AbsentText};
ghost use Rattle.ti_layout.specs.Content.{named_part_in};
ghost use Rattle.ti_layout.specs.Layout.{IsExtended};
ghost use Rattle.ti_words.specs.Spelling.{mark_in, without_names};
ghost use Rattle.ti_entry.specs.Finding.{IsLeastIndex, IsFirstNamed, names_of};

use crate::part_view::{PartView, part_view};
use std::marker::Model;
use ti_layout::Part;
use ti_words::{Flag, Kind, Number, Text};

/// The extended part of an entry, with no capability if the entry has none. What it gives is lent from the bytes that
/// the entry was read from.
#[derive(Debug, Drop)]
pub struct Extended<'a> {
    bytes: &'a [u8],
    part: Part,
    /// The place from which the offsets of the names are counted.
    base: usize,
}

impl<'a> Model for Extended<'a> {
    ghost use Rattle.ti_words.specs.Value.{NamedPart};
    ghost use Rattle.ti_layout.specs.Content.{named_part_in};
    ghost use Rattle.ti_layout.specs.Layout.{IsExtended};

    ghost Value = { NamedPart };

    ghost view = { λ e. named_part_in e.bytes.now e.part e.base };

    ghost invariant = { λ e. IsExtended e.bytes.now e.part e.base };
}

/// The extended part of an entry.
pub(crate) fn extended_of<'a>(bytes: &'a [u8], part: Part, base: usize) -> Extended<'a>
    requires { IsExtended bytes.now part base }
    ensures { result ≡ named_part_in bytes.now part base }
{
    Extended { bytes, part, base }
}

#[tactic(auto, using(crate::proofs::NamedItemsLemmas::pairs))]
impl<'a> Extended<'a> {
    /// Its capabilities without their names.
    #[tactic(auto, using(crate::proofs::NamedItemsLemmas::values_are))]
    pub fn without_names(&self) -> PartView<'a>
        ensures { result ≡ without_names self.now }
    {
        part_view(self.bytes, self.part)
    }

    /// How many capabilities of a kind it has.
    #[tactic(auto, using(crate::proofs::NamedItemsLemmas::names_are, ti_layout::proofs::PlacesLemmas::length_places))]
    pub fn count_of(&self, kind: Kind) -> usize
        ensures { result ≡ length (names_of self.now kind) }
    {
        self.part.count(kind)
    }

    /// How many flags it has.
    pub fn flag_count(&self) -> usize
        ensures { result ≡ length self.now.flags }
    {
        self.without_names().flag_count()
    }

    /// How many numbers it has.
    pub fn number_count(&self) -> usize
        ensures { result ≡ length self.now.numbers }
    {
        self.without_names().number_count()
    }

    /// How many texts it has.
    pub fn text_count(&self) -> usize
        ensures { result ≡ length self.now.texts }
    {
        self.without_names().text_count()
    }

    /// The flag at an index; at or above the count No.
    pub fn flag(&self, i: usize) -> Flag
        ensures { result ≡ get_or (map mark_in self.now.flags) i Flag.No }
    {
        self.without_names().flag(i)
    }

    /// The number at an index; at or above the count Absent.
    pub fn number(&self, i: usize) -> Number
        ensures { result ≡ get_or (map mark_in self.now.numbers) i Number.Absent }
    {
        self.without_names().number(i)
    }

    /// The text at an index; at or above the count Absent.
    pub fn text(&self, i: usize) -> Text<'a>
        ensures { text_value result ≡ get_or (map mark_in self.now.texts) i AbsentText }
    {
        self.without_names().text(i)
    }

    /// The name of the capability of a kind at an index, without its NUL; none at or above the count. It may be empty.
    #[tactic(auto, using(crate::proofs::NamedItemsLemmas::names_are))]
    pub fn name(&self, kind: Kind, i: usize) -> Option<&'a [u8]>
        ensures { option_map (λ name. name.now) result ≡ slice_get (names_of self.now kind) i }
    {
        self.part.name(self.bytes, self.base, kind, i)
    }

    /// The same, and an empty one at or above the count.
    pub fn name_or_empty(&self, kind: Kind, i: usize) -> &'a [u8]
        ensures { result.now ≡ get_or (names_of self.now kind) i [] }
    {
        match self.name(kind, i) {
            Some(name) => name,
            None => &[],
        }
    }

    /// The first capability with a name, in the order flags, numbers, texts, the lowest index first.
    pub fn find(&self, name: &[u8]) -> Option<(Kind, usize)>
        ensures { IsFirstNamed self.now name.now result }
    {
        if let Some(i) = self.find_of(Kind::Flag, name) {
            return Some((Kind::Flag, i));
        }
        if let Some(i) = self.find_of(Kind::Number, name) {
            return Some((Kind::Number, i));
        }
        if let Some(i) = self.find_of(Kind::Text, name) {
            return Some((Kind::Text, i));
        }
        None
    }

    /// The least index of a text with a name.
    pub fn find_text(&self, name: &[u8]) -> Option<usize>
        ensures { IsLeastIndex (names_of self.now Kind.Text) name.now result }
    {
        self.find_of(Kind::Text, name)
    }

    /// The least index of a capability of a kind with a name.
    pub fn find_of(&self, kind: Kind, name: &[u8]) -> Option<usize>
        ensures { IsLeastIndex (names_of self.now kind) name.now result }
    {
        let count = self.part.count(kind);
        for i in 0..count {
            if self.part.is_name(self.bytes, self.base, kind, i, name) {
                return Some(i);
            }
        }
        None
    }
}
