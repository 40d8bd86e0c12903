//! The capabilities of a part by their index, without names: one view for the standard part and for the extended one.

ghost use Rattle.std.specs.Prelude.{◌≡◌, ◌≤◌, length, get_or};
ghost use Rattle.ti_base.specs.Limits.{most_entry_bytes};
ghost use Rattle.ti_words.specs.Items.{item_value};
ghost use Rattle.ti_words.specs.Texts.{text_value, AbsentText};
ghost use Rattle.ti_layout.specs.Content.{part_in};
ghost use Rattle.ti_layout.specs.Layout.{IsWithin};
ghost use Rattle.ti_entry.specs.Items.{StandsAt, count_of, count_of_kind, item_in};

use std::marker::Model;
use ti_layout::{Part, Texts};
use ti_words::{Flag, Item, Kind, Number, Text};

/// The capabilities of a part, lent from the bytes of its entry.
#[derive(Debug, Drop)]
pub struct PartView<'a> {
    bytes: &'a [u8],
    part: Part,
}

impl<'a> Model for PartView<'a> {
    ghost use Rattle.ti_words.specs.Value.{PartValue};
    ghost use Rattle.ti_layout.specs.Content.{part_in};
    ghost use Rattle.ti_layout.specs.Layout.{IsWithin};

    ghost Value = { PartValue };

    ghost view = { λ p. part_in p.bytes.now p.part };

    ghost invariant = { λ p. IsWithin p.bytes.now p.part };
}

/// The view of a part.
pub(crate) fn part_view(bytes: &[u8], part: Part) -> PartView<'_>
    requires { IsWithin bytes.now part }
    ensures { result ≡ part_in bytes.now part }
{
    PartView { bytes, part }
}

#[tactic(auto, using(ti_layout::proofs::PlacesLemmas::length_places))]
impl<'a> PartView<'a> {
    /// How many flags there are.
    pub fn flag_count(&self) -> usize
        ensures { result ≡ length self.now.flags }
    {
        self.part.count(Kind::Flag)
    }

    /// How many numbers there are.
    pub fn number_count(&self) -> usize
        ensures { result ≡ length self.now.numbers }
    {
        self.part.count(Kind::Number)
    }

    /// How many texts there are.
    pub fn text_count(&self) -> usize
        ensures { result ≡ length self.now.texts }
    {
        self.part.count(Kind::Text)
    }

    /// The flag at an index; at or above the count No.
    pub fn flag(&self, i: usize) -> Flag
        ensures { result ≡ get_or self.now.flags i Flag.No }
    {
        self.part.flag(self.bytes, i)
    }

    /// The number at an index; at or above the count Absent.
    pub fn number(&self, i: usize) -> Number
        ensures { result ≡ get_or self.now.numbers i Number.Absent }
    {
        self.part.number(self.bytes, i)
    }

    /// The text at an index; at or above the count Absent.
    pub fn text(&self, i: usize) -> Text<'a>
        ensures { text_value result ≡ get_or self.now.texts i AbsentText }
    {
        self.part.text(self.bytes, i)
    }

    /// How many capabilities of a kind there are.
    #[inline]
    pub fn count_of(&self, kind: Kind) -> usize
        ensures { result ≡ count_of_kind self.now kind }
    {
        self.part.count(kind)
    }

    /// How many capabilities there are.
    #[inline]
    #[tactic(auto, using(crate::proofs::ItemsLemmas::few))]
    pub fn count(&self) -> usize
        ensures exact { result ≡ count_of self.now }
        ensures low { result ≤ most_entry_bytes }
    {
        let part = self.part;
        part.count(Kind::Flag) + part.count(Kind::Number) + part.count(Kind::Text)
    }

    /// The value of the capability of a kind at an index; at or above the count a flag No, or absent.
    #[inline]
    pub fn item(&self, kind: Kind, i: usize) -> Item<'a>
        ensures { item_value result ≡ item_in self.now kind i }
    {
        match kind {
            Kind::Flag => Item::Flag(self.flag(i)),
            Kind::Number => Item::Number(self.number(i)),
            Kind::Text => Item::Text(self.text(i)),
        }
    }

    /// The kind and the index of the capability at a place of all: flags before numbers before texts.
    #[inline]
    pub(crate) fn at(&self, place: usize) -> (Kind, usize)
        ensures { StandsAt self.now place result.0 result.1 }
    {
        let (flags, numbers) = (self.flag_count(), self.number_count());
        if place < flags {
            (Kind::Flag, place)
        } else if place - flags < numbers {
            (Kind::Number, place - flags)
        } else {
            (Kind::Text, place - flags - numbers)
        }
    }

    /// Its texts, to be read one after another.
    pub(crate) fn texts(&self) -> Texts<'a>
        ensures { result ≡ self.now.texts }
    {
        self.part.texts(self.bytes)
    }
}
