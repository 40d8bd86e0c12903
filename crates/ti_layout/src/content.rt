//! The capabilities and names of a part, by their places. Of unchecked bytes they mean nothing.

ghost use Rattle.std.specs.Prelude.{◌≡◌, ◌+◌, ◌-◌, ◌*◌, ◌<◌, ◌≤◌, ◌↔◌, get_or, length, slice_get, slice_range, IsTrue};
ghost use Rattle.std.specs.Option.{option_map};
ghost use Rattle.ti_base.specs.Limits.{most_entry_bytes};
ghost use Rattle.ti_words.specs.Texts.{text_value, AbsentText};
ghost use Rattle.ti_layout.specs.Layout.{IsExtended, IsWithin, count_of_kind, kind_names_from};
ghost use Rattle.ti_layout.specs.Table.{table_of};
ghost use Rattle.ti_layout.specs.Content.{flags_in, name_from, names_in, numbers_in, texts_in};

use crate::part::Part;
use crate::string_table::{is_text, text_from, text_of};
use crate::word::{count_at, number_word_at, numbers_size, word_at};
use ti_words::{Flag, Kind, Number, Text, flag_of, number_of};

#[tactic(auto, using(crate::proofs::PlacesLemmas::item_at, crate::proofs::PlacesLemmas::no_item_at))]
impl Part {
    /// The string table.
    pub fn table<'a>(&self, bytes: &'a [u8]) -> &'a [u8]
        requires { IsWithin bytes.now self.now }
        ensures value { result.now ≡ table_of bytes.now self.now }
        ensures small { length result.now ≤ most_entry_bytes }
    {
        &bytes[self.table_from()..self.end()]
    }

    /// The names of the entry of which this is the standard part, without the NUL after them.
    pub fn entry_names<'a>(&self, bytes: &'a [u8]) -> &'a [u8]
        requires within { IsWithin bytes.now self.now }
        requires named { 14 ≤ self.now.flags_from }
        ensures { result.now ≡ slice_range bytes.now 12 (self.now.flags_from - 1) }
    {
        &bytes[12..self.flags_from - 1]
    }

    /// The flag at an index; at or above the count No.
    pub fn flag(&self, bytes: &[u8], i: usize) -> Flag
        requires { IsWithin bytes.now self.now }
        ensures { result ≡ get_or (flags_in bytes.now self.now) i Flag.No }
    {
        if i < self.flags {
            flag_of(bytes[self.flags_from + i]).unwrap_or(Flag::No)
        } else {
            Flag::No
        }
    }

    /// The number at an index; at or above the count Absent.
    #[tactic(auto, using(crate::proofs::PlacesLemmas::item_at, crate::proofs::PlacesLemmas::no_item_at, crate::proofs::PlacesLemmas::within))]
    pub fn number(&self, bytes: &[u8], i: usize) -> Number
        requires { IsWithin bytes.now self.now }
        ensures { result ≡ get_or (numbers_in bytes.now self.now) i Number.Absent }
    {
        if i < self.numbers {
            let width = self.width;
            let place = self.numbers_from() + numbers_size(width, i);
            number_of(number_word_at(bytes, width, place)).unwrap_or(Number::Absent)
        } else {
            Number::Absent
        }
    }

    /// The text at an index; at or above the count Absent.
    pub fn text<'a>(&self, bytes: &'a [u8], i: usize) -> Text<'a>
        requires { IsWithin bytes.now self.now }
        ensures { text_value result ≡ get_or (texts_in bytes.now self.now) i AbsentText }
    {
        if i < self.texts {
            let place = self.offsets_from() + 2 * i;
            text_of(self.table(bytes), word_at(bytes, place))
        } else {
            Text::Absent
        }
    }

    /// The name of the capability of a kind at an index, counted from a base, without its NUL; none at or above the count.
    #[tactic(auto, using(crate::proofs::PlacesLemmas::get_named, crate::proofs::PlacesLemmas::get_none))]
    pub fn name<'a>(&self, bytes: &'a [u8], base: usize, kind: Kind, i: usize) -> Option<&'a [u8]>
        requires { IsExtended bytes.now self.now base }
        ensures { option_map (λ name. name.now) result
            ≡ slice_get (names_in bytes.now self.now base kind) i }
    {
        if i < self.count(kind) {
            let place = self.names_of(kind) + 2 * i;
            Some(text_from(self.table(bytes), base + count_at(bytes, place)))
        } else {
            None
        }
    }

    /// Whether the name of the capability of a kind at an index, counted from a base, is this one.
    #[inline(always)]
    pub fn is_name(&self, bytes: &[u8], base: usize, kind: Kind, i: usize, name: &[u8]) -> bool
        requires part { IsExtended bytes.now self.now base }
        requires index { i < count_of_kind self.now kind }
        ensures { IsTrue result
            ↔ name_from bytes.now self.now base (kind_names_from self.now kind + 2 * i) ≡ name.now }
    {
        let at = self.names_of(kind) + 2 * i;
        is_text(self.table(bytes), base + count_at(bytes, at), name)
    }
}
