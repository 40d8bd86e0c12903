//! An entry as the arrays of a caller in C hold it, to be written.
//!
//! It lends the items of the arrays and copies none. A mark that is none of an entry's is read as the nearest that is: of a flag
//! that the terminal has it, of a text that it is absent.

ghost use Rattle.std.specs.Prelude.{◌≡◌, ◌+◌, ◌≤◌, ◌↔◌, IsTrue, length, map, get_or};
ghost use Rattle.ti_words.specs.Spelling.{part_names};
ghost use Rattle.ti_words.specs.Texts.{text_value, AbsentText};
ghost use Rattle.ti_draft.specs.Sources.{listed};
ghost use Rattle.ti_draft.specs.declared.source.Part.TheVariants.{Names};
ghost use Rattle.ti_c.specs.Encoding.{HasItems, entry_given, flag_given as the_flag_given, name_given as the_name_given, number_given as the_number_given, text_given as the_text_given, width_given as the_width_given};

use crate::entry::{Arrays, EntryCounts, TextItem, fits};
use crate::names::Bytes;
use std::marker::Model;
use ti_draft::{Part, Source};
use ti_words::{Flag, Number, Text, Width};

/// The items of an entry, each list lent as a slice.
#[derive(Drop)]
pub(crate) struct GivenEntry<'d, 'a> {
    width: Width,
    names: &'d [u8],
    flags: &'d [i8],
    numbers: &'d [i32],
    texts: &'d [TextItem<'a>],
    extended_flags: &'d [i8],
    extended_numbers: &'d [i32],
    extended_texts: &'d [TextItem<'a>],
    flag_names: &'d [Bytes<'a>],
    number_names: &'d [Bytes<'a>],
    text_names: &'d [Bytes<'a>],
}

impl<'d, 'a> Model for GivenEntry<'d, 'a> {
    ghost use Rattle.std.specs.Prelude.{◌≡◌, length, map};
    ghost use Rattle.std.specs.List.{zip};
    ghost use Rattle.ti_words.specs.Value.{EntryValue};
    ghost use Rattle.ti_c.specs.Entries.{bytes_held};
    ghost use Rattle.ti_c.specs.Encoding.{flag_given, number_given, text_given};

    ghost Value = { EntryValue };

    ghost view = { λ e. record {
      width = e.width;
      names = e.names.now;
      standard = record {
        flags = map flag_given e.flags.now;
        numbers = map number_given e.numbers.now;
        texts = map text_given e.texts.now;
      };
      extended = record {
        flags = zip (map bytes_held e.flag_names.now) (map flag_given e.extended_flags.now);
        numbers = zip (map bytes_held e.number_names.now) (map number_given e.extended_numbers.now);
        texts = zip (map bytes_held e.text_names.now) (map text_given e.extended_texts.now);
      };
    } };

    ghost invariant = { λ e. (length e.flag_names.now ≡ length e.extended_flags.now)
        × (length e.number_names.now ≡ length e.extended_numbers.now)
        × (length e.text_names.now ≡ length e.extended_texts.now) };
}

/// Whether arrays have as many items as counts say.
pub(crate) fn has_items(arrays: &Arrays<'_, '_>, counts: &EntryCounts<'_>) -> bool
    ensures { IsTrue result ↔ HasItems arrays.now counts.now }
{
    let names = arrays.names.len();
    fits(arrays.flags.len(), counts.flags, counts.extended_flags)
        && fits(
            arrays.numbers.len(),
            counts.numbers,
            counts.extended_numbers,
        )
        && fits(arrays.texts.len(), counts.texts, counts.extended_texts)
        && fits(names, counts.extended_flags, counts.extended_numbers)
        && counts.extended_texts <= names - counts.extended_flags - counts.extended_numbers
}

/// How wide numbers of so many bits are.
fn width_given(number_bits: u32) -> Width
    ensures { result ≡ the_width_given number_bits }
{
    if number_bits == 32 {
        Width::Wide
    } else {
        Width::Legacy
    }
}

/// The entry that arrays hold.
pub(crate) fn given_entry<'d, 'a>(
    arrays: &'d Arrays<'a, '_>,
    counts: &'d EntryCounts<'a>,
    number_bits: u32,
) -> GivenEntry<'d, 'a>
    requires { HasItems arrays.now counts.now }
    ensures { result ≡ entry_given arrays.now counts.now number_bits }
{
    let (flags, numbers, texts) = (counts.flags, counts.numbers, counts.texts);
    let number_names_from = counts.extended_flags;
    let text_names_from = number_names_from + counts.extended_numbers;
    GivenEntry {
        width: width_given(number_bits),
        names: counts.names,
        flags: &arrays.flags[..flags],
        numbers: &arrays.numbers[..numbers],
        texts: &arrays.texts[..texts],
        extended_flags: &arrays.flags[flags..flags + counts.extended_flags],
        extended_numbers: &arrays.numbers[numbers..numbers + counts.extended_numbers],
        extended_texts: &arrays.texts[texts..texts + counts.extended_texts],
        flag_names: &arrays.names[..number_names_from],
        number_names: &arrays.names[number_names_from..text_names_from],
        text_names: &arrays.names[text_names_from..text_names_from + counts.extended_texts],
    }
}

/// The flag of a mark.
fn flag_given(mark: i8) -> Flag
    ensures { result ≡ the_flag_given mark }
{
    match mark {
        0 => Flag::No,
        -1 => Flag::Missing,
        -2 => Flag::Cancelled,
        _ => Flag::Yes,
    }
}

/// The number of a word.
fn number_given(word: i32) -> Number
    ensures { result ≡ the_number_given word }
{
    match word {
        -1 => Number::Absent,
        -2 => Number::Cancelled,
        _ => Number::Value(word),
    }
}

/// The text of an item.
fn text_given<'a>(item: &TextItem<'a>) -> Text<'a>
    ensures { text_value result ≡ the_text_given item.now }
{
    match item.mark {
        0 => Text::Value(item.text),
        -2 => Text::Cancelled,
        _ => Text::Absent,
    }
}

/// A name as a text that is there.
fn name_given<'a>(name: &Bytes<'a>) -> Text<'a>
    ensures { text_value result ≡ the_name_given name.now }
{
    Text::Value(name.bytes)
}

/// The flag at an index; at or above the count No.
fn flag_at(marks: &[i8], index: usize) -> Flag
    ensures { result ≡ get_or (map the_flag_given marks.now) index Flag.No }
{
    match marks.get(index) {
        Some(mark) => flag_given(*mark),
        None => Flag::No,
    }
}

/// The number at an index; at or above the count Absent.
fn number_at(words: &[i32], index: usize) -> Number
    ensures { result ≡ get_or (map the_number_given words.now) index Number.Absent }
{
    match words.get(index) {
        Some(word) => number_given(*word),
        None => Number::Absent,
    }
}

/// The text at an index; at or above the count Absent.
fn text_at<'a>(items: &[TextItem<'a>], index: usize) -> Text<'a>
    ensures { text_value result ≡ get_or (map the_text_given items.now) index AbsentText }
{
    match items.get(index) {
        Some(item) => text_given(item),
        None => Text::Absent,
    }
}

/// The name at an index, as a text that is there; at or above the count Absent.
fn name_at<'a>(names: &[Bytes<'a>], index: usize) -> Text<'a>
    ensures { text_value result ≡ get_or (map the_name_given names.now) index AbsentText }
{
    match names.get(index) {
        Some(name) => name_given(name),
        None => Text::Absent,
    }
}

impl<'d, 'a> GivenEntry<'d, 'a> {
    /// The marks of the flags of a part.
    fn flags_in(&self, part: Part) -> &'d [i8]
        ensures { map the_flag_given result.now ≡ (listed self.now part).flags }
    {
        match part {
            Part::Standard => self.flags,
            Part::Extended => self.extended_flags,
            Part::Names => &[],
        }
    }

    /// The words of the numbers of a part.
    fn numbers_in(&self, part: Part) -> &'d [i32]
        ensures { map the_number_given result.now ≡ (listed self.now part).numbers }
    {
        match part {
            Part::Standard => self.numbers,
            Part::Extended => self.extended_numbers,
            Part::Names => &[],
        }
    }

    /// How many capabilities have names.
    fn name_count(&self) -> usize
        ensures { result ≡ length (part_names self.now.extended) }
    {
        self.flag_names.len() + self.number_names.len() + self.text_names.len()
    }

    /// A name by its index: of flags, then numbers, then texts; at or above the count Absent.
    fn name(&self, index: usize) -> Text<'a>
        ensures { text_value result ≡ get_or (listed self.now Names).texts index AbsentText }
    {
        let (flags, numbers) = (self.flag_names.len(), self.number_names.len());
        if index < flags {
            return name_at(self.flag_names, index);
        }
        let index = index - flags;
        if index < numbers {
            return name_at(self.number_names, index);
        }
        name_at(self.text_names, index - numbers)
    }
}

impl<'d, 'a> Source for GivenEntry<'d, 'a> {
    ghost entry = { λ e. e };

    fn width(&self) -> Width {
        self.width
    }

    fn names(&self) -> &[u8] {
        self.names
    }

    fn flag_count(&self, part: Part) -> usize {
        self.flags_in(part).len()
    }

    fn number_count(&self, part: Part) -> usize {
        self.numbers_in(part).len()
    }

    fn text_count(&self, part: Part) -> usize {
        match part {
            Part::Standard => self.texts.len(),
            Part::Extended => self.extended_texts.len(),
            Part::Names => self.name_count(),
        }
    }

    fn flag(&self, part: Part, index: usize) -> Flag {
        flag_at(self.flags_in(part), index)
    }

    fn number(&self, part: Part, index: usize) -> Number {
        number_at(self.numbers_in(part), index)
    }

    fn text(&self, part: Part, index: usize) -> Text<'_> {
        match part {
            Part::Standard => text_at(self.texts, index),
            Part::Extended => text_at(self.extended_texts, index),
            Part::Names => self.name(index),
        }
    }
}
