//! Reading an entry for C, into arrays of the caller's.
//!
//! The bytes are checked once, and each array is filled once, in the order of its items. A text and a name stay where the
//! entry has them.

ghost use Rattle.std.specs.Prelude.{◌≡◌, ◌≢◌, ℕ, ◌+◌, ◌*◌, ◌≤◌, ◌⊎◌, ◌++◌, ◌↔◌, IsTrue, length, map, take};
ghost use Rattle.ti_words.specs.Marks.{word_of_number as the_word_of_number};
ghost use Rattle.ti_words.specs.Spelling.{part_names};
ghost use Rattle.ti_words.specs.Texts.{text_value};
ghost use Rattle.ti_words.specs.Value.{EntryValue};
ghost use Rattle.ti_words.specs.Widths.{number_size as the_number_size};
ghost use Rattle.ti_entry.specs.Finding.{names_of};
ghost use Rattle.ti_c.specs.Numbers.{done, room_too_small};
ghost use Rattle.ti_c.specs.Entries.{flag_mark as the_flag_mark, text_shown, text_held, bytes_held, itself, flag_marks, number_words, texts_shown, StartsWith, HasRoom, HasRoomIn, AreAmple, AreKept, StayInPlace, AreCountsOf, IsRead, SpellsSome, ForEntry, IsEntryRefusedAs};

use crate::faults::{DONE, ROOM_TOO_SMALL, entry_number};
use crate::names::Bytes;
use ti_entry::{Entry, Extended, PartView, read};
use ti_words::{Flag, Kind, Number, Text, number_size};

/// A text of an entry: its bytes if the mark is 0; -1 is absent and -2 cancelled, with no bytes.
#[repr(C)]
#[derive(Clone, Copy, Debug)]
pub struct TextItem<'a> {
    pub text: &'a [u8],
    pub mark: i8,
}

/// The names of an entry and how many capabilities it has, or where its fault stands.
#[repr(C)]
#[derive(Clone, Copy, Debug)]
pub struct EntryCounts<'a> {
    /// The names, separated by `|`, without the NUL after them.
    pub names: &'a [u8],
    pub flags: usize,
    pub numbers: usize,
    pub texts: usize,
    pub extended_flags: usize,
    pub extended_numbers: usize,
    pub extended_texts: usize,
    /// How wide its numbers are: 16 or 32.
    pub number_bits: u32,
    /// Where the fault stands, in bytes from the start.
    pub place: usize,
}

/// The arrays that an entry is read into.
#[repr(C)]
#[derive(Debug)]
pub struct Arrays<'a, 'b> {
    pub flags: &'b mut [i8],
    pub numbers: &'b mut [i32],
    pub texts: &'b mut [TextItem<'a>],
    /// The names of the extended flags, then numbers, then texts.
    pub names: &'b mut [Bytes<'a>],
}

/// The mark of a flag: 1 if the terminal has it, 0 if not, -1 missing, -2 cancelled.
pub(crate) fn flag_mark(flag: Flag) -> i8
    ensures { result ≡ the_flag_mark flag }
{
    match flag {
        Flag::No => 0,
        Flag::Yes => 1,
        Flag::Missing => -1,
        Flag::Cancelled => -2,
    }
}

/// The value of a number; -1 is absent, -2 cancelled.
pub(crate) fn number_word(number: Number) -> i32
    ensures { result ≡ the_word_of_number number }
{
    match number {
        Number::Absent => -1,
        Number::Cancelled => -2,
        Number::Value(value) => value,
    }
}

/// Puts the mark and the bytes of a text into an item. Its fields are written one by one, since a whole item would be
/// written with its padding.
fn put_text<'a>(item: &mut TextItem<'a>, text: Text<'a>)
    ensures { text_held item.new ≡ text_shown (text_value text.entry) }
{
    match text {
        Text::Value(text) => {
            item.text = text;
            item.mark = 0;
        }
        Text::Absent => {
            item.text = &[];
            item.mark = -1;
        }
        Text::Cancelled => {
            item.text = &[];
            item.mark = -2;
        }
    }
}

/// Puts the flags of a part into an array, from a place on.
fn put_flags(part: &PartView<'_>, flags: &mut [i8], from: usize)
    requires { from + length part.now.flags ≤ length flags.old }
    ensures { StartsWith itself flags.old flags.new
        (map itself (take from flags.old) ++ map the_flag_mark part.now.flags) }
{
    for i in 0..part.flag_count() {
        flags[from + i] = flag_mark(part.flag(i));
    }
}

/// Puts the numbers of a part into an array, from a place on.
fn put_numbers(part: &PartView<'_>, numbers: &mut [i32], from: usize)
    requires { from + length part.now.numbers ≤ length numbers.old }
    ensures { StartsWith itself numbers.old numbers.new
        (map itself (take from numbers.old) ++ map the_word_of_number part.now.numbers) }
{
    for i in 0..part.number_count() {
        numbers[from + i] = number_word(part.number(i));
    }
}

/// Puts the texts of a part into an array, from a place on.
fn put_texts<'a>(part: &PartView<'a>, texts: &mut [TextItem<'a>], from: usize)
    requires { from + length part.now.texts ≤ length texts.old }
    ensures { StartsWith text_held texts.old texts.new
        (map text_held (take from texts.old) ++ map text_shown part.now.texts) }
{
    for i in 0..part.text_count() {
        put_text(&mut texts[from + i], part.text(i));
    }
}

/// Puts the names of the extended capabilities of a kind into an array, from a place on. Each call knows its kind, and a
/// copy of the loop for it takes half the steps.
#[inline(always)]
fn put_names<'a>(extended: &Extended<'a>, kind: Kind, names: &mut [Bytes<'a>], from: usize)
    requires { from + length (names_of extended.now kind) ≤ length names.old }
    ensures { StartsWith bytes_held names.old names.new
        (map bytes_held (take from names.old) ++ names_of extended.now kind) }
{
    for i in 0..extended.count_of(kind) {
        if let Some(name) = extended.name(kind, i) {
            names[from + i] = Bytes { bytes: name };
        }
    }
}

/// Whether a room holds so many standard items and so many extended ones.
pub(crate) fn fits(room: usize, standard: usize, extended: usize) -> bool
    ensures { IsTrue result ↔ (standard + extended ≤ room) }
{
    standard <= room && extended <= room - standard
}

/// Whether arrays of these lengths have room for an entry.
fn has_room(
    entry: &Entry<'_>,
    extended: &Extended<'_>,
    flags: usize,
    numbers: usize,
    texts: usize,
    names: usize,
) -> bool
    requires { extended.now ≡ entry.now.extended }
    ensures { IsTrue result ↔ HasRoom entry.now flags numbers texts names }
{
    let flag_names = extended.flag_count();
    let number_names = extended.number_count();
    let text_names = extended.text_count();
    fits(flags, entry.flag_count(), flag_names)
        && fits(numbers, entry.number_count(), number_names)
        && fits(texts, entry.text_count(), text_names)
        && fits(names, flag_names, number_names)
        && text_names <= names - flag_names - number_names
}

/// How many bits the numbers of an entry have.
fn number_bits(entry: &Entry<'_>) -> u32
    ensures { result ≡ 8 * the_number_size entry.now.width }
{
    8 * number_size(entry.width()) as u32
}

/// Puts the names of an entry, and how many capabilities it has, into the counts. Their place is no part of it.
pub(crate) fn put_counts<'a>(
    counts: &mut EntryCounts<'a>,
    entry: &Entry<'a>,
    extended: &Extended<'a>,
)
    requires { extended.now ≡ entry.now.extended }
    ensures told { AreCountsOf counts.new entry.now }
    ensures untold { counts.new.place ≡ counts.old.place }
{
    counts.names = entry.names();
    counts.flags = entry.flag_count();
    counts.numbers = entry.number_count();
    counts.texts = entry.text_count();
    counts.extended_flags = extended.flag_count();
    counts.extended_numbers = extended.number_count();
    counts.extended_texts = extended.text_count();
    counts.number_bits = number_bits(entry);
}

/// Puts the names of all extended capabilities at the front of an array: of flags, then numbers, then texts.
fn put_all_names<'a>(extended: &Extended<'a>, names: &mut [Bytes<'a>])
    requires { length (part_names extended.now) ≤ length names.old }
    ensures { StartsWith bytes_held names.old names.new (part_names extended.now) }
{
    let numbers_from = extended.flag_count();
    let texts_from = numbers_from + extended.number_count();
    put_names(extended, Kind::Flag, names, 0);
    put_names(extended, Kind::Number, names, numbers_from);
    put_names(extended, Kind::Text, names, texts_from);
}

/// Fills arrays that have room for an entry.
fn fill<'a>(entry: &Entry<'a>, extended: &Extended<'a>, arrays: &mut Arrays<'a, '_>)
    requires same { extended.now ≡ entry.now.extended }
    requires room { HasRoomIn arrays.old entry.now }
    ensures flags { StartsWith itself arrays.old.flags.now arrays.new.flags.now
        (flag_marks entry.now) }
    ensures numbers { StartsWith itself arrays.old.numbers.now arrays.new.numbers.now
        (number_words entry.now) }
    ensures texts { StartsWith text_held arrays.old.texts.now arrays.new.texts.now
        (texts_shown entry.now) }
    ensures names { StartsWith bytes_held arrays.old.names.now arrays.new.names.now
        (part_names entry.now.extended) }
    ensures stay { StayInPlace arrays.old arrays.new }
{
    let (standard, extended_part) = (entry.standard(), extended.without_names());
    put_flags(&standard, arrays.flags, 0);
    put_flags(&extended_part, arrays.flags, standard.flag_count());
    put_numbers(&standard, arrays.numbers, 0);
    put_numbers(&extended_part, arrays.numbers, standard.number_count());
    put_texts(&standard, arrays.texts, 0);
    put_texts(&extended_part, arrays.texts, standard.text_count());
    put_all_names(extended, arrays.names);
}

/// Reads an entry into the caller's arrays, and returns 0, or the number of its fault with the place, or that an array is
/// too short; then the counts say how long each has to be.
///
/// The arrays start with the standard items by index, and after them come the extended ones. After a fault they are as
/// before. The place is written after a refusal alone, and then nothing else is.
#[unsafe(no_mangle)]
pub extern "C" fn ti_read<'a>(
    bytes: &'a [u8],
    arrays: &mut Arrays<'a, '_>,
    counts: &mut EntryCounts<'a>,
) -> u32
    ensures answer { IsRead result ⊎ IsEntryRefusedAs bytes.now result counts.new.place }
    ensures refused { (number place : ℕ) → IsEntryRefusedAs bytes.now number place
        → (result ≡ number) × (counts.new.place ≡ place) }
    // An entry is read if the bytes spell one, and only then, and its names and counts are written.
    ensures only { SpellsSome bytes.now → IsRead result }
    ensures spelled { IsRead result → SpellsSome bytes.now }
    ensures told { IsRead result → ForEntry bytes.now (λ v. AreCountsOf counts.new v) }
    // After a refusal nothing of the counts is written but the place, and else no place is.
    ensures place { IsRead result ⊎ (counts.new ≡ record counts.old { place = counts.new.place }) }
    ensures untold { IsRead result → counts.new.place ≡ counts.old.place }
    // The arrays have room for it, or have not.
    ensures room { result ≡ done → ForEntry bytes.now (HasRoomIn arrays.old) }
    ensures short { result ≡ room_too_small → ForEntry bytes.now
        (λ v. ¬ HasRoomIn arrays.old v) }
    // So much room is enough for every entry.
    ensures ample { AreAmple arrays.old → result ≢ room_too_small }
    // What is written is in the caller's arrays.
    ensures stay { StayInPlace arrays.old arrays.new }
    ensures kept { (result ≡ done) ⊎ AreKept arrays.old arrays.new }
    ensures flags { result ≡ done → ForEntry bytes.now (λ v.
        StartsWith itself arrays.old.flags.now arrays.new.flags.now (flag_marks v)) }
    ensures numbers { result ≡ done → ForEntry bytes.now (λ v.
        StartsWith itself arrays.old.numbers.now arrays.new.numbers.now (number_words v)) }
    ensures texts { result ≡ done → ForEntry bytes.now (λ v.
        StartsWith text_held arrays.old.texts.now arrays.new.texts.now (texts_shown v)) }
    ensures names { result ≡ done → ForEntry bytes.now (λ v.
        StartsWith bytes_held arrays.old.names.now arrays.new.names.now (part_names v.extended)) }
{
    let found = match read(bytes) {
        Ok(found) => found,
        Err(refused) => {
            counts.place = refused.place;
            return entry_number(refused.fault);
        }
    };
    let extended = found.extended();
    put_counts(counts, &found, &extended);
    let (flag_room, number_room) = (arrays.flags.len(), arrays.numbers.len());
    let (text_room, name_room) = (arrays.texts.len(), arrays.names.len());
    if !has_room(
        &found,
        &extended,
        flag_room,
        number_room,
        text_room,
        name_room,
    ) {
        return ROOM_TOO_SMALL;
    }
    fill(&found, &extended, arrays);
    DONE
}
