//! The meaning of the bytes and words of a compiled terminfo entry (term(5)).
//!
//! A flag is one byte, a number is one word, a text is an offset or a mark. Each function here is exact both ways: a
//! byte and its flag, a word and its number determine each other. None takes memory, and each takes a few instructions.
//! `specs/Spelling.antt` says which bytes spell an entry: reading and writing stand on it, each in crates of their own.
#![tactic(auto)]

ghost use Rattle.std.specs.Prelude.{◌≡◌, ◌<◌, ◌^◌, pos, IfSome};
ghost use Rattle.ti_words.specs.Marks.{byte_of_flag, flag_of_byte, word_of_number, number_of_word, HasWord};
ghost use Rattle.ti_words.specs.Widths.{number_size as the_number_size, magic_number as the_magic_number, width_of_magic as the_width_of_magic, greatest_number as the_greatest_number, format_name as the_format_name};

mod item;

pub use item::{Item, Subject};
use ti_base::{GREATEST_WIDE_WORD, GREATEST_WORD};

/// A flag of an entry (a boolean capability of terminfo(5)).
#[derive(Clone, Copy, Debug, PartialEq, Eq)]
pub enum Flag {
    /// The terminal does not have it, or the entry says nothing of it.
    No,
    /// The terminal has it.
    Yes,
    /// The entry takes it back (`name@` in a source).
    Cancelled,
    /// The entry marks it as missing.
    Missing,
}

/// A number of an entry.
#[derive(Clone, Copy, Debug, PartialEq, Eq)]
pub enum Number {
    /// The entry says nothing of it.
    Absent,
    /// The entry takes it back.
    Cancelled,
    /// Its value. An entry that was read has none below 0.
    Value(i32),
}

/// A text of an entry (a string capability of terminfo(5)), lent from the entry's bytes.
#[derive(Clone, Copy, Debug, PartialEq, Eq)]
pub enum Text<'a> {
    /// The entry says nothing of it.
    Absent,
    /// The entry takes it back.
    Cancelled,
    /// Its bytes, without the NUL after them. There may be none.
    Value(&'a [u8]),
}

/// The kind of a capability.
#[derive(Clone, Copy, Debug, PartialEq, Eq)]
pub enum Kind {
    Flag,
    Number,
    Text,
}

/// How wide the numbers of an entry are. Offsets and counts are words of 16 bits in each.
#[derive(Clone, Copy, Debug, PartialEq, Eq)]
pub enum Width {
    /// Words of 16 bits.
    Legacy,
    /// Words of 32 bits.
    Wide,
}

/// The flag that a byte means: 0 No, 1 Yes, 254 Cancelled, 255 Missing, and no other byte.
pub fn flag_of(byte: u8) -> Option<Flag>
    ensures value { result ≡ flag_of_byte byte }
    ensures back { IfSome result (λ flag. byte_of_flag flag ≡ byte) }
{
    match byte {
        0 => Some(Flag::No),
        1 => Some(Flag::Yes),
        254 => Some(Flag::Cancelled),
        255 => Some(Flag::Missing),
        _ => None,
    }
}

/// The byte that means a flag.
pub fn flag_byte(flag: Flag) -> u8
    ensures value { result ≡ byte_of_flag flag }
    ensures back { flag_of_byte result ≡ Some flag }
{
    match flag {
        Flag::No => 0,
        Flag::Yes => 1,
        Flag::Cancelled => 254,
        Flag::Missing => 255,
    }
}

/// The number that a word means: -1 Absent, -2 Cancelled, none below, else the word itself.
pub fn number_of(word: i32) -> Option<Number>
    ensures value { result ≡ number_of_word word }
    ensures back { IfSome result (λ number. word_of_number number ≡ word) }
{
    match word {
        -1 => Some(Number::Absent),
        -2 => Some(Number::Cancelled),
        value if value < 0 => None,
        value => Some(Number::Value(value)),
    }
}

/// The word that means a number, whose value is not negative.
pub fn number_word(number: Number) -> i32
    requires { HasWord number }
    ensures value { result ≡ word_of_number number }
    ensures back { number_of_word result ≡ Some number }
{
    match number {
        Number::Absent => -1,
        Number::Cancelled => -2,
        Number::Value(value) => value,
    }
}

/// The bytes of a number.
#[inline(always)]
pub fn number_size(width: Width) -> usize
    ensures { result ≡ the_number_size width }
{
    match width {
        Width::Legacy => 2,
        Width::Wide => 4,
    }
}

/// The number that an entry of a format starts with.
pub fn magic_number(width: Width) -> usize
    ensures value { result ≡ the_magic_number width }
    ensures fits { result < 2 ^ 15 }
    ensures back { the_width_of_magic result ≡ Some width }
{
    match width {
        Width::Legacy => 0o432,
        Width::Wide => 0o1036,
    }
}

/// The format whose entries start with a number, if there is one.
pub fn width_of_magic(magic: usize) -> Option<Width>
    ensures value { result ≡ the_width_of_magic magic }
    ensures back { IfSome result (λ width. the_magic_number width ≡ magic) }
{
    match magic {
        0o432 => Some(Width::Legacy),
        0o1036 => Some(Width::Wide),
        _ => None,
    }
}

/// The greatest number of a format.
pub fn greatest_number(width: Width) -> i32
    ensures { result ≡ pos (the_greatest_number width) }
{
    match width {
        Width::Legacy => GREATEST_WORD,
        Width::Wide => GREATEST_WIDE_WORD,
    }
}

/// The word for a format, as a listing and JSON write it.
pub fn format_name(width: Width) -> &'static str
    ensures { result.now ≡ the_format_name width }
{
    match width {
        Width::Legacy => "legacy",
        Width::Wide => "wide",
    }
}
