//! The numbers of a function.

ghost use Rattle.std.specs.Prelude.{◌≡◌, ◌+◌, ◌++◌, ◌∷◌, ◌<◌, ◌≤◌, List, [], length, slice_get, nat_lt, map, take};
ghost use Rattle.std.specs.Bool.{OnTrue};
ghost use Rattle.ti_parser.specs.inner.Colors.{AreHex};
ghost use Rattle.ti_parser.specs.Numbers.{bounded, forgotten, hex_value, is_absent, is_hex, most_numbers, with_digit};

use std::marker::Model;

/// The most numbers of a function that are kept.
pub const MOST_NUMBERS: usize = 32;

/// A number of a function.
#[derive(Clone, Copy, Debug, PartialEq, Eq)]
pub enum FunctionNumber {
    /// It is left out.
    Absent,
    /// Its value.
    Known(u16),
    /// It is above 65535: terminals take it as a large one, or as what is left of it in so many bits.
    Large,
    /// It came, and its value is not known. No byte leads to such a number.
    Any,
}

impl FunctionNumber {
    /// The number with one more digit.
    pub(crate) fn with_digit(self, digit: u8) -> FunctionNumber
        ensures { result ≡ with_digit self digit }
    {
        match self {
            FunctionNumber::Absent => FunctionNumber::Known(u16::from(digit)),
            FunctionNumber::Known(value) => bounded(10 * u32::from(value) + u32::from(digit)),
            FunctionNumber::Large => FunctionNumber::Large,
            FunctionNumber::Any => FunctionNumber::Any,
        }
    }
}

/// A number of which only whether it came is known.
pub(crate) fn forgotten(number: FunctionNumber) -> FunctionNumber
    ensures { result ≡ forgotten number }
{
    match number {
        FunctionNumber::Absent => FunctionNumber::Absent,
        _ => FunctionNumber::Any,
    }
}

/// A number, which is large from 65536 on.
fn bounded(value: u32) -> FunctionNumber
    ensures { result ≡ bounded value }
{
    if value < 0x10000 {
        FunctionNumber::Known(value as u16)
    } else {
        FunctionNumber::Large
    }
}

/// Whether no digit has come.
pub(crate) fn is_absent(number: FunctionNumber) -> bool
    ensures { result ≡ is_absent number }
{
    matches!(number, FunctionNumber::Absent)
}

/// Whether a byte is a hexadecimal digit.
pub(crate) fn is_hex(byte: u8) -> bool
    ensures { result ≡ is_hex byte }
{
    match byte {
        b'0'..=b'9' => true,
        b'A'..=b'F' => true,
        b'a'..=b'f' => true,
        _ => false,
    }
}

/// How many bytes at the start are hexadecimal digits.
pub(crate) fn count_hex(bytes: &[u8]) -> usize
    ensures within { result ≤ length bytes.now }
    ensures hex { AreHex (take result bytes.now) }
{
    for at in 0..bytes.len() {
        if !is_hex(bytes[at]) {
            return at;
        }
    }
    bytes.len()
}

/// The value of a hexadecimal digit.
pub(crate) fn hex_value(byte: u8) -> u8
    ensures { result ≡ hex_value byte }
{
    if byte < b'A' {
        byte.saturating_sub(b'0')
    } else if byte < b'a' {
        byte.saturating_sub(55)
    } else {
        byte.saturating_sub(87)
    }
}

/// The numbers of a function in their order, at most [`MOST_NUMBERS`]; seen as their list.
#[derive(Drop)]
pub struct FunctionNumbers {
    kept: [FunctionNumber; MOST_NUMBERS],
    count: usize,
}

impl Model for FunctionNumbers {
    ghost use Rattle.std.specs.Prelude.{◌≡◌, ◌≤◌, List, length, take};
    ghost use Rattle.ti_parser.specs.declared.number.FunctionNumber.{FunctionNumber};

    ghost Value = { List FunctionNumber };

    ghost view = { λ n. take n.count n.kept };

    ghost invariant = { λ n. (n.count ≤ 32) × (length n.kept ≡ 32) };
}

impl FunctionNumbers {
    /// No number.
    pub(crate) fn new() -> FunctionNumbers
        ensures { result ≡ [] }
    {
        FunctionNumbers {
            kept: [FunctionNumber::Absent; MOST_NUMBERS],
            count: 0,
        }
    }

    /// The numbers as a slice.
    pub fn as_slice(&self) -> &[FunctionNumber]
        ensures numbers { result.now ≡ self.now }
        ensures few { length result.now ≤ most_numbers }
    {
        &self.kept[..self.count]
    }

    /// How many they are.
    pub fn len(&self) -> usize
        ensures { result ≡ length self.now }
    {
        self.as_slice().len()
    }

    /// The same numbers.
    pub fn duplicate(&self) -> FunctionNumbers
        ensures { result ≡ self.now }
    {
        FunctionNumbers {
            kept: self.kept,
            count: self.count,
        }
    }

    /// Whether they are the same.
    pub(crate) fn is_same(&self, other: &FunctionNumbers) -> bool
        ensures { OnTrue result (self.now ≡ other.now) }
    {
        self.as_slice() == other.as_slice()
    }

    /// The same numbers, of which only whether they came is known.
    pub(crate) fn forgotten(&self) -> FunctionNumbers
        ensures { result ≡ map forgotten self.now }
    {
        let mut all = FunctionNumbers::new();
        for number in self.as_slice() {
            all.push(forgotten(*number));
        }
        all
    }

    /// Drops all numbers.
    pub(crate) fn clear(&mut self)
        ensures { self.new ≡ [] }
    {
        self.count = 0;
    }

    /// Adds a number at the end.
    pub(crate) fn push(&mut self, number: FunctionNumber)
        requires { length self.old < most_numbers }
        ensures { self.new ≡ self.old ++ number ∷ [] }
    {
        self.kept[self.count] = number;
        self.count += 1;
    }
}
