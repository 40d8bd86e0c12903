//! The variables whose numbers are known, since they were stored in the same capability.

ghost use Rattle.std.specs.Prelude.{◌≡◌, ℕ, ℤ, List};
ghost use Rattle.ti_parser.specs.Tops.{AreStored, IsStored, is_variable, no_names, number_at, number_in, other_than, stored, stored_as};

use crate::character::is_between;

/// A variable, and its number.
#[derive(Clone, Copy)]
pub(crate) struct Stored {
    /// Its letter.
    pub letter: u8,
    /// Its number.
    pub number: i32,
}

/// Four variables at most, the last that was stored first.
#[derive(Clone, Copy)]
pub(crate) struct Names {
    first: Option<Stored>,
    second: Option<Stored>,
    third: Option<Stored>,
    fourth: Option<Stored>,
}

/// The number of a variable, if this is it.
fn number_at(stored: Option<Stored>, letter: u8, otherwise: Option<i32>) -> Option<i32>
    ensures { result ≡ number_at stored letter otherwise }
{
    match stored {
        None => otherwise,
        Some(known) => {
            if known.letter == letter {
                Some(known.number)
            } else {
                otherwise
            }
        }
    }
}

/// What is known of another variable.
fn other_than(letter: u8, stored: Option<Stored>) -> Option<Stored>
    ensures { result ≡ other_than letter stored }
{
    match stored {
        None => None,
        Some(known) => {
            if known.letter == letter {
                None
            } else {
                Some(known)
            }
        }
    }
}

/// Whether a byte names a variable.
fn is_variable(byte: u8) -> bool
    ensures { result ≡ is_variable byte }
{
    is_between(b'a', b'z', byte) || is_between(b'A', b'Z', byte)
}

/// A variable that was stored, if its number is known.
fn stored_as(letter: u8, number: Option<i32>) -> Option<Stored>
    ensures { result ≡ stored_as letter number }
{
    match number {
        None => None,
        Some(number) => {
            if is_variable(letter) {
                Some(Stored { letter, number })
            } else {
                None
            }
        }
    }
}

/// A variable that has the same number by others.
fn agreed(stored: Option<Stored>, others: Names) -> Option<Stored>
    ensures left { (variables : List ℤ) → IsStored stored variables → IsStored result variables }
    ensures right { (variables : List ℤ) → AreStored others variables → IsStored result variables }
{
    match stored {
        None => None,
        Some(known) => match others.number(known.letter) {
            Some(number) if number == known.number => Some(known),
            _ => None,
        },
    }
}

impl Names {
    /// No variable is known.
    pub(crate) fn none() -> Names
        ensures { result ≡ no_names }
    {
        Names {
            first: None,
            second: None,
            third: None,
            fourth: None,
        }
    }

    /// The number of a variable.
    pub(crate) fn number(self, letter: u8) -> Option<i32>
        ensures { result ≡ number_in self letter }
    {
        let fourth = number_at(self.fourth, letter, None);
        let third = number_at(self.third, letter, fourth);
        let second = number_at(self.second, letter, third);
        number_at(self.first, letter, second)
    }

    /// After a variable is stored.
    pub(crate) fn stored(self, letter: u8, number: Option<i32>) -> Names
        ensures { result ≡ stored letter number self }
    {
        Names {
            first: stored_as(letter, number),
            second: other_than(letter, self.first),
            third: other_than(letter, self.second),
            fourth: other_than(letter, self.third),
        }
    }

    /// The variables that have the same numbers in both.
    pub(crate) fn joined(self, other: Names) -> Names
        ensures left { (variables : List ℤ) → AreStored self variables → AreStored result variables }
        ensures right { (variables : List ℤ) → AreStored other variables → AreStored result variables }
    {
        Names {
            first: agreed(self.first, other),
            second: agreed(self.second, other),
            third: agreed(self.third, other),
            fourth: agreed(self.fourth, other),
        }
    }
}
