//! The variables `a` to `z` and `A` to `Z`: 52 numbers that last from one expansion to the next.

ghost use Rattle.std.specs.Prelude.{◌≡◌, pos, replicate, ◌↔◌, ◌<◌, IsTrue, IsSome, IfSome};
ghost use Rattle.ti_expand.specs.State.{variable_index, variable_at, with_variable_at};
ghost use Rattle.ti_expand.specs.Sound.{AreVariables};

use std::marker::Model;

const COUNT: usize = 52;

/// A number for each ASCII letter, `a` to `z` before `A` to `Z`. C sees it as an array of 52 numbers.
#[repr(C)]
#[derive(Debug, Drop)]
pub struct Vars {
    values: [i32; COUNT],
}

impl Model for Vars {
    ghost use Rattle.std.specs.Prelude.{List, ℤ};
    ghost use Rattle.ti_expand.specs.Sound.{AreVariables};

    ghost Value = { List ℤ };

    ghost view = { λ vars. vars.values };

    ghost invariant = { λ vars. AreVariables vars.values };

    ghost inverse = { λ values. record { values = values } };
}

/// Where a letter's variable stands: `a` to `z` before `A` to `Z`.
fn index_of(letter: u8) -> Option<usize>
    ensures index { result ≡ variable_index letter }
    ensures within { IfSome result (λ index. index < 52) }
{
    match letter {
        b'a'..=b'z' => Some((letter - b'a') as usize),
        b'A'..=b'Z' => Some((letter - b'A') as usize + 26),
        _ => None,
    }
}

impl Vars {
    /// Each variable is 0.
    pub fn new() -> Vars
        ensures zero { result ≡ replicate 52 (pos 0) }
        ensures numbers { AreVariables result }
    {
        Vars { values: [0; COUNT] }
    }

    /// A copy with the same numbers.
    #[inline(always)]
    pub fn copy(&self) -> Vars
        ensures same { result ≡ self.now }
        ensures numbers { AreVariables self.now }
    {
        Vars {
            values: self.values,
        }
    }

    /// All numbers, each of which fits 32 bits.
    pub(crate) fn numbers(&self) -> &[i32]
        ensures { AreVariables self.now }
    {
        &self.values
    }

    /// The number of a letter's variable; none for what is no ASCII letter.
    pub fn get(&self, letter: u8) -> Option<i32>
        ensures letter { IsSome result ↔ IsSome (variable_index letter) }
        ensures value { IfSome result
            (λ number. number ≡ variable_at self.now (variable_index letter)) }
        ensures numbers { AreVariables self.now }
    {
        let values = &self.values;
        match index_of(letter) {
            Some(index) => Some(values[index]),
            None => None,
        }
    }

    /// Changes a letter's variable and no other; false, and nothing changed, for what is no ASCII letter.
    pub fn set(&mut self, letter: u8, number: i32) -> bool
        ensures letter { IsTrue result ↔ IsSome (variable_index letter) }
        ensures after { self.new ≡ with_variable_at self.old (variable_index letter) number }
        ensures numbers { AreVariables self.new }
    {
        let values = &mut self.values;
        match index_of(letter) {
            Some(index) => {
                values[index] = number;
                true
            }
            None => false,
        }
    }
}
