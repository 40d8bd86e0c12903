//! Sets of variables, as bits. Each call takes constant time.

ghost use Rattle.std.specs.Prelude.{◌≡◌, ℕ, ◌≤◌, ◌↔◌, ◌⊎◌, IsTrue};
ghost use Rattle.ti_lint.specs.Variables.{HasOnlyLetters, HasVariable};
ghost use Rattle.ti_lint.specs.inner.Facts.{has_bit, place_of, stored_also, either_set, both_sets};

/// A set of variables. Bit N of the mask says whether the letter N places after `A` in ASCII is in it.
#[derive(Clone, Copy, Debug, PartialEq, Eq)]
pub struct Variables {
    /// The bits.
    pub mask: u64,
}

impl Variables {
    /// No variable.
    pub const NONE: Variables = Variables { mask: 0 };

    /// All variables.
    pub(crate) const ALL: Variables = Variables { mask: u64::MAX };

    /// Whether a variable is in it, by its letter.
    pub fn contains(self, letter: u8) -> bool
        ensures exact { IsTrue result ↔ HasVariable self letter }
    {
        letter.is_ascii_alphabetic() && self.has(letter)
    }

    /// The same for what is known to be a letter.
    pub(crate) fn has(self, letter: u8) -> bool
        requires low { 65 ≤ letter }
        requires high { letter ≤ 122 }
        ensures { result ≡ has_bit self.mask (place_of letter) }
    {
        self.mask >> (letter - b'A') & 1 == 1
    }

    /// Returns the union of two sets.
    pub fn union(self, other: Variables) -> Variables
        ensures exact { (which : ℕ) → HasVariable result which
            ↔ (HasVariable self which ⊎ HasVariable other which) }
        ensures only { HasOnlyLetters self → HasOnlyLetters other → HasOnlyLetters result }
    {
        self.either(other)
    }

    /// The same, by its bits.
    pub(crate) fn either(self, other: Variables) -> Variables
        ensures { result ≡ either_set self other }
    {
        Variables {
            mask: self.mask | other.mask,
        }
    }

    /// The set with one variable more.
    pub(crate) fn with(self, letter: u8) -> Variables
        requires low { 65 ≤ letter }
        requires high { letter ≤ 122 }
        ensures { result ≡ stored_also letter self }
    {
        Variables {
            mask: self.mask | 1 << (letter - b'A'),
        }
    }

    /// Returns the intersection of two sets.
    pub(crate) fn intersection(self, other: Variables) -> Variables
        ensures { result ≡ both_sets self other }
    {
        Variables {
            mask: self.mask & other.mask,
        }
    }
}
