//! Sets of parameters, as bits. Each call takes constant time.

ghost use Rattle.std.specs.Prelude.{◌≡◌, ◌≤◌, ◌↔◌, IsTrue};
ghost use Rattle.ti_cap.specs.Sources.{Has};
ghost use Rattle.ti_cap.specs.inner.Gathering.{united, only as the_only};

/// A set of parameters. Bit N - 1 of the mask says whether parameter N is in it.
#[derive(Clone, Copy, Debug, PartialEq, Eq)]
pub struct ParameterSet {
    /// The bits.
    pub mask: u16,
}

impl ParameterSet {
    /// No parameter.
    pub const NONE: ParameterSet = ParameterSet { mask: 0 };

    /// Whether a parameter is in it.
    pub fn contains(self, which: u8) -> bool
        ensures exact { IsTrue result ↔ Has self which }
    {
        let mask = self.mask;
        if which == 0 || which > 16 {
            return false;
        }
        mask & (1 << (which - 1)) != 0
    }

    /// The set of one parameter.
    pub(crate) fn only(which: u8) -> ParameterSet
        requires low { 1 ≤ which }
        requires high { which ≤ 9 }
        ensures { result ≡ the_only which }
    {
        ParameterSet {
            mask: 1 << (which - 1),
        }
    }

    /// Returns the union of two sets.
    pub(crate) fn union(self, other: ParameterSet) -> ParameterSet
        ensures { result ≡ united self other }
    {
        ParameterSet {
            mask: self.mask | other.mask,
        }
    }
}
