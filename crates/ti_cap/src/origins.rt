//! Which parameters the values on the stack may be, over all paths that come to a place.
//!
//! Places are counted from the top of the stack, so that a push and a pop move all of them alike, whatever the height on
//! each path. No place depends on another, so what is found is exact.

ghost use Rattle.std.specs.Prelude.{◌≡◌, get_or};
ghost use Rattle.ti_cap.specs.inner.Gathering.{no_parameter, popped, pushed, joined};

use crate::parameter_set::ParameterSet;
use ti_base::MOST_VALUES;

/// For each place of the stack, the top first, the parameters whose values some path has there.
#[derive(Clone, Copy)]
pub struct Origins {
    sets: [ParameterSet; MOST_VALUES],
}

impl Origins {
    /// No parameter anywhere.
    pub const NONE: Origins = Origins {
        sets: [ParameterSet::NONE; MOST_VALUES],
    };

    /// The parameters whose values may be on top.
    pub fn top(&self) -> ParameterSet
        ensures { result ≡ get_or self.now.sets 0 no_parameter }
    {
        self.sets[0]
    }

    /// A value is popped.
    pub fn pop(&mut self)
        ensures { self.new ≡ popped self.old }
    {
        self.sets.copy_within(1.., 0);
        self.sets[MOST_VALUES - 1] = ParameterSet::NONE;
    }

    /// A value is pushed, which may be that of each of these parameters.
    pub fn push(&mut self, set: ParameterSet)
        ensures { self.new ≡ pushed set self.old }
    {
        self.sets.copy_within(..MOST_VALUES - 1, 1);
        self.sets[0] = set;
    }

    /// Other paths come to the same place.
    pub fn join(&mut self, other: &Origins)
        ensures { self.new ≡ joined self.old other.now }
    {
        for i in 0..MOST_VALUES {
            self.sets[i] = self.sets[i].union(other.sets[i]);
        }
    }
}
