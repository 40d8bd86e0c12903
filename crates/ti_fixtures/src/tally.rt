//! Tries of a call with more and more memory.

ghost use Rattle.std.specs.Prelude.{◌≡◌, true, false};

use crate::rows::Unfound;
use linked_list_allocator::LocalHeap;
use std::alloc::Global;

/// How often the memory of a call was refused, and how often it went through.
#[derive(Clone, Copy, Debug, PartialEq, Eq)]
pub struct Tally {
    refused: u32,
    given: u32,
    /// Refused with more memory than that of a call that went through.
    late: u32,
}

impl Tally {
    /// No try at all.
    pub const NONE: Tally = Tally {
        refused: 0,
        given: 0,
        late: 0,
    };

    /// Counts a try with more memory than those before it.
    pub fn count(&mut self, is_given: bool)
        ensures late { is_given ≡ true → self.new.late ≡ self.old.late }
        ensures refused { is_given ≡ true → self.new.refused ≡ self.old.refused }
        ensures given { is_given ≡ false → self.new.given ≡ self.old.given }
    {
        if is_given {
            self.given = self.given.saturating_add(1);
        } else if self.given > 0 {
            self.late = self.late.saturating_add(1);
        } else {
            self.refused = self.refused.saturating_add(1);
        }
    }

    /// Whether more than so many tries were refused, and all tries after them, which are more than so many too, went through.
    pub fn is_refused_then_given(&self, least: u32) -> bool {
        self.late == 0 && self.refused > least && self.given > least
    }
}

/// A call that takes memory.
pub trait Tries {
    /// Whether the call is given what it needs by a heap, or else says that memory is refused.
    fn is_given(&self, heap: &LocalHeap) -> Result<bool, Unfound>;
}

/// Tries a call with so much memory, all of which it has to give back.
fn is_given_in<T: Tries>(alloc: Global, tries: &T, memory: usize) -> Result<bool, Unfound> {
    let heap = LocalHeap::new(alloc, memory)?;
    let is_given = tries.is_given(&heap);
    if heap.used() == 0 {
        is_given
    } else {
        Err(Unfound)
    }
}

/// The tries of a call with so much memory at first, and each time so much more. There is none if one fails otherwise.
pub fn tally_of<T: Tries>(
    alloc: Global,
    tries: &T,
    first: usize,
    more: usize,
    count: usize,
) -> Tally {
    let mut tally = Tally::NONE;
    let mut memory = first;
    for _ in 0..count {
        match is_given_in(alloc, tries, memory) {
            Ok(is_given) => tally.count(is_given),
            Err(_) => return Tally::NONE,
        }
        memory = memory.saturating_add(more);
    }
    tally
}
