//! A value for which nothing is sent.

ghost use Rattle.std.specs.Prelude.{ℕ, ◌<◌};
ghost use Rattle.ti_values.specs.Findings.{IsEmptyAt, IsFirstOf};
ghost use Rattle.ti_values.specs.Sent.{texts_of};

use crate::list::sent_at;
use std::alloc::Allocator;

/// The place of the first value for which nothing is sent.
pub fn first_empty<A: Allocator>(sent: &[Vec<u8, A>]) -> Option<usize>
    ensures exact { IsFirstOf (IsEmptyAt (texts_of sent.now)) result }
{
    'values: for place in 0..sent.len() {
        if sent_at(sent, place).is_empty() {
            return Some(place);
        }
    }
    None
}
