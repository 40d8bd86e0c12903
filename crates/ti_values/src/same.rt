//! Two values for which the same is sent.

ghost use Rattle.std.specs.Bool.{OnTrue};
ghost use Rattle.std.specs.Prelude.{ℕ, IfOk};
ghost use Rattle.ti_values.specs.Findings.{IsFirstSame, IsSameAt};
ghost use Rattle.ti_values.specs.inner.Rising.{IsBefore};
ghost use Rattle.ti_values.specs.Sent.{texts_of};

use crate::list::sent_at;
use std::alloc::{AllocError, Allocator};
use std::cmp::Ordering;
use std::collections::BTreeMap;

/// The places of two values for which the same is sent.
#[derive(Clone, Copy, Debug, PartialEq, Eq)]
pub struct Same {
    /// That of the earlier value.
    pub one: usize,
    /// That of the later value.
    pub other: usize,
}

/// Whether an output is shorter than another, or as long and before it in the order of bytes.
fn is_before(one: &[u8], other: &[u8]) -> bool
    ensures { OnTrue result (IsBefore one.now other.now) }
{
    match one.len().cmp(&other.len()) {
        Ordering::Less => true,
        Ordering::Equal => one.cmp(other).is_lt(),
        Ordering::Greater => false,
    }
}

/// Whether each output is before the next, as those of growing numbers mostly are. Then no two are the same.
fn rises<A: Allocator>(sent: &[Vec<u8, A>]) -> bool
    ensures { OnTrue result ((one other : ℕ) → ¬ IsSameAt (texts_of sent.now) one other) }
{
    'outputs: for next in 1..sent.len() {
        if !is_before(sent_at(sent, next - 1), sent_at(sent, next)) {
            return false;
        }
    }
    true
}

/// The first value for which the same is sent as for an earlier one, and that one. Unless the outputs rise, it looks each up among the
/// earlier ones, which are kept in order.
///
/// # Errors
///
/// Memory was refused.
pub fn first_same<A: Allocator + Copy>(
    alloc: A,
    sent: &[Vec<u8, A>],
) -> Result<Option<Same>, AllocError>
    ensures exact { IfOk result (IsFirstSame (texts_of sent.now)) }
{
    if rises(sent) {
        return Ok(None);
    }
    let mut earlier = BTreeMap::new(alloc);
    'values: for other in 0..sent.len() {
        if let Some(one) = earlier.insert(sent_at(sent, other), other)? {
            return Ok(Some(Same { one, other }));
        }
    }
    Ok(None)
}
