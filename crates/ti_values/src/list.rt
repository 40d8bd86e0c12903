//! The output at a place of a list.

ghost use Rattle.std.specs.Prelude.{◌≡◌};
ghost use Rattle.ti_values.specs.Findings.{sent_at};
ghost use Rattle.ti_values.specs.Sent.{texts_of};

use std::alloc::Allocator;

/// Returns the output for the value at a place, and nothing if there is none.
#[inline(always)]
pub fn sent_at<A: Allocator>(sent: &[Vec<u8, A>], place: usize) -> &[u8]
    ensures exact { result.now ≡ sent_at (texts_of sent.now) place }
{
    if place < sent.len() {
        return sent[place].as_slice();
    }
    &[]
}
