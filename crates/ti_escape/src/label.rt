//! The notation of a name without a space, at the end of a vector.
//!
//! The vector grows at most once a call, so that many calls on one vector take linear time.

ghost use Rattle.std.specs.Prelude.{◌≡◌, ◌≤◌, ◌+◌, ◌++◌, length, vec_len, vec_capacity, OnOk, OnErr, IsOk};
ghost use Rattle.ti_escape.specs.Notation.{label_notation};

use crate::length::span_len;
use crate::slice::put_span;
use crate::stretch::label_of;
use std::alloc::{AllocError, Allocator};

/// Appends the notation of a name, with `\s` for each space. If the vector has room for it, no memory is taken. After an
/// error the vector holds what it held.
pub fn push_label<A: Allocator>(out: &mut Vec<u8, A>, name: &[u8]) -> Result<(), AllocError>
    ensures text { OnOk result (out.new.items ≡ out.old.items ++ label_notation name.now) }
    ensures kept { OnErr result (out.new.items ≡ out.old.items) }
    ensures room { vec_len out.old + length (label_notation name.now) ≤ vec_capacity out.old
        → IsOk result }
{
    let start = out.len();
    let label = label_of(name);
    let Ok(len) = usize::try_from(span_len(label)) else {
        return Err(AllocError);
    };
    out.reserve(len)?;
    out.resize(start + len, 0)?;
    put_span(&mut out.as_mut_slice()[start..], 0, label);
    Ok(())
}
