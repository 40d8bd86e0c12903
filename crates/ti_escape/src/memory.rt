//! The notation of a text at the end of a vector.
//!
//! The vector grows at most once a call, so that many calls on one vector take linear time.

ghost use Rattle.std.specs.Prelude.{◌≡◌, ◌≤◌, ◌+◌, ◌++◌, length, vec_len, vec_capacity, OnOk, OnErr, IsOk};
ghost use Rattle.ti_escape.specs.Notation.{notation};

use crate::length::notation_len;
use crate::slice::put_notation;
use std::alloc::{AllocError, Allocator};

/// Appends the notation of a text. If the vector has room for it, [`notation_len`] bytes, no memory is taken. After an
/// error the vector holds what it held.
///
/// # Examples
///
/// ```rust
/// let mut shown = Vec::new(rt.alloc());
/// push_notation(&mut shown, b"\x1b[%p1%dG\r\n")?;
/// assert!(rt; shown.as_slice() == br"\E[%p1%dG^M^J".as_slice());
/// ```
pub fn push_notation<A: Allocator>(out: &mut Vec<u8, A>, text: &[u8]) -> Result<(), AllocError>
    ensures text { OnOk result (out.new.items ≡ out.old.items ++ notation text.now) }
    ensures kept { OnErr result (out.new.items ≡ out.old.items) }
    ensures room { vec_len out.old + length (notation text.now) ≤ vec_capacity out.old → IsOk result }
{
    let start = out.len();
    let Ok(len) = usize::try_from(notation_len(text)) else {
        return Err(AllocError);
    };
    out.reserve(len)?;
    out.resize(start + len, 0)?;
    put_notation(text, &mut out.as_mut_slice()[start..]);
    Ok(())
}
