//! A text in the form that is requested, at the end of a vector.
//!
//! The vector grows at most once a call, so that many calls on one vector take linear time.

ghost use Rattle.std.specs.Prelude.{◌≡◌, ◌≤◌, ◌+◌, ◌*◌, ◌++◌, length, vec_len, vec_capacity, OnOk, OnErr, IsOk};
ghost use Rattle.hex.specs.Hex.{encode_lower};
ghost use Rattle.ti_escape.specs.Forms.{formed, shown};

use crate::form::Form;
use crate::length::notation_len;
use crate::memory::push_notation;
use std::alloc::{AllocError, Allocator};

/// Appends a text in lower-case hex.
#[tactic(auto, using(crate::proofs::FormsLemmas::hex_length))]
fn push_hex<A: Allocator>(out: &mut Vec<u8, A>, text: &[u8]) -> Result<(), AllocError>
    ensures text { OnOk result (out.new.items ≡ out.old.items ++ encode_lower text.now) }
    ensures kept { OnErr result (out.new.items ≡ out.old.items) }
    ensures room { vec_len out.old + length (encode_lower text.now) ≤ vec_capacity out.old
        → IsOk result }
{
    let start = out.len();
    let len = 2 * text.len();
    out.reserve(len)?;
    out.resize(start + len, 0)?;
    let _ = hex::encode_to_slice(text, &mut out.as_mut_slice()[start..]);
    Ok(())
}

/// How many bytes a text has in a form.
#[tactic(auto, using(crate::proofs::FormsLemmas::hex_length))]
pub fn formed_len(form: Form, text: &[u8]) -> u128
    ensures value { result ≡ length (formed form text.now) }
    ensures few { result ≤ 4 * length text.now }
{
    match form {
        Form::Hex => 2 * text.len() as u128,
        Form::Notation => notation_len(text),
    }
}

/// Appends a text in a form. If the vector has room for it, [`formed_len`] bytes, no memory is taken. After an error
/// the vector holds what it held.
pub fn push_formed<A: Allocator>(
    out: &mut Vec<u8, A>,
    form: Form,
    text: &[u8],
) -> Result<(), AllocError>
    ensures text { OnOk result (out.new.items ≡ out.old.items ++ formed form text.now) }
    ensures kept { OnErr result (out.new.items ≡ out.old.items) }
    ensures room { vec_len out.old + length (formed form text.now) ≤ vec_capacity out.old
        → IsOk result }
{
    match form {
        Form::Hex => push_hex(out, text),
        Form::Notation => push_notation(out, text),
    }
}

/// Appends a text in a form, or `-` if it has no bytes, as a listing shows it. If the vector has room for that, no
/// memory is taken. After an error the vector holds what it held.
pub fn push_shown<A: Allocator>(
    out: &mut Vec<u8, A>,
    form: Form,
    text: &[u8],
) -> Result<(), AllocError>
    ensures text { OnOk result (out.new.items ≡ out.old.items ++ shown form text.now) }
    ensures kept { OnErr result (out.new.items ≡ out.old.items) }
    ensures room { vec_len out.old + length (shown form text.now) ≤ vec_capacity out.old
        → IsOk result }
{
    match text {
        [] => out.extend_from_slice(b"-"),
        _ => push_formed(out, form, text),
    }
}
