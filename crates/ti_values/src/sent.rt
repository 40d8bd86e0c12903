//! The output of a text for each of some values.

ghost use Rattle.std.specs.Prelude.{◌≡◌, ◌==◌, IfOk, IfSome, codes};
ghost use Rattle.std.specs.List.{list_any};
ghost use Rattle.ti_base.specs.Letters.{letter};
ghost use Rattle.ti_values.specs.Ranges.{parameters_of};
ghost use Rattle.ti_values.specs.Sent.{AreSent, Sends, texts_of, without_marks};
ghost use Rattle.ti_values.specs.inner.Rate.{IsWithoutRate};

use crate::tried::Tried;
use std::alloc::{AllocError, Allocator};
use ti_cap::Capability;
use ti_expand::{Vars, expand};
use ti_pad::{Padding, pad};

/// A line on which padding takes no byte: without a rate no time passes on it.
fn no_padding() -> Option<Padding>
    ensures { IfSome result IsWithoutRate }
{
    Padding::new(0, 0, false, 0)
}

/// Bytes without padding marks.
pub fn without_marks<A: Allocator + Copy>(alloc: A, bytes: &[u8]) -> Result<Vec<u8, A>, AllocError>
    ensures { IfOk result (λ rest. rest.items ≡ without_marks bytes.now) }
{
    let Some(padding) = no_padding() else {
        return Err(AllocError);
    };
    match pad(alloc, bytes, &padding) {
        Ok(rest) => Ok(rest),
        Err(_) => Err(AllocError),
    }
}

/// Whether a mark can start somewhere.
fn has_dollar(bytes: &[u8]) -> bool
    ensures { result ≡ list_any (λ byte. byte == letter (codes "$")) bytes.now }
{
    bytes.iter().any(|byte| *byte == b'$')
}

/// An output without padding marks, itself if none can start in it.
#[tactic(auto, using(crate::proofs::SentLemmas::unmarked))]
fn output_without_marks<A: Allocator + Copy>(
    alloc: A,
    output: Vec<u8, A>,
) -> Result<Vec<u8, A>, AllocError>
    ensures { IfOk result (λ rest. rest.items ≡ without_marks output.items) }
{
    if !has_dollar(output.as_slice()) {
        return Ok(output);
    }
    without_marks(alloc, output.as_slice())
}

/// Returns the output of a capability for a value, without padding marks, over fresh variables.
///
/// # Errors
///
/// Memory was refused.
pub fn sent_by<A: Allocator + Copy>(
    alloc: A,
    capability: &Capability<'_>,
    value: Tried,
) -> Result<Vec<u8, A>, AllocError>
    ensures all { IfOk result
        (λ sent. Sends capability.now (parameters_of value) sent.items) }
{
    let parameters = value.parameters();
    let mut vars = Vars::new();
    let Ok(output) = expand(alloc, capability, &parameters, &mut vars) else {
        return Err(AllocError);
    };
    output_without_marks(alloc, output)
}

/// Returns the output of a capability for each of some values, in their order, without padding marks. The variables are fresh
/// for each.
///
/// # Errors
///
/// Memory was refused.
pub fn sent_for<A: Allocator + Copy>(
    alloc: A,
    capability: &Capability<'_>,
    values: &[Tried],
) -> Result<Vec<Vec<u8, A>, A>, AllocError>
    ensures all { IfOk result
        (λ list. AreSent capability.now values.now (texts_of list.items)) }
{
    let mut list = Vec::new(alloc);
    'values: for value in values {
        list.push(sent_by(alloc, capability, *value)?)?;
    }
    Ok(list)
}
