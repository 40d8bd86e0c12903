//! `convert`: an entry in its canonical layout, in its own format or in the one that is requested.

ghost use Rattle.std.specs.Prelude.{◌≡◌, Ok, IfOk, MatchResult};
ghost use Rattle.ti_tool.specs.Results.{IsEncoding, in_width};
ghost use Rattle.ti_tool.specs.Calls.{FailsAsDue};

use crate::fault::ToolFault;
use std::alloc::{AllocError, Allocator};
use ti_entry::{Draft, EncodeFault, Entry, encode};
use ti_words::Width;

/// The canonical bytes of a draft.
fn encoding_of<A: Allocator + Copy>(alloc: A, draft: &Draft<'_, A>) -> Result<Vec<u8, A>, ToolFault>
    ensures { MatchResult result
        (λ v. IsEncoding draft.now (Ok v.items))
        (FailsAsDue (IsEncoding draft.now)) }
{
    match encode(alloc, draft) {
        Ok(bytes) => Ok(bytes),
        Err(EncodeFault::Memory) => Err(ToolFault::Memory),
        Err(unfit) => Err(ToolFault::Encode(unfit)),
    }
}

/// A draft of an entry, in the width that is requested.
fn draft_of<'a, A: Allocator + Copy>(
    alloc: A,
    entry: &Entry<'a>,
    width: Option<Width>,
) -> Result<Draft<'a, A>, AllocError>
    ensures { IfOk result (λ draft. draft ≡ in_width width entry.now) }
{
    let mut draft = entry.draft(alloc)?;
    if let Some(width) = width {
        draft.set_width(width);
    }
    Ok(draft)
}

/// The canonical bytes of an entry, in the width that is requested or else in its own: each text in its place without
/// sharing, the extended part only if there is an extended capability. What tic writes is canonical already.
pub fn convert_result<A: Allocator + Copy>(
    alloc: A,
    entry: &Entry<'_>,
    width: Option<Width>,
) -> Result<Vec<u8, A>, ToolFault>
    ensures { MatchResult result
        (λ v. IsEncoding (in_width width entry.now) (Ok v.items))
        (FailsAsDue (IsEncoding (in_width width entry.now))) }
{
    let draft = draft_of(alloc, entry, width)?;
    encoding_of(alloc, &draft)
}
