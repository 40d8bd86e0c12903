//! Entries as bytes that are read again as what they are made of.
//!
//! The bytes are those that `ti_draft` writes; it knows nothing of reading, so the round trip is said here.

ghost use Rattle.std.specs.Prelude.{◌≡◌, Ok, IfOk, IfErr};
ghost use Rattle.ti_draft.specs.EncodeFaults.{IsEncodingOf, IsEncodeFault};
ghost use Rattle.ti_entry.specs.Reading.{answer_for};

use std::alloc::Allocator;
use ti_draft::{Draft, EncodeFault};

/// The bytes of the entry that a draft is (term(5)), which [`read`](crate::read) returns with that entry.
///
/// Counts are those of the draft. The texts stand in their tables in order, each with its NUL, without sharing and
/// without gaps. An extended part is written if there is an extended capability. Memory is taken once, for exactly
/// the bytes.
///
/// # Errors
///
/// The first that holds of: `BadName`, `NulInText`, `NumberOutOfRange`, `TooManyOrLong`, and then `Memory` if memory
/// was refused.
pub fn encode<A: Allocator + Copy, D: Allocator>(
    alloc: A,
    draft: &Draft<'_, D>,
) -> Result<Vec<u8, A>, EncodeFault>
    ensures encoded { IfOk result (λ bytes. IsEncodingOf draft.now bytes.items) }
    // The round trip: `read` of them returns the draft's entry.
    ensures reads { IfOk result (λ bytes. answer_for bytes.items ≡ Ok draft.now) }
    ensures refused { IfErr result (λ fault. IsEncodeFault draft.now fault) }
{
    ti_draft::encode(alloc, draft)
}
