//! Entries that were read before, found again by their headers alone.
//!
//! A caller that keeps the bytes of an entry, and no reference, reads it once and keeps the base of its names beside them.

ghost use Rattle.std.specs.Prelude.{◌≡◌, IfErr, IfOk, IsOkAnd, IsSomeAnd, Some};
ghost use Rattle.ti_layout.specs.Refusal.{refusal};
ghost use Rattle.ti_words.specs.Value.{EntryValue};
ghost use Rattle.ti_words.specs.Spelling.{Spells};
ghost use Rattle.ti_entry.specs.Reading.{base_of_names};

use crate::entry::{Entry, entry_at, entry_of};
use crate::part_view::{PartView, part_view};
use ti_base::MOST_ENTRY_BYTES;
use ti_layout::{Part, Refused, Stage};

/// Reads an entry as [`read`](crate::read) does, and returns with it the base of its names, which [`reopen`] needs.
///
/// # Errors
///
/// Those of [`read`](crate::read).
pub fn read_with_base(bytes: &[u8]) -> Result<(Entry<'_>, usize), Refused>
    ensures found { IfOk result (λ r. Spells bytes.now r.0) }
    ensures only { (v : EntryValue) → Spells bytes.now v → IsOkAnd result (λ r. r.0 ≡ v) }
    ensures refused { IfErr result (λ r. refusal bytes.now ≡ Some r) }
    ensures base { IfOk result (λ r. r.1 ≡ base_of_names r.0) }
{
    let mut stage = Stage::new();
    stage.advance(bytes)?;
    let entry = entry_at(bytes, &stage)?;
    Ok((entry, stage.base()))
}

/// The entry in bytes that were read before and are unchanged since, with the base that [`read_with_base`] returned. Only its
/// headers are looked at, so this takes a few instructions.
///
/// Other bytes, or another base, give no entry, or one that they do not spell; what it lends still lies in them.
pub fn reopen(bytes: &[u8], base: usize) -> Option<Entry<'_>>
    ensures again { (v : EntryValue) → Spells bytes.now v → base ≡ base_of_names v
        → IsSomeAnd result (λ e. e ≡ v) }
{
    if base > MOST_ENTRY_BYTES {
        return None;
    }
    let standard = Part::standard_within(bytes)?;
    let extended = standard.extended_within(bytes)?;
    Some(entry_of(bytes, standard, extended, base))
}

/// The standard capabilities of the entry in bytes that were read before and are unchanged since. Only the standard header
/// is looked at, so this takes less than [`reopen`].
///
/// Other bytes give none, or some that they do not spell; what they lend still lies in them.
pub fn reopen_standard(bytes: &[u8]) -> Option<PartView<'_>>
    ensures again { (v : EntryValue) → Spells bytes.now v
        → IsSomeAnd result (λ standard. standard ≡ v.standard) }
{
    let standard = Part::standard_within(bytes)?;
    Some(part_view(bytes, standard))
}
