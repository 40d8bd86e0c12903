//! What a text that is sent as it stands makes a terminal do, held against the table.

ghost use Rattle.std.specs.List.{flat_map};
ghost use Rattle.std.specs.Prelude.{◌≡◌, ◌∷◌, [], ◌++◌, IfOk, OnOk};
ghost use Rattle.ti_allow.specs.Harmless.{AreBeyond, IsSilent, PlainOnlyTable};
ghost use Rattle.ti_allow.specs.Plain.{doubled, doubled_byte};

use crate::allowed::ALLOWED;
use crate::beyond::{Found, beyond_table};
use std::alloc::{AllocError, Allocator};
use ti_cap::Capability;

/// Appends a byte as the token that writes it.
#[tactic(auto, unfolding(crate::specs::Plain::doubled_byte))]
fn push_doubled<A: Allocator>(bytes: &mut Vec<u8, A>, byte: u8) -> Result<(), AllocError>
    ensures { OnOk result (bytes.new.items ≡ bytes.old.items ++ doubled_byte byte) }
{
    bytes.push(byte)?;
    if byte == b'%' {
        bytes.push(byte)?;
    }
    Ok(())
}

/// Appends the tokens that write a text.
fn push_all<A: Allocator>(bytes: &mut Vec<u8, A>, text: &[u8]) -> Result<(), AllocError>
    ensures { OnOk result (bytes.new.items ≡ bytes.old.items ++ flat_map doubled_byte text.now) }
{
    'text: for byte in text {
        push_doubled(bytes, *byte)?;
    }
    Ok(())
}

/// The capability that writes a text: each `%` twice.
///
/// # Errors
///
/// Memory was refused.
pub fn doubled<A: Allocator>(alloc: A, text: &[u8]) -> Result<Vec<u8, A>, AllocError>
    ensures all { IfOk result (λ bytes. bytes.items ≡ doubled text.now) }
{
    let mut bytes = Vec::new(alloc);
    push_all(&mut bytes, text)?;
    Ok(bytes)
}

/// One thing that is found, alone.
fn lone<A: Allocator>(alloc: A, one: Found) -> Result<Vec<Found, A>, AllocError>
    ensures { IfOk result (λ found. found.items ≡ one ∷ []) }
{
    let mut found = Vec::new(alloc);
    found.push(one)?;
    Ok(found)
}

/// What a text can send, or do, that is not in the table for the string with the name, if it is sent as it stands: in each reading, by
/// `tputs` of ncurses or by `ti_pad`. If nothing is found, it keeps to the table. The places are those of the capability that writes
/// the text, in which each `%` stands twice: [`place_in_text`] leads back.
///
/// # Errors
///
/// Memory was refused.
pub fn plain_beyond_table<A: Allocator + Copy>(
    alloc: A,
    name: &[u8],
    text: &[u8],
) -> Result<Vec<Found, A>, AllocError>
    ensures only_table { IfOk result (λ found. IsSilent found.items → PlainOnlyTable ALLOWED name.now text.now) }
    ensures beyond { IfOk result (λ found. AreBeyond ALLOWED name.now found.items) }
{
    let bytes = doubled(alloc, text)?;
    match Capability::parse(bytes.as_slice()) {
        Ok(capability) => {
            let found = beyond_table(alloc, name, &capability)?;
            Ok(found)
        }
        Err(_) => lone(alloc, Found::NotTried),
    }
}

/// The place in a text of a token of the capability that writes it.
pub fn place_in_text(text: &[u8], place: usize) -> usize {
    let mut left = place;
    let mut index = 0usize;
    for byte in text {
        let width = if *byte == b'%' { 2 } else { 1 };
        if left < width {
            return index;
        }
        left -= width;
        index = index.saturating_add(1);
    }
    index
}
