//! Renditions, control sequences such as `\E[1;7m`, and shifts, such as `\E(B`.

ghost use Rattle.std.specs.Prelude.{◌≡◌, ◌≤◌, ◌++◌, [], length, option_map, IfOk, OnOk};
ghost use Rattle.std.specs.List.{prefix_len};
ghost use Rattle.ti_values.specs.Renditions.{are_parts, introducer_len, is_separator, is_zero as the_is_zero, parameters, parameters_in, part_len, rendition_of, shift_in, shift_len, shifts, split_after, starts_designation, without_zeros};
ghost use Rattle.ti_values.specs.inner.Rows.{slices_of};

use crate::sequence::{parameter_len, past, starts_rendition};
use std::alloc::{AllocError, Allocator};

/// Whether a parameter byte separates two numbers: `;`, or another one that is no digit.
fn is_separator(byte: u8) -> bool
    ensures { result ≡ is_separator byte }
{
    byte < 0x30 || 0x39 < byte
}

/// How many zeros stand at the front.
fn zero_len(bytes: &[u8]) -> usize
    ensures count { result ≡ prefix_len the_is_zero bytes.now }
    ensures within { result ≤ length bytes.now }
{
    bytes.iter().take_while(|byte| **byte == b'0').count()
}

/// A parameter without the zeros in front, so that one that is left out is 0.
fn without_zeros(bytes: &[u8]) -> &[u8]
    ensures { result.now ≡ without_zeros bytes.now }
{
    &bytes[zero_len(bytes)..]
}

/// Adds the numbers that stand in parameter bytes, with a separator between them.
fn push_split<'a, A: Allocator>(
    list: &mut Vec<&'a [u8], A>,
    bytes: &'a [u8],
) -> Result<(), AllocError>
    ensures { OnOk result
        (slices_of list.new.items ≡ slices_of list.old.items ++ split_after [] bytes.now) }
{
    let mut start = 0;
    'bytes: for place in 0..bytes.len() {
        if !is_separator(bytes[place]) {
            continue;
        }
        list.push(without_zeros(&bytes[start..place]))?;
        start = place + 1;
    }
    list.push(without_zeros(&bytes[start..]))?;
    Ok(())
}

/// The length of what starts a control sequence, if bytes start with it: `\E[`, or the one byte of eight bits that means the same.
fn introducer_len(bytes: &[u8]) -> usize
    ensures exact { result ≡ introducer_len bytes.now }
    ensures within { result ≤ length bytes.now }
{
    if bytes.starts_with(b"\x1b[") {
        return 2;
    }
    if bytes.starts_with(b"\x9b") {
        return 1;
    }
    0
}

/// The parameter bytes of the rendition that bytes start with.
fn rendition_of(bytes: &[u8]) -> Option<&[u8]>
    ensures { option_map (λ parameters. parameters.now) result ≡ rendition_of bytes.now }
{
    let start = introducer_len(bytes);
    if start == 0 {
        return None;
    }
    let rest = &bytes[start..];
    let len = parameter_len(rest);
    if starts_rendition(&rest[len..]) {
        return Some(&rest[..len]);
    }
    None
}

/// Adds the parameters of the rendition that bytes start with.
fn push_parameters<'a, A: Allocator>(
    list: &mut Vec<&'a [u8], A>,
    bytes: &'a [u8],
) -> Result<(), AllocError>
    ensures { OnOk result (slices_of list.new.items
        ≡ slices_of list.old.items ++ parameters_in (rendition_of bytes.now)) }
{
    match rendition_of(bytes) {
        Some(parameters) => push_split(list, parameters),
        None => Ok(()),
    }
}

/// The parameters of all renditions in some bytes.
///
/// # Errors
///
/// Memory was refused.
pub fn parameters_of<A: Allocator>(alloc: A, bytes: &[u8]) -> Result<Vec<&[u8], A>, AllocError>
    ensures { IfOk result (λ list. slices_of list.items ≡ parameters bytes.now) }
{
    let mut list = Vec::new(alloc);
    'bytes: for place in 0..bytes.len() {
        push_parameters(&mut list, &bytes[place..])?;
    }
    Ok(list)
}

/// Whether bytes start with two that choose a set of characters, after an escape.
fn starts_designation(bytes: &[u8]) -> bool
    ensures { result ≡ starts_designation bytes.now }
{
    match bytes {
        [set, last, ..] => {
            let is_set = 0x28 <= *set && *set <= 0x2f;
            is_set && 0x30 <= *last && *last <= 0x7e
        }
        [_] => false,
        [] => false,
    }
}

/// The length of the shift that bytes start with, 0 if they start with none.
fn shift_len(bytes: &[u8]) -> usize
    ensures exact { result ≡ shift_len bytes.now }
    ensures within { result ≤ length bytes.now }
{
    match bytes {
        [0x0e, ..] => 1,
        [0x0f, ..] => 1,
        [0x1b, rest @ ..] => {
            if starts_designation(rest) {
                return 3;
            }
            0
        }
        [..] => 0,
    }
}

/// Adds the shift that bytes start with.
fn push_shift<'a, A: Allocator>(
    list: &mut Vec<&'a [u8], A>,
    bytes: &'a [u8],
) -> Result<(), AllocError>
    ensures { OnOk result (slices_of list.new.items
        ≡ slices_of list.old.items ++ shift_in (shift_len bytes.now) bytes.now) }
{
    let len = shift_len(bytes);
    if len > 0 {
        list.push(&bytes[..len])?;
    }
    Ok(())
}

/// All shifts in some bytes.
///
/// # Errors
///
/// Memory was refused.
pub fn shifts_of<A: Allocator>(alloc: A, bytes: &[u8]) -> Result<Vec<&[u8], A>, AllocError>
    ensures { IfOk result (λ list. slices_of list.items ≡ shifts bytes.now) }
{
    let mut list = Vec::new(alloc);
    'bytes: for place in 0..bytes.len() {
        push_shift(&mut list, &bytes[place..])?;
    }
    Ok(list)
}

/// The length of the rendition or the shift that bytes start with, 0 if they start with neither.
fn part_len(bytes: &[u8]) -> usize
    ensures { result ≡ part_len bytes.now }
{
    match rendition_of(bytes) {
        Some(parameters) => introducer_len(bytes) + parameters.len() + 1,
        None => shift_len(bytes),
    }
}

/// Whether bytes are renditions and shifts alone.
pub fn are_parts(bytes: &[u8]) -> bool
    ensures { result ≡ are_parts bytes.now }
{
    let mut rest = bytes;
    'parts: while !rest.is_empty() {
        let len = part_len(rest);
        if len == 0 {
            return false;
        }
        rest = past(rest, len);
    }
    true
}
