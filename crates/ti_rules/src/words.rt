//! A function of a terminal in words, as its sources write it: `CSI ?1049h`, `OSC 52`, `ESC c`.
//!
//! A number that is not known, or too large for any list, is a `*`.

use itoa::Buffer;
use std::alloc::{AllocError, Allocator};
use ti_parser::{Function, FunctionKind, FunctionNumber, Intermediates};

/// The introducer of a function, by its name.
fn introducer(kind: FunctionKind) -> &'static [u8] {
    match kind {
        FunctionKind::Control => b"",
        FunctionKind::Escape => b"ESC ",
        FunctionKind::Sequence => b"CSI ",
        FunctionKind::Device => b"DCS ",
        FunctionKind::System => b"OSC ",
        FunctionKind::Start => b"SOS ",
        FunctionKind::Privacy => b"PM ",
        FunctionKind::Application => b"APC ",
        FunctionKind::Title => b"ESC k ",
    }
}

/// Appends a byte, if there is one.
fn push_byte<A: Allocator>(out: &mut Vec<u8, A>, byte: Option<u8>) -> Result<(), AllocError> {
    match byte {
        Some(byte) => {
            out.push(byte)?;
            Ok(())
        }
        None => Ok(()),
    }
}

/// Appends a number.
fn push_number<A: Allocator>(
    out: &mut Vec<u8, A>,
    number: FunctionNumber,
) -> Result<(), AllocError> {
    match number {
        FunctionNumber::Absent => Ok(()),
        FunctionNumber::Known(number) => {
            let mut digits = Buffer::new();
            out.extend_from_slice(digits.format(number).as_bytes())
        }
        FunctionNumber::Large | FunctionNumber::Any => {
            out.push(b'*')?;
            Ok(())
        }
    }
}

/// Appends numbers, with a `;` between two.
fn push_numbers<A: Allocator>(
    out: &mut Vec<u8, A>,
    numbers: &[FunctionNumber],
) -> Result<(), AllocError> {
    let mut first = true;
    for number in numbers {
        if !first {
            out.push(b';')?;
        }
        first = false;
        push_number(out, *number)?;
    }
    Ok(())
}

/// Appends intermediate bytes.
fn push_intermediates<A: Allocator>(
    out: &mut Vec<u8, A>,
    intermediates: Intermediates,
) -> Result<(), AllocError> {
    match intermediates {
        Intermediates::Empty => Ok(()),
        Intermediates::Single(one) => {
            out.push(one)?;
            Ok(())
        }
        Intermediates::Pair(one, two) => {
            out.push(one)?;
            out.push(two)?;
            Ok(())
        }
        Intermediates::Many => out.extend_from_slice(b".."),
    }
}

/// The words for a function.
pub fn words_of<A: Allocator>(alloc: A, function: &Function) -> Result<Vec<u8, A>, AllocError> {
    let mut out = Vec::new(alloc);
    out.extend_from_slice(introducer(function.kind))?;
    push_byte(&mut out, function.marker)?;
    // Those of `ESC ] P` are the digits of a color.
    if function.kind != FunctionKind::System || function.letter.is_none() {
        push_numbers(&mut out, function.numbers.as_slice())?;
    }
    push_intermediates(&mut out, function.intermediates)?;
    push_byte(&mut out, function.letter)?;
    if function.asks && function.letter != Some(b'?') {
        out.extend_from_slice(b";?")?;
    }
    // Nothing came after the introducer.
    if out.last() == Some(&b' ') {
        out.pop();
    }
    Ok(out)
}
