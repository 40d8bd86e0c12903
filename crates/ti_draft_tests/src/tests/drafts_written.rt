//! Drafts, and the bytes that they are written as.

use crate::tests::check_rows;
use std::alloc::{AllocError, Allocator, Global};
use std::str::from_utf8;
use ti_entry::{Draft, EncodeFault, Entry, encode, encoded_len, read};
use ti_fixtures::{Finds, Given, Said, Unfound, bytes_of, item_of};
use ti_words::{Flag, Number, Text, Width};

/// The entry that the bytes spell.
pub fn entry_of<'a>(bytes: &'a [u8]) -> Result<Entry<'a>, Unfound> {
    Ok(read(bytes)?)
}

/// Returns the bytes of a draft, of the length that is known before, or its fault.
pub fn written<A: Allocator>(alloc: Global, draft: &Draft<'_, A>) -> Result<Vec<u8>, Unfound> {
    match encode(alloc, draft) {
        Ok(bytes) if encoded_len(draft) == bytes.len() as u64 => Ok(bytes),
        Ok(_) => Err(Unfound),
        Err(fault) => Ok(fault.word().as_bytes().to_vec(alloc)?),
    }
}

/// Pushes an item without a name onto a list of terminfo(5): a flag, `#80`, `=text`, or `@` for an absent text.
fn push_standard<'a>(draft: &mut Draft<'a>, said: Said<'a>) -> Result<(), AllocError> {
    match said {
        Said::Yes => draft.push_flag(Flag::Yes),
        Said::Number(number) => draft.push_number(Number::Value(number)),
        Said::Text(text) => draft.push_text(Text::Value(text)),
        Said::Cancelled => draft.push_text(Text::Absent),
    }
}

/// Pushes an item with a name onto an extended list: `AX`, `U8#80`, `E3=text`, or `AX@`.
fn push_extended<'a>(
    draft: &mut Draft<'a>,
    name: &'a [u8],
    said: Said<'a>,
) -> Result<(), AllocError> {
    match said {
        Said::Yes => draft.push_extended_flag(name, Flag::Yes),
        Said::Number(number) => draft.push_extended_number(name, Number::Value(number)),
        Said::Text(text) => draft.push_extended_text(name, Text::Value(text)),
        Said::Cancelled => draft.push_extended_flag(name, Flag::Cancelled),
    }
}

/// Pushes an item of a row. The flag of terminfo(5) is `yes`.
fn push<'a>(draft: &mut Draft<'a>, item: &'a str) -> Result<(), AllocError> {
    let (name, said) = item_of(item);
    if name.is_empty() || item == "yes" {
        push_standard(draft, said)
    } else {
        push_extended(draft, name.as_bytes(), said)
    }
}

/// Pushes all items, and writes the draft.
fn written_with<'a>(
    alloc: Global,
    draft: &mut Draft<'a>,
    items: Option<&'a str>,
) -> Result<Vec<u8>, Unfound> {
    if let Some(items) = items {
        for item in items.split(" | ") {
            push(draft, item)?;
        }
    }
    written(alloc, &*draft)
}

/// Returns the bytes of a draft with these names and items.
fn written_as(
    alloc: Global,
    width: Width,
    names: &str,
    items: Option<&str>,
) -> Result<Vec<u8>, Unfound> {
    let mut draft = Draft::new(alloc, names.as_bytes(), width);
    written_with(alloc, &mut draft, items)
}

/// The same for those of a text.
fn written_from(alloc: Global, width: Width, text: &str) -> Result<Vec<u8>, Unfound> {
    match text.split_once(" | ") {
        Some((names, items)) => written_as(alloc, width, names, Some(items)),
        None => written_as(alloc, width, text, None),
    }
}

/// The same for those of a row, in a format.
struct WrittenIn(Width);

impl Finds for WrittenIn {
    fn find(&self, given: &Given<'_, '_>, found: &mut Vec<u8>) -> Result<(), Unfound> {
        let bytes = bytes_of(*found.allocator(), given.text)?;
        let text = from_utf8(bytes.as_slice())?;
        let written = written_from(*found.allocator(), self.0, text)?;
        Ok(found.extend_from_slice(written.as_slice())?)
    }
}

/// The names and the items of drafts, and the bytes that they are written as.
const WRITTEN: &str = r"
t | yes | #80 | @ | =^G => @SMALL
t | =^G | =^G => @APART
t | yes | #80 | @ | =^G^G => @ODD
t | yes | #80 | @ | =^G | AX | E3=\E[3J => @EXTENDED
t | U8#80 => ^Z^A^B\000\000\000\000\000\000\000\000\000t\000\000\000^A\000\000\000^A\000^C\000P\000\000\000U8\000
";

#[test]
fn drafts_are_written(rt: HostRuntime) {
    check_rows(&rt, WRITTEN, &WrittenIn(Width::Legacy));
}

/// The names and the items of drafts, and why they are not written. Of two faults it is the first.
const FAULTY: &str = r"
 => BadName
 | =a\000 => BadName
t | =a\000 => NulInText
t | #-5 | =a\000 => NulInText
t | #-5 => NumberOutOfRange
t | #32768 => NumberOutOfRange
";

#[test]
fn the_first_fault_of_a_draft_is_reported(rt: HostRuntime) {
    check_rows(&rt, FAULTY, &WrittenIn(Width::Legacy));
}

/// The same of the 32-bit format, in which no number is below 0 either.
const WIDE_NUMBERS: &str = r"
t | #2147483647 => ^^^B^B\000\000\000^A\000\000\000\000\000t\000\377\377\377^?
t | #2147483647 | #-5 => NumberOutOfRange
";

#[test]
fn wide_drafts_are_written(rt: HostRuntime) {
    check_rows(&rt, WIDE_NUMBERS, &WrittenIn(Width::Wide));
}

/// Whether a draft of 16000 texts of 699 bytes would be so long, and is not written since it is.
fn is_too_long(alloc: Global, draft: &mut Draft<'static>) -> Result<bool, AllocError> {
    const TEXT: &[u8] = &[b'a'; 699];
    for _ in 0..16000 {
        draft.push_text(Text::Value(TEXT))?;
    }
    let fault = encode(alloc, &*draft).err();
    Ok(encoded_len(&*draft) == 11_232_014 && fault == Some(EncodeFault::TooManyOrLong))
}

/// 16000 texts that are one slice.
#[test]
fn texts_that_are_not_shared_are_too_long(rt: HostRuntime) {
    let mut draft = Draft::new(rt.alloc(), b"t", Width::Legacy);
    let is_too_long = is_too_long(rt.alloc(), &mut draft).unwrap_or(false);
    assert_that!(rt; is_too_long);
}

/// Entries, and the bytes that their drafts are written as.
const AGAIN: &str = r"
@SMALL => @SMALL
@SHARED => @APART
@ODD => @ODD
@EXTENDED => @EXTENDED
@NO_CAPABILITY => @SMALL
# the example of term(5)
@ADM3A => @ADM3A
# the 32-bit format, with the number absent, cancelled and the greatest
@WIDE => @WIDE
^^^B^B\000^A\000^A\000^B\000^B\000t\000^A\000\377\377\377\377\377\377\000\000^G\000 => ^^^B^B\000^A\000^A\000^B\000^B\000t\000^A\000\377\377\377\377\377\377\000\000^G\000
^^^B^B\000^A\000^A\000^B\000^B\000t\000^A\000\376\377\377\377\377\377\000\000^G\000 => ^^^B^B\000^A\000^A\000^B\000^B\000t\000^A\000\376\377\377\377\377\377\000\000^G\000
^^^B^B\000^A\000^A\000^B\000^B\000t\000^A\000\377\377\377^?\377\377\000\000^G\000 => ^^^B^B\000^A\000^A\000^B\000^B\000t\000^A\000\377\377\377^?\377\377\000\000^G\000
@WIDE_EXTENDED => @WIDE_EXTENDED
";

/// Returns the bytes of a draft, if there is one.
fn written_if_given(
    alloc: Global,
    draft: &Result<Draft<'_>, AllocError>,
) -> Result<Vec<u8>, Unfound> {
    match draft {
        Ok(draft) => written(alloc, draft),
        Err(_) => Err(Unfound),
    }
}

/// Returns the bytes of the draft of an entry.
fn written_again(alloc: Global, bytes: &[u8]) -> Result<Vec<u8>, Unfound> {
    written_if_given(alloc, &entry_of(bytes)?.draft(alloc))
}

/// The bytes of the draft of the entry of a row.
struct WrittenAgain;

impl Finds for WrittenAgain {
    fn find(&self, given: &Given<'_, '_>, found: &mut Vec<u8>) -> Result<(), Unfound> {
        let written = written_again(*found.allocator(), given.bytes)?;
        Ok(found.extend_from_slice(written.as_slice())?)
    }
}

#[test]
fn entries_that_were_read_are_written(rt: HostRuntime) {
    check_rows(&rt, AGAIN, &WrittenAgain);
}
