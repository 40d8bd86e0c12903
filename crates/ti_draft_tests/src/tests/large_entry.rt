//! A large real entry through each call of the library that takes memory, if there is enough of it.

use super::drafts_written::{entry_of, written};
use std::alloc::{AllocError, Global};
use ti_cap::Capability;
use ti_entry::{Draft, Entry, Extended, encoded_len};
use ti_expand::{Value, Vars, expand};
use ti_fixtures::capabilities::nine;
use ti_fixtures::{TMUX, Unfound};
use ti_pad::{Padding, pad, padded_len};
use ti_words::{Kind, Text};

/// Pushes the capabilities of terminfo(5) item by item.
fn push_standard<'a>(draft: &mut Draft<'a>, entry: &Entry<'a>) -> Result<(), Unfound> {
    for i in 0..entry.flag_count() {
        draft.push_flag(entry.flag(i))?;
    }
    for i in 0..entry.number_count() {
        draft.push_number(entry.number(i))?;
    }
    for i in 0..entry.text_count() {
        draft.push_text(entry.text(i))?;
    }
    Ok(())
}

/// Pushes an extended part item by item.
fn push_extended<'a>(draft: &mut Draft<'a>, extended: &Extended<'a>) -> Result<(), AllocError> {
    for i in 0..extended.flag_count() {
        draft.push_extended_flag(extended.name_or_empty(Kind::Flag, i), extended.flag(i))?;
    }
    for i in 0..extended.number_count() {
        draft.push_extended_number(extended.name_or_empty(Kind::Number, i), extended.number(i))?;
    }
    for i in 0..extended.text_count() {
        draft.push_extended_text(extended.name_or_empty(Kind::Text, i), extended.text(i))?;
    }
    Ok(())
}

/// Whether a draft is written as tic wrote the entry.
fn is_tmux(alloc: Global, draft: &Draft<'_>) -> Result<bool, Unfound> {
    let bytes = written(alloc, draft)?;
    Ok(encoded_len(draft) == 3171 && bytes.as_slice() == TMUX)
}

/// Whether the draft of the entry, if there is one, is written as tic wrote it.
fn is_drafted(alloc: Global, draft: &Result<Draft<'_>, AllocError>) -> bool {
    match draft {
        Ok(draft) => is_tmux(alloc, draft).unwrap_or(false),
        Err(_) => false,
    }
}

/// Whether the draft of the large entry is written as it was.
fn is_drafted_and_written(alloc: Global) -> bool {
    match entry_of(TMUX) {
        Ok(entry) => is_drafted(alloc, &entry.draft(alloc)),
        Err(_) => false,
    }
}

/// An entry by tic is canonical, so it is written again as it was.
#[test]
fn a_large_entry_is_drafted_and_written(rt: HostRuntime) {
    assert_that!(rt; is_drafted_and_written(rt.alloc()));
}

/// Whether the entry that is pushed item by item is written as it was.
fn is_pushed<'a>(alloc: Global, draft: &mut Draft<'a>, entry: &Entry<'a>) -> Result<bool, Unfound> {
    push_standard(draft, entry)?;
    push_extended(draft, &entry.extended())?;
    is_tmux(alloc, &*draft)
}

/// The same for the large entry.
fn is_pushed_and_written(alloc: Global) -> Result<bool, Unfound> {
    let entry = entry_of(TMUX)?;
    let mut draft = Draft::new(alloc, entry.names(), entry.width());
    is_pushed(alloc, &mut draft, &entry)
}

#[test]
fn a_large_entry_is_pushed_and_written(rt: HostRuntime) {
    assert_that!(rt; is_pushed_and_written(rt.alloc()).unwrap_or(false));
}

/// Whether a text is a capability, is expanded, and is padded to the length that is known before.
fn is_expanded(alloc: Global, text: &[u8], padding: &Padding) -> Result<bool, Unfound> {
    let capability = Capability::parse(text)?;
    let parameters = nine(&[Value::Num(23), Value::Num(79)]);
    let out = expand(alloc, &capability, &parameters, &mut Vars::new())?;
    let padded = pad(alloc, out.as_slice(), padding)?;
    Ok(padded.len() as u128 == padded_len(out.as_slice(), padding))
}

/// How many texts an entry has that are expanded and padded.
fn texts_expanded(alloc: Global, entry: &Entry<'_>) -> Result<u32, Unfound> {
    let padding = Padding::new(960, 1, false, 0).ok_or("padding")?;
    let mut count = 0u32;
    for i in 0..entry.text_count() {
        match entry.text(i) {
            Text::Value(text) if is_expanded(alloc, text, &padding)? => count =
                count.saturating_add(1),
            _ => {}
        }
    }
    Ok(count)
}

/// How many texts of the large entry are expanded and padded.
fn texts_of_tmux_expanded(alloc: Global) -> Result<u32, Unfound> {
    texts_expanded(alloc, &entry_of(TMUX)?)
}

/// infocmp lists 230 texts, of which 68 are of the extended part.
#[test]
fn all_texts_of_a_large_entry_are_expanded(rt: HostRuntime) {
    assert_that!(rt; texts_of_tmux_expanded(rt.alloc()).unwrap_or(0) == 162);
}
