//! How much memory a draft and its bytes take: each list grows once, to its size.

use super::drafts_written::entry_of;
use crate::tests::check_rows;
use linked_list_allocator::LocalHeap;
use std::alloc::{AllocError, Allocator, Global};
use std::mem::size_of;
use ti_entry::{Draft, EncodeFault, Entry, encode};
use ti_fixtures::{Finds, Given, TMUX, Unfound, bytes_of, show_debug};
use ti_words::{Flag, Number, Text};

/// The bytes that a heap gives for so many.
fn block(bytes: usize) -> usize {
    bytes.saturating_add(15) / 16 * 16
}

/// The size of a capability of a kind in a draft, with its name if it is of an extended part.
fn size_named(kind: &str) -> usize {
    if kind == "flag" {
        size_of::<Flag>()
    } else if kind == "number" {
        size_of::<Number>()
    } else {
        size_of::<Text<'static>>()
    }
}

/// The memory of lists of 33 items of these kinds.
fn memory_of(kinds: &str) -> usize {
    let mut memory = 0usize;
    for kind in kinds.split(' ') {
        memory = memory.saturating_add(block(size_named(kind).saturating_mul(33)));
    }
    memory
}

/// The bytes of parts with blanks between them. One that starts with `33*` comes 33 times.
fn repeated(alloc: Global, parts: &str) -> Result<Vec<u8>, Unfound> {
    let mut bytes = Vec::new(alloc);
    for part in parts.split(' ') {
        let (times, part) = match part.strip_prefix("33*") {
            Some(part) => (33, part),
            None => (1, part),
        };
        let part = bytes_of(alloc, part)?;
        for _ in 0..times {
            bytes.extend_from_slice(part.as_slice())?;
        }
    }
    Ok(bytes)
}

/// Entries of 33 capabilities of one kind, and the lists of their drafts. Those of an extended part have the name `a`, which
/// is a text.
const ALIKE: &str = r"
flag | ^Z^A^B\000!\000\000\000\000\000\000\000t\000 33*^A \000 => (true, false)
number | ^Z^A^B\000\000\000!\000\000\000\000\000t\000 33*P\000 => (true, false)
text | ^Z^A^B\000\000\000\000\000!\000^B\000t\000 33*\000\000 a\000 => (true, false)
text flag | ^Z^A^B\000\000\000\000\000\000\000\000\000t\000 !\000\000\000\000\000!\000^B\000 33*^A \000 33*\000\000 a\000 => (true, false)
text number | ^Z^A^B\000\000\000\000\000\000\000\000\000t\000 \000\000!\000\000\000!\000^B\000 33*P\000 33*\000\000 a\000 => (true, false)
text text | ^Z^A^B\000\000\000\000\000\000\000\000\000t\000 \000\000\000\000!\000!\000^B\000 33*\377\377 33*\000\000 a\000 => (true, false)
";

/// Whether a draft is made of an entry with so much memory, all of which it then holds.
fn is_drafted(alloc: Global, entry: &Entry<'_>, memory: usize) -> Result<bool, Unfound> {
    let heap = LocalHeap::new(alloc, memory)?;
    let draft = entry.draft(&heap);
    let (is_made, used) = (draft.is_ok(), heap.used());
    drop(draft);
    if is_made && used != memory {
        Err(Unfound)
    } else {
        Ok(is_made)
    }
}

/// Whether a draft of an entry is made with exactly so much memory, and with less.
fn drafted_within(alloc: Global, bytes: &[u8], memory: usize) -> Result<(bool, bool), Unfound> {
    let entry = entry_of(bytes)?;
    let is_made = is_drafted(alloc, &entry, memory)?;
    let is_made_of_less = is_drafted(alloc, &entry, memory.saturating_sub(16))?;
    Ok((is_made, is_made_of_less))
}

/// The same for a row, with the memory of its lists.
struct DraftedIn;

impl Finds for DraftedIn {
    fn find(&self, given: &Given<'_, '_>, found: &mut Vec<u8>) -> Result<(), Unfound> {
        let (kinds, parts) = given.text.split_once(" | ").ok_or("parts")?;
        let bytes = repeated(*found.allocator(), parts)?;
        let memory = memory_of(kinds);
        show_debug(
            found,
            &drafted_within(*found.allocator(), bytes.as_slice(), memory)?,
        )
    }
}

/// With exactly the memory of its lists, a list can grow only once, and to its size.
#[test]
fn each_list_of_a_draft_grows_once(rt: HostRuntime) {
    check_rows(&rt, ALIKE, &DraftedIn);
}

/// Whether bytes are those of a large entry, in memory of their length.
fn is_tmux<A: Allocator>(bytes: &Result<Vec<u8, A>, EncodeFault>) -> bool {
    match bytes {
        Ok(bytes) => bytes.as_slice() == TMUX && bytes.capacity() == TMUX.len(),
        Err(_) => false,
    }
}

/// Whether a draft is written as a large entry with so much memory, none of which is left over, or refused for the memory.
fn is_written(alloc: Global, draft: &Draft<'_>, memory: usize) -> Result<bool, Unfound> {
    let heap = LocalHeap::new(alloc, memory)?;
    let bytes = encode(&heap, draft);
    let is_refused = matches!(bytes, Err(EncodeFault::Memory));
    if is_refused || is_tmux(&bytes) {
        Ok(!is_refused)
    } else {
        Err(Unfound)
    }
}

/// Whether the same holds with exactly its length, and it is not written with less.
fn is_written_in_length(alloc: Global, draft: &Result<Draft<'_>, AllocError>) -> bool {
    let memory = block(TMUX.len());
    let less = memory.saturating_sub(16);
    match draft {
        Ok(draft) => {
            is_written(alloc, draft, memory).unwrap_or(false)
                && !is_written(alloc, draft, less).unwrap_or(true)
        }
        Err(_) => false,
    }
}

/// Whether the same holds for the draft of the large entry.
fn is_tmux_written_in_length(alloc: Global) -> bool {
    match entry_of(TMUX) {
        Ok(entry) => is_written_in_length(alloc, &entry.draft(alloc)),
        Err(_) => false,
    }
}

#[test]
fn the_bytes_of_a_draft_grow_once(rt: HostRuntime) {
    assert_that!(rt; is_tmux_written_in_length(rt.alloc()));
}
