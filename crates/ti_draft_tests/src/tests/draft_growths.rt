//! Drafts and encoding with each growth refused in turn: heaps with room for the first growths alone.

use super::drafts_written::{entry_of, written};
use linked_list_allocator::LocalHeap;
use std::alloc::{AllocError, Allocator, Global};
use ti_entry::{Draft, EncodeFault, Entry, encode};
use ti_fixtures::entries::EXTENDED;
use ti_fixtures::{Tally, Tries, Unfound, tally_of};
use ti_words::{Flag, Number, Text, Width};

/// The push of a number below 6.
fn push<A: Allocator>(draft: &mut Draft<'_, A>, which: usize) -> Result<(), AllocError> {
    match which {
        0 => draft.push_flag(Flag::Yes),
        1 => draft.push_number(Number::Value(80)),
        2 => draft.push_text(Text::Value(b"\x07")),
        3 => draft.push_extended_flag(b"AX", Flag::Cancelled),
        4 => draft.push_extended_number(b"U8", Number::Absent),
        _ => draft.push_extended_text(b"E3", Text::Value(b"\x1b[3J")),
    }
}

/// How many of 18 pushes onto a draft are made, three of each kind. Those alone are made onto another draft, so that both are
/// written alike after each push.
fn pushes_made<A: Allocator>(
    alloc: Global,
    draft: &mut Draft<'_, A>,
    same: &mut Draft<'_>,
) -> Result<u32, Unfound> {
    let mut made = 0u32;
    for turn in 0..18usize {
        if push(draft, turn % 6).is_ok() {
            push(same, turn % 6)?;
            made = made.saturating_add(1);
        }
        if written(alloc, &*draft)?.as_slice() != written(alloc, &*same)?.as_slice() {
            return Err(Unfound);
        }
    }
    Ok(made)
}

/// The same for a draft in a heap.
fn pushes_made_in(alloc: Global, heap: &LocalHeap) -> Result<u32, Unfound> {
    let mut draft = Draft::new(heap, b"t", Width::Legacy);
    let mut same = Draft::new(alloc, b"t", Width::Legacy);
    pushes_made(alloc, &mut draft, &mut same)
}

/// The same for a heap with so much memory, all of which it has back then.
fn pushes_made_within(alloc: Global, memory: usize) -> Result<u32, Unfound> {
    let heap = LocalHeap::new(alloc, memory)?;
    let made = pushes_made_in(alloc, &heap);
    if heap.used() == 0 { made } else { Err(Unfound) }
}

/// How many pushes are made in 48 heaps, each of which has 24 bytes more than the one before it.
fn pushes_made_in_all(alloc: Global) -> Result<u32, Unfound> {
    let mut made = 0u32;
    for step in 0..48usize {
        made = made.saturating_add(pushes_made_within(alloc, 24 * step)?);
    }
    Ok(made)
}

/// A refused push leaves the draft as one that was not made. Of 864 pushes more than 100 are made, and more than 100 refused.
#[test]
fn refused_pushes_change_nothing(rt: HostRuntime) {
    let made = pushes_made_in_all(rt.alloc()).unwrap_or(0);
    assert_that!(rt; made > 100 && made < 764);
}

/// Whether there is a draft, which has to be written as the extended entry.
fn is_draft_given<A: Allocator>(
    alloc: Global,
    draft: &Result<Draft<'_, A>, AllocError>,
) -> Result<bool, Unfound> {
    match draft {
        Ok(draft) if written(alloc, draft)?.as_slice() == EXTENDED => Ok(true),
        Ok(_) => Err(Unfound),
        Err(_) => Ok(false),
    }
}

/// Makes a draft of the extended entry.
#[derive(Drop)]
struct Drafted(Global);

impl Tries for Drafted {
    fn is_given(&self, heap: &LocalHeap) -> Result<bool, Unfound> {
        is_draft_given(self.0, &entry_of(EXTENDED)?.draft(heap))
    }
}

/// A draft of an entry is given whole or not at all, and the heap has all of its memory back.
#[test]
fn refused_drafts_of_an_entry(rt: HostRuntime) {
    let tally = tally_of(rt.alloc(), &Drafted(rt.alloc()), 0, 16, 48);
    assert_that!(rt; tally.is_refused_then_given(4));
}

/// Whether there are bytes, which have to be those of the extended entry in memory of their length.
fn are_given<A: Allocator>(bytes: &Result<Vec<u8, A>, EncodeFault>) -> Result<bool, Unfound> {
    match bytes {
        Ok(bytes) if bytes.as_slice() == EXTENDED && bytes.capacity() == EXTENDED.len() => Ok(true),
        Err(EncodeFault::Memory) => Ok(false),
        _ => Err(Unfound),
    }
}

/// Encodes a draft, if there is one.
#[derive(Drop)]
struct Encoded<'d, 'a>(&'d Result<Draft<'a>, AllocError>);

impl Tries for Encoded<'_, '_> {
    fn is_given(&self, heap: &LocalHeap) -> Result<bool, Unfound> {
        match self.0 {
            Ok(draft) => are_given(&encode(heap, draft)),
            Err(_) => Err(Unfound),
        }
    }
}

/// The draft of the extended entry, if it is read.
fn extended_draft(alloc: Global) -> Result<Draft<'static>, AllocError> {
    match entry_of(EXTENDED) {
        Ok(entry) => entry.draft(alloc),
        Err(_) => Err(AllocError),
    }
}

/// The tries to encode a draft.
fn encodings(alloc: Global, draft: &Result<Draft<'_>, AllocError>) -> Tally {
    tally_of(alloc, &Encoded(draft), 0, 8, 24)
}

/// Encoding grows once, to the length of the bytes.
#[test]
fn refused_encoding(rt: HostRuntime) {
    let draft = extended_draft(rt.alloc());
    assert_that!(rt; encodings(rt.alloc(), &draft).is_refused_then_given(4));
}
