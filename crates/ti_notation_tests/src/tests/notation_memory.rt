//! A notation that is read while memory is short.

use linked_list_allocator::LocalHeap;
use std::alloc::Global;
use ti_escape::{ReadingFault, push_reading};
use ti_fixtures::Unfound;

/// Whether a growth past the memory of a heap is refused, and keeps what was held.
fn is_kept(made: &mut Vec<u8, &LocalHeap>) -> bool {
    let is_refused = push_reading(made, &[b'a'; 64]) == Err(ReadingFault::Memory);
    is_refused && made.as_slice() == b"= ".as_slice()
}

/// The same for a heap of 16 bytes.
fn is_kept_in_16(alloc: Global) -> Result<bool, Unfound> {
    let heap = LocalHeap::new(alloc, 16)?;
    let mut made = Vec::from_slice(&heap, b"= ")?;
    Ok(is_kept(&mut made))
}

#[test]
fn a_refused_growth_keeps_what_was_held(rt: HostRuntime) {
    assert_that!(rt; is_kept_in_16(rt.alloc()).unwrap_or(false));
}
