//! The memory that padding takes: once, and exactly as much as it needs.

use super::padding_rows::padding_of;
use crate::tests::check_rows;
use linked_list_allocator::LocalHeap;
use ti_fixtures::{Finds, Given, Tries, Unfound, place_of, show_numbers, tally_of};
use ti_pad::{PadFault, pad};

/// Texts with the size of a heap, the length of what they are padded to, and the memory that it takes.
const TAKEN: &str = r"
$<1> | 16 => 1 16
$<15> | 16 => 15 16
$<16> | 16 => 16 16
$<17> | 32 => 17 32
abc$<29> | 32 => 32 32
abc$<15>d$<15> | 48 => 34 48
abc | 16 => 3 16
";

/// The length of a padded text, and the memory that it takes of a heap.
fn length_and_taken(heap: &LocalHeap, text: &[u8]) -> Result<[u64; 2], Unfound> {
    let padded = pad(heap, text, &padding_of(1000, 1, false)?)?;
    Ok([padded.len() as u64, heap.used() as u64])
}

/// The same for a heap of the size of a row.
struct TakenBy;

impl Finds for TakenBy {
    fn find(&self, given: &Given<'_, '_>, found: &mut Vec<u8>) -> Result<(), Unfound> {
        let heap = LocalHeap::new(*found.allocator(), place_of(given.fields()[1])?)?;
        show_numbers(found, &length_and_taken(&heap, given.bytes)?)
    }
}

#[test]
fn padding_takes_its_length_at_once(rt: HostRuntime) {
    check_rows(&rt, TAKEN, &TakenBy);
}

/// Pads a text to 99 bytes.
struct Padded;

impl Tries for Padded {
    fn is_given(&self, heap: &LocalHeap) -> Result<bool, Unfound> {
        let padded = pad(heap, b"\x1b[H$<50*/>", &padding_of(960, 2, false)?);
        match &padded {
            Ok(text) if text.len() == 99 => Ok(true),
            Err(PadFault::Memory) => Ok(false),
            _ => Err(Unfound),
        }
    }
}

#[test]
fn padding_takes_its_memory_at_once(rt: HostRuntime) {
    assert_that!(rt; tally_of(rt.alloc(), &Padded, 0, 8, 40).is_refused_then_given(4));
}
