//! The memory that an expansion takes: once, and exactly as much as it needs.

use super::expanded::capability_of;
use crate::tests::check_rows;
use linked_list_allocator::LocalHeap;
use std::alloc::Global;
use ti_expand::{Value, Vars, expand};
use ti_fixtures::capabilities::nine;
use ti_fixtures::{Finds, Given, Unfound, only_if, place_of, show};

/// Numbers of bytes, and what a heap takes for them: units of 16. A heap of that size has room for one growth alone,
/// and a byte more or less than these would take another size at 16 and 17, or at 32 and 33.
const BLOCKS: &str = r"
1 => 16
15 => 16
16 => 16
17 => 32
32 => 32
33 => 48
";

/// Returns how much of a heap the expansion of a capability takes that writes this.
fn taken_of(
    heap: &LocalHeap,
    bytes: &[u8],
    first: Value<'_>,
    output: &[u8],
) -> Result<usize, Unfound> {
    let out = expand(
        heap,
        &capability_of(bytes)?,
        &nine(&[first]),
        &mut Vars::new(),
    )?;
    only_if(out.as_slice() == output)?;
    Ok(heap.used())
}

/// The same for a heap of exactly so many bytes.
fn taken(
    alloc: Global,
    bytes: &[u8],
    first: Value<'_>,
    output: &[u8],
    block: usize,
) -> Result<usize, Unfound> {
    let heap = LocalHeap::new(alloc, block)?;
    taken_of(&heap, bytes, first, output)
}

/// The memory that so many bytes take as a capability, and as much as a text.
struct TakenBy;

impl Finds for TakenBy {
    fn find(&self, given: &Given<'_, '_>, found: &mut Vec<u8>) -> Result<(), Unfound> {
        let long = place_of(given.text)?;
        let bytes = [b'a'; 48];
        let text = bytes.get(..long).ok_or("at most 48")?;
        let (alloc, block) = (*found.allocator(), long.saturating_add(15) / 16 * 16);
        let used = taken(alloc, text, Value::Num(12), text, block)?;
        let same = taken(alloc, b"%p1%s", Value::Text(text), text, block)?;
        show(found, &used)?;
        only_if(used == same)
    }
}

#[test]
fn expanding_takes_its_bound_at_once(rt: HostRuntime) {
    check_rows(&rt, BLOCKS, &TakenBy);
}

/// Capabilities, what they write for the number 12, and the memory that they take.
const TAKEN: &str = r"
%p1%d | 12 | 16 => 16
%?%{0}%t0123456789abcdef%ea%; | a | 16 => 16
%?%{0}%t0123456789abcdefg%ea%; | a | 32 => 32
";

/// The memory that a capability takes, if it writes what it should.
struct TakenForTwelve;

impl Finds for TakenForTwelve {
    fn find(&self, given: &Given<'_, '_>, found: &mut Vec<u8>) -> Result<(), Unfound> {
        let block = place_of(given.fields()[2])?;
        let alloc = *found.allocator();
        let used = taken(alloc, given.bytes, Value::Num(12), given.second, block)?;
        show(found, &used)
    }
}

#[test]
fn what_is_not_written_is_taken_with_the_rest(rt: HostRuntime) {
    check_rows(&rt, TAKEN, &TakenForTwelve);
}
