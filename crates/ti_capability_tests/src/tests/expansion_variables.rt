//! Variables, which last while they are shared.

use super::expanded::{capability_of, into_vector, write_in_slices};
use linked_list_allocator::LocalHeap;
use std::alloc::Global;
use ti_expand::{ExpandFault, Value, Vars, expand};
use ti_fixtures::Unfound;

const NUMBERS: [Value<'static>; 9] = [Value::Num(12); 9];

/// Sets A to 12, and writes its square.
const SETS: &[u8] = b"%p1%PA%gA%gA%*%d";

/// Writes A.
const WRITES: &[u8] = b"%gA%d";

/// Whether a capability writes this in slices.
fn is_in_slices(alloc: Global, bytes: &[u8], vars: &mut Vars, output: &[u8]) -> bool {
    let mut out = Vec::new(alloc);
    write_in_slices(&mut out, bytes, &NUMBERS, 0, vars).is_ok() && out.as_slice() == output
}

#[test]
fn variables_last_in_slices(rt: HostRuntime) {
    let (alloc, mut vars) = (rt.alloc(), Vars::new());
    assert_that!(rt; is_in_slices(alloc, SETS, &mut vars, b"144"));
    assert_that!(rt; is_in_slices(alloc, WRITES, &mut vars, b"12"));
    assert_that!(rt; is_in_slices(alloc, WRITES, &mut Vars::new(), b"0"));
}

/// Whether a capability writes this into a vector.
fn is_in_vector(
    alloc: Global,
    bytes: &[u8],
    vars: &mut Vars,
    output: &[u8],
) -> Result<bool, Unfound> {
    Ok(into_vector(alloc, bytes, &NUMBERS, vars)?.as_slice() == output)
}

#[test]
fn variables_last_in_vectors(rt: HostRuntime) {
    let (alloc, mut vars) = (rt.alloc(), Vars::new());
    assert_that!(rt; is_in_vector(alloc, SETS, &mut vars, b"144").unwrap_or(false));
    assert_that!(rt; is_in_vector(alloc, WRITES, &mut vars, b"12").unwrap_or(false));
    assert_that!(rt; is_in_vector(alloc, WRITES, &mut Vars::new(), b"0").unwrap_or(false));
}

/// Whether an expansion that is wider than the heap is refused for the memory.
fn is_refused(heap: &LocalHeap, vars: &mut Vars) -> Result<bool, Unfound> {
    let wide = capability_of(b"%p1%PA%gA%255d")?;
    Ok(matches!(
        expand(heap, &wide, &NUMBERS, vars),
        Err(ExpandFault::Memory)
    ))
}

/// The same for a heap of 64 bytes.
fn is_refused_in_64(alloc: Global, vars: &mut Vars) -> Result<bool, Unfound> {
    let heap = LocalHeap::new(alloc, 64)?;
    is_refused(&heap, vars)
}

#[test]
fn expanding_without_memory_keeps_the_variables(rt: HostRuntime) {
    let (alloc, mut vars) = (rt.alloc(), Vars::new());
    let is_refused = is_refused_in_64(alloc, &mut vars).unwrap_or(false);
    assert_that!(rt; is_refused && vars.get(b'A') == Some(0));
    let is_set = is_in_vector(alloc, SETS, &mut vars, b"144").unwrap_or(false);
    assert_that!(rt; is_set && vars.get(b'A') == Some(12));
}
