//! Capabilities and texts that are as long or as deep as they may be, by both calls alike.

use super::expanded::{fault_of_slices, is_written};
use std::alloc::Global;
use ti_cap::Capability;
use ti_expand::{ExpandFault, Value, Vars, expand_into};
use ti_fixtures::Unfound;
use ti_fixtures::capabilities::{deep, nine};

const NUMBERS: [Value<'static>; 9] = [Value::Num(12); 9];

/// The longest capability: `%s` as often as it can be, and `x`.
fn longest() -> [u8; 32767] {
    let mut bytes = [b'x'; 32767];
    for i in 0..16383usize {
        bytes[2 * i] = b'%';
        bytes[2 * i + 1] = b's';
    }
    bytes
}

#[test]
fn the_longest_capability_is_expanded(rt: HostRuntime) {
    assert_that!(rt; is_written(rt.alloc(), &longest(), &NUMBERS, 0, b"x"));
}

/// The depth of a capability, and its bounds for texts of no bytes and for the longest.
fn sizes_of(bytes: &[u8]) -> Option<(usize, u64, u64)> {
    let capability = Capability::parse(bytes).ok()?;
    Some((
        capability.depth(),
        capability.bound(0),
        capability.bound(32767),
    ))
}

#[test]
fn texts_are_bounded_by_the_longest(rt: HostRuntime) {
    assert_that!(rt; sizes_of(&longest()) == Some((0, 1, 536821762)));
}

/// How many tokens of a capability run that writes one byte, and the byte.
fn ran_and_byte(bytes: &[u8]) -> Option<(usize, u8)> {
    let capability = Capability::parse(bytes).ok()?;
    let mut out = [0u8; 1];
    let run = expand_into(
        capability.tape(),
        &NUMBERS,
        &mut Vars::new(),
        &mut [],
        &mut out,
    );
    Some((run.ok()?.ran, out[0]))
}

#[test]
fn the_tokens_of_the_longest_capability_are_counted(rt: HostRuntime) {
    assert_that!(rt; ran_and_byte(&longest()) == Some((16384, b'x')));
}

#[test]
fn the_longest_text_is_written(rt: HostRuntime) {
    let text = [b'a'; 32767];
    let parameters = nine(&[Value::Text(&text)]);
    assert_that!(rt; is_written(rt.alloc(), b"%p1%s", &parameters, 32767, &text));
}

#[test]
fn the_longest_text_needs_its_room(rt: HostRuntime) {
    let text = [b'a'; 32767];
    let parameters = nine(&[Value::Text(&text)]);
    let (mut stack, mut out) = ([Value::Num(0); 1], [0u8; 32766]);
    let fault = fault_of_slices(
        b"%p1%s",
        &parameters,
        &mut Vars::new(),
        &mut stack,
        &mut out,
    );
    assert_that!(rt; fault == Some(ExpandFault::OutTooSmall { need: 32767 }));
}

/// The output of the deep capability for the number 12.
const DEEP_OUTPUT: &[u8] = b"12121212121212121212121212121212121212121212121212121212121212";

/// Whether the deep capability is as deep as it may be, and writes this.
fn is_deep(alloc: Global) -> Result<bool, Unfound> {
    let bytes = deep(alloc)?;
    let capability = Capability::parse(bytes.as_slice())?;
    let is_deepest = capability.depth() == 32 && capability.nest() == 32;
    let is_bounded = capability.bound(0) == 341;
    Ok(is_deepest && is_bounded && is_written(alloc, bytes.as_slice(), &NUMBERS, 0, DEEP_OUTPUT))
}

#[test]
fn a_deep_capability_is_analysed_and_expanded(rt: HostRuntime) {
    assert_that!(rt; is_deep(rt.alloc()).unwrap_or(false));
}
