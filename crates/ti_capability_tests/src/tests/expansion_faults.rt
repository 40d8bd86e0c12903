//! The refusals of an expansion: by both calls alike, and without a change.

use super::expanded::{fault_of_slices, fault_of_vector};
use crate::tests::check_rows;
use std::alloc::Global;
use ti_cap::Capability;
use ti_expand::{ExpandFault, Value, Vars, expand};
use ti_fixtures::capabilities::{CUP, SETAF, nine};
use ti_fixtures::{Finds, Given, Unfound, are_shown, only_if, place_of, show};

/// Faults, and their messages.
const MESSAGES: &[(ExpandFault, &str)] = &[
    (ExpandFault::TextTooLong { parameter: 2 }, "TextTooLong 2"),
    (ExpandFault::StackTooSmall { need: 1 }, "StackTooSmall 1"),
    (ExpandFault::OutTooSmall { need: 26 }, "OutTooSmall 26"),
    (ExpandFault::Memory, "Memory"),
];

#[test]
fn messages_of_expansions_are_names_and_numbers(rt: HostRuntime) {
    assert_that!(rt; are_shown(rt.alloc(), MESSAGES));
}

/// Capabilities with the length of a text that is their second parameter, if it is none, for how many values and for how many
/// bytes there is room, and why they are not expanded.
const REFUSED: &str = r"
@CUP | 32768 | 1 | 26 => TextTooLong 2
# which is found before the room
@CUP | 32768 | 1 | 25 => TextTooLong 2
@CUP | - | 0 | 25 => StackTooSmall 1
@CUP | - | 1 | 25 => OutTooSmall 26
@CUP | - | 0 | 26 => StackTooSmall 1
# a text needs its room each time
%p1%s%p2%s | 32767 | 1 | 26 => OutTooSmall 65534
";

/// A text of so many bytes, or the number 9.
fn second_of<'a>(text: &'a [u8], length: &str) -> Value<'a> {
    match text.get(..place_of(length).unwrap_or(usize::MAX)) {
        Some(text) => Value::Text(text),
        None => Value::Num(9),
    }
}

/// Adds why a capability is not expanded with room for so many values and bytes, which changes neither the variables nor what
/// was in the room.
fn show_fault<'a>(
    found: &mut Vec<u8>,
    bytes: &'a [u8],
    second: Value<'a>,
    (values, room): (usize, usize),
) -> Result<(), Unfound> {
    let parameters = nine(&[Value::Num(4), second]);
    let (mut vars, mut stack, mut out) = (Vars::new(), [Value::Num(3); 1], [0xee; 26]);
    let is_set = vars.set(b'A', 7);
    let values = stack.get_mut(..values).ok_or("values")?;
    let room = out.get_mut(..room).ok_or("room")?;
    let fault = fault_of_slices(bytes, &parameters, &mut vars, values, room);
    show(found, &fault.ok_or("expanded")?)?;
    only_if(is_set && vars.get(b'A') == Some(7) && out == [0xee; 26])
}

/// The same for a row.
struct FaultOfSlices;

impl Finds for FaultOfSlices {
    fn find(&self, given: &Given<'_, '_>, found: &mut Vec<u8>) -> Result<(), Unfound> {
        let [_, second, values, room, ..] = given.fields();
        let text = [b'a'; 32768];
        let sizes = (place_of(values)?, place_of(room)?);
        show_fault(found, given.bytes, second_of(&text, second), sizes)
    }
}

#[test]
fn what_is_refused_in_slices_changes_nothing(rt: HostRuntime) {
    check_rows(&rt, REFUSED, &FaultOfSlices);
}

#[test]
fn a_text_that_is_too_long_changes_nothing_in_a_vector(rt: HostRuntime) {
    let long = [b'a'; 32768];
    let parameters = nine(&[Value::Num(12), Value::Text(&long)]);
    let mut vars = Vars::new();
    let is_set = vars.set(b'A', 7);
    let fault = fault_of_vector(rt.alloc(), CUP, &parameters, &mut vars);
    assert_that!(rt; fault == Some(ExpandFault::TextTooLong { parameter: 2 }));
    assert_that!(rt; is_set && vars.get(b'A') == Some(7));
}

/// Whether a front of a real capability is refused, or is expanded whatever its parameters are.
fn is_refused_or_expanded(alloc: Global, front: &[u8]) -> bool {
    let Ok(capability) = Capability::parse(front) else {
        return true;
    };
    let mut is_each = true;
    for number in [0, 1, 9, 200] {
        let parameters = [Value::Num(number); 9];
        is_each &= expand(alloc, &capability, &parameters, &mut Vars::new()).is_ok();
    }
    is_each
}

#[test]
fn each_front_of_a_capability_is_refused_or_expanded(rt: HostRuntime) {
    for len in 0..SETAF.len() {
        assert_that!(rt; is_refused_or_expanded(rt.alloc(), &SETAF[..len]));
    }
    assert_that!(rt; Capability::parse(SETAF).is_ok());
}
