//! The outputs of capabilities, into slices of exactly the promised size and as a vector.

use super::expanded::write_in_both_ways;
use crate::tests::check_rows;
use ti_expand::Value;
use ti_fixtures::capabilities::{
    COLORS, CONDITIONAL, FORMATS, OPERATIONS, SGR, STACK, TEXTS, values_of,
};
use ti_fixtures::{Finds, Given, Unfound};

/// The length of the longest text among the values.
fn longest_text(values: &[Value<'_>]) -> u16 {
    let mut longest = 0;
    for value in values {
        if let Value::Text(text) = value {
            longest = u16::try_from(text.len()).unwrap_or(u16::MAX).max(longest);
        }
    }
    longest
}

/// Returns the output of a capability, which is the same into exact slices and as a vector.
pub struct Written;

impl Finds for Written {
    fn find(&self, given: &Given<'_, '_>, found: &mut Vec<u8>) -> Result<(), Unfound> {
        let values = values_of(given.fields()[1]);
        write_in_both_ways(found, given.bytes, &values, longest_text(&values))
    }
}

#[test]
fn the_stack_is_as_terminfo_says(rt: HostRuntime) {
    check_rows(&rt, STACK, &Written);
}

#[test]
fn operations_are_as_terminfo_says(rt: HostRuntime) {
    check_rows(&rt, OPERATIONS, &Written);
}

#[test]
fn numbers_are_printed_as_terminfo_says(rt: HostRuntime) {
    check_rows(&rt, FORMATS, &Written);
}

#[test]
fn texts_are_printed_as_terminfo_says(rt: HostRuntime) {
    check_rows(&rt, TEXTS, &Written);
}

#[test]
fn conditionals_write_what_terminfo_says(rt: HostRuntime) {
    check_rows(&rt, CONDITIONAL, &Written);
}

#[test]
fn colors_are_what_tput_prints(rt: HostRuntime) {
    check_rows(&rt, COLORS, &Written);
}

#[test]
fn sgr_is_what_tput_prints(rt: HostRuntime) {
    check_rows(&rt, SGR, &Written);
}
