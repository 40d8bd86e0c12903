//! The bytes of a capability, which are expanded in one call.

use crate::tests::check_rows;
use ti_cap::{CapFault, CapRefused};
use ti_expand::Value::Num;
use ti_expand::{BytesFault, ExpandFault, Vars, expand_bytes};
use ti_fixtures::capabilities::{nine, values_of};
use ti_fixtures::{Finds, Given, Unfound, show, show_numbers};

/// A capability with its first parameter, its output, how many tokens run and are passed over, and how high the stack gets.
const WHOLE: &str = r"
@SETAF | 200 => \E[38;5;200m 22 8 2
";

/// Returns the output of a capability, and the counts of its run.
struct RunOf;

impl Finds for RunOf {
    fn find(&self, given: &Given<'_, '_>, found: &mut Vec<u8>) -> Result<(), Unfound> {
        let mut out = [0xee; 32];
        let values = values_of(given.fields()[1]);
        let run = expand_bytes(given.bytes, &values, &mut Vars::new(), &mut out)?;
        found.extend_from_slice(out.get(..run.written).unwrap_or(b"too long"))?;
        found.push(b' ')?;
        show_numbers(found, &[run.ran as u64, run.passed as u64, run.peak as u64])
    }
}

#[test]
fn bytes_are_expanded(rt: HostRuntime) {
    check_rows(&rt, WHOLE, &RunOf);
}

#[test]
fn a_variable_lasts(rt: HostRuntime) {
    let mut vars = Vars::new();
    let is_run = expand_bytes(b"%p1%PA", &nine(&[Num(7)]), &mut vars, &mut []).is_ok();
    assert_that!(rt; is_run && vars.get(b'A') == Some(7));
}

/// Capabilities with the first of their parameters, and the length of their output: with a text, with no escape, with much
/// output, with many values and with many open conditionals.
const EXPANDED: &str = r"
%p1%s | a => 1
abc | - => 3
%p1%129d | - => 129
%p1%p1%p1%p1%p1%p1%d | - => 1
%?%p1%t%?%p1%t%?%p1%t%?%p1%t%?%p1%ta%;%;%;%;%; | 1 => 1
";

/// How many bytes a capability writes.
struct LengthOf;

impl Finds for LengthOf {
    fn find(&self, given: &Given<'_, '_>, found: &mut Vec<u8>) -> Result<(), Unfound> {
        let mut out = [0xee; 200];
        let values = values_of(given.fields()[1]);
        let run = expand_bytes(given.bytes, &values, &mut Vars::new(), &mut out)?;
        show(found, &run.written)
    }
}

#[test]
fn each_way_writes(rt: HostRuntime) {
    check_rows(&rt, EXPANDED, &LengthOf);
}

#[test]
fn a_fault_is_told(rt: HostRuntime) {
    let refused = CapRefused {
        fault: CapFault::BadParameter,
        place: 6,
    };
    let told = expand_bytes(b"a%p1%d%p0", &nine(&[]), &mut Vars::new(), &mut [0; 40]);
    assert_that!(rt; told == Err(BytesFault::Refused(refused)));
    let told = expand_bytes(b"abc", &nine(&[]), &mut Vars::new(), &mut [0; 2]);
    assert_that!(rt; told == Err(BytesFault::Failed(ExpandFault::OutTooSmall { need: 3 })));
}
