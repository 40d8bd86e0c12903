//! The parameters that capabilities name, and those that they take as texts.

use super::expanded::capability_of;
use crate::tests::check_rows;
use ti_cap::ParameterSet;
use ti_fixtures::{Finds, Given, Unfound, number_of, show, show_numbers};

/// Capabilities with the masks of the parameters that they name and that they take as texts. Bit 0 is parameter 1.
const PARAMETERS: &str = r"
- => 0 0
@CUP => 3 0
@SETAF => 1 0
\E]52;%p1%s;%p2%s^G => 3 3
%p1%s => 1 1
%p1%d => 1 0
%p2%l%d%p2%s => 2 2
%p1%p2%d%s => 3 1
%?%p1%t%p2%e%p3%;%s => 7 6
%?%p1%t%p2%;%p3%d%s => 7 2
%p1%Pa%ga%s => 1 0
%p9%{1}%+%s%s => 256 0
%s%p4 => 8 0
%?%p1%tA%e%p5%tB%e%p6%l%d => 49 32
";

/// The masks of a capability.
struct MasksOf;

impl Finds for MasksOf {
    fn find(&self, given: &Given<'_, '_>, found: &mut Vec<u8>) -> Result<(), Unfound> {
        let parameters = capability_of(given.bytes)?.parameters();
        show_numbers(
            found,
            &[parameters.named.mask as u64, parameters.texts.mask as u64],
        )
    }
}

#[test]
fn parameters_are_those_of_all_paths(rt: HostRuntime) {
    check_rows(&rt, PARAMETERS, &MasksOf);
}

/// Numbers, and whether the set of 2 and 9 has them.
const CONTAINED: &str = r"
2 => true
9 => true
1 => false
0 => false
17 => false
";

/// Whether the set has a number.
struct IsContained;

impl Finds for IsContained {
    fn find(&self, given: &Given<'_, '_>, found: &mut Vec<u8>) -> Result<(), Unfound> {
        let set = ParameterSet {
            mask: 0b1_0000_0010,
        };
        show(found, &set.contains(u8::try_from(number_of(given.text)?)?))
    }
}

#[test]
fn a_set_contains_what_its_bits_say(rt: HostRuntime) {
    check_rows(&rt, CONTAINED, &IsContained);
}
