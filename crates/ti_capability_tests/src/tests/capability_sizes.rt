//! Depths, bounds and nesting of capabilities.

use super::expanded::capability_of;
use crate::tests::check_rows;
use ti_fixtures::{Finds, Given, Unfound, only_if, show_numbers};

/// Capabilities with their depth, their bound for texts of no bytes, and how deep their conditionals nest.
const SIZES: &str = r"
\E[%p1%dG => 1 14 0
%{65}%d%% => 1 12 0
%p1%p2%d%d => 2 22 0
%d => 0 11 0
@CUP => 1 26 0
@SETAF => 2 19 1
- => 0 0 0
%?%p1%t%?%p2%tA%eB%;%eC => 1 1 2
%?%p1%t%'%'%c%%e%eX%; => 1 3 1
\E[%i%d;%dR => 0 26 0
%?%p1%tabc%ed%; => 1 3 1
@PUSHED_32 => 32 0 0
%p1%PA%gA%gA%*%d => 2 11 0
%d%p1%d => 1 22 0
%p1%05.3d => 1 11 0
%?%p1%tA%e%p2%tB => 1 1 1
@INNER_PARTS => 1 3 2
@OPEN_32 => 1 1 32
@CLOSED_32 => 1 1 32
";

/// The same, of which another path gives the depth or the bound than the first. In the last, a part has 32 values on the stack,
/// and an otherwise part as many.
const GREATEST: &str = r"
%?%p1%t%p1%p2%e%p3%;%p4 => 3 0 1
%?%p1%t%p1%p2%;%d%d%d%p1 => 2 33 1
%?%p1%t%p1%p1%p1%p1%p1%p1%p1%p1%p1%p1%p1%p1%p1%p1%p1%p1%p1%p1%p1%p1%p1%p1%p1%p1%p1%p1%p1%p1%p1%p1%p1%p1%e%p1%p1%p1%p1%p1%p1%p1%p1%p1%p1%p1%p1%p1%p1%p1%p1%p1%p1%p1%p1%p1%p1%p1%p1%p1%p1%p1%p1%p1%p1%p1%p1%; => 32 0 1
";

/// The sizes of a capability, whose length is that of its bytes.
struct SizesOf;

impl Finds for SizesOf {
    fn find(&self, given: &Given<'_, '_>, found: &mut Vec<u8>) -> Result<(), Unfound> {
        let capability = capability_of(given.bytes)?;
        let depth = capability.depth() as u64;
        let nest = capability.nest() as u64;
        show_numbers(found, &[depth, capability.bound(0), nest])?;
        only_if(capability.len() == given.bytes.len())
    }
}

#[test]
fn sizes_are_those_of_the_greatest_path(rt: HostRuntime) {
    check_rows(&rt, SIZES, &SizesOf);
}

#[test]
fn the_greatest_path_decides(rt: HostRuntime) {
    check_rows(&rt, GREATEST, &SizesOf);
}
