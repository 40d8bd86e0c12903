//! Attributes that `sgr` lacks, and numbers below 0 that are printed.

use crate::tests::check_rows;
use std::alloc::Global;
use ti_cap::Capability;
use ti_fixtures::{Finds, Given, Unfound, show, show_debug};
use ti_values::{Range, first_combination, first_negative, is_different, sent_for, values_of};

/// The `sgr` of an entry, and the first set of attributes for which it lacks what one of them adds.
const LACKING: &str = r"
# `sgr` of ofcons, without a `;` before the 2 of dim and the 8 of invisible. Underline and dim, 2 + 16: it sends 42 in place of 4
# and 2.
\2330%?%p6%t;1%;%?%p2%t;4%;%?%p4%t;5%;%?%p5%t2%;%?%p7%t8%;%?%p1%p3%|%t;7%;m => Some(18)
";

/// The first set for which a text lacks what an attribute adds.
fn first_lacking(alloc: Global, text: &[u8]) -> Result<Option<usize>, Unfound> {
    let sgr = Capability::parse(text)?;
    let sets = values_of(alloc, Range::Attributes)?;
    let sent = sent_for(alloc, &sgr, sets.as_slice())?;
    Ok(first_combination(alloc, sent.as_slice())?)
}

/// The same for the text of a row.
struct FirstLacking;

impl Finds for FirstLacking {
    fn find(&self, given: &Given<'_, '_>, found: &mut Vec<u8>) -> Result<(), Unfound> {
        show_debug(found, &first_lacking(*found.allocator(), given.bytes)?)
    }
}

#[test]
fn a_set_lacks_what_an_attribute_adds(rt: HostRuntime) {
    check_rows(&rt, LACKING, &FirstLacking);
}

/// `sgr` of d410, without a `;` after the 7 of standout.
const D410: &[u8] =
    b"\x1b[%?%p1%t2;7%;%?%p3%t7;%;%?%p4%t5;%;%?%p2%t4;%;%?%p1%p5%|%t2;%;%?%p6%t4;7;%;m\x1b)%?%p9%t6\x0e%e4\x0f%;";

/// A set of one attribute, what the attribute alone sends, and whether the text differs.
const ALONE: &str = r"
\E[2;7m$<5> | 1 => true
\E[4m | 2 => false
";

/// Whether what the text sends for a set differs from what an attribute alone does.
fn is_other_than(alloc: Global, set: u16, alone: &[u8]) -> Result<bool, Unfound> {
    let sgr = Capability::parse(D410)?;
    let sets = values_of(alloc, Range::Attributes)?;
    let sent = sent_for(alloc, &sgr, sets.as_slice())?;
    Ok(is_different(alloc, sent.as_slice(), set, alone)?)
}

/// The same for a row.
struct Differs;

impl Finds for Differs {
    fn find(&self, given: &Given<'_, '_>, found: &mut Vec<u8>) -> Result<(), Unfound> {
        let set = given.fields()[1].parse::<u16>()?;
        show(found, &is_other_than(*found.allocator(), set, given.bytes)?)
    }
}

#[test]
fn standout_alone_differs(rt: HostRuntime) {
    check_rows(&rt, ALONE, &Differs);
}

/// Texts for counts from 1 to 6, and the place of the first for which a number below 0 is printed.
const NEGATIVE: &str = r"
# The third count is 3, and 2 less 3 is below 0.
%?%p1%{9}%<%t%{2}%p1%-%d%; => Some(2)
";

/// The place of the first count for which a text prints a number below 0.
struct FirstNegative;

impl Finds for FirstNegative {
    fn find(&self, given: &Given<'_, '_>, found: &mut Vec<u8>) -> Result<(), Unfound> {
        let cub = Capability::parse(given.bytes)?;
        let counts = values_of(*found.allocator(), Range::Numbers(1, 6))?;
        let first = first_negative(*found.allocator(), &cub, counts.as_slice())?;
        show_debug(found, &first)
    }
}

#[test]
fn a_number_below_0_is_printed(rt: HostRuntime) {
    check_rows(&rt, NEGATIVE, &FirstNegative);
}
