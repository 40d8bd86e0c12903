//! Which bytes are no capability, and where they are at fault.

use crate::tests::check_rows;
use ti_cap::{CapFault, CapRefused, Capability};
use ti_fixtures::{Finds, Given, Unfound, only_if, place_of, show};

/// Bytes that are no capability for an escape that is none, with the fault and its place.
const ESCAPES: &str = r"
%q => UnknownEscape at 0
%{} => BadConstant at 0
%{2147483648 => BadConstant at 0
%{12 => CutShort at 0
%p1%256d => BadFormat at 3
%300 => BadFormat at 0
%30 => CutShort at 0
%p0 => BadParameter at 0
%P1 => BadVariable at 0
ab% => CutShort at 2
%'ab => BadConstant at 0
%{2147483648} => BadConstant at 0
%''%d => BadConstant at 0
%:% => BadFormat at 0
\E[?%[;0123456789]c => UnknownEscape at 3
";

/// The same for escapes that no tree writes, or that climb or nest too high.
const TREES: &str = r"
%t => StrayThen at 0
%e => StrayElse at 0
%; => StrayEnd at 0
%?x%; => NoThen at 3
%?%p1 => NoThen at 5
%?%?%?%?%?%?%?%?%?%?%?%?%?%?%?%?%?%?%?%?%?%?%?%?%?%?%?%?%?%?%?%?%? => NestTooDeep at 64
%p1%p1%p1%p1%p1%p1%p1%p1%p1%p1%p1%p1%p1%p1%p1%p1%p1%p1%p1%p1%p1%p1%p1%p1%p1%p1%p1%p1%p1%p1%p1%p1%p1 => StackTooDeep at 96
%?%p1%tA%eB%eC%; => StrayElse at 11
%?%p1%t%p2%t%; => StrayThen at 10
%?%?%p1%tA => NoThen at 10
%?%p1%t%p1%p1%p1%p1%p1%p1%p1%p1%p1%p1%p1%p1%p1%p1%p1%p1%p1%p1%p1%p1%p1%p1%p1%p1%p1%p1%p1%p1%p1%p1%p1%p1%e%p1%p1%p1%p1%p1%p1%p1%p1%p1%p1%p1%p1%p1%p1%p1%p1%p1%p1%p1%p1%p1%p1%p1%p1%p1%p1%p1%p1%p1%p1%p1%p1%;%p1 => StackTooDeep at 203
";

/// The fault of bytes, and its place.
struct RefusalOf;

impl Finds for RefusalOf {
    fn find(&self, given: &Given<'_, '_>, found: &mut Vec<u8>) -> Result<(), Unfound> {
        let refused = Capability::parse(given.bytes).err().ok_or("accepted")?;
        show(found, &refused)
    }
}

#[test]
fn faults_of_escapes_stand_where_they_are(rt: HostRuntime) {
    check_rows(&rt, ESCAPES, &RefusalOf);
}

#[test]
fn faults_of_trees_stand_where_they_are(rt: HostRuntime) {
    check_rows(&rt, TREES, &RefusalOf);
}

#[test]
fn too_long_comes_before_all_else(rt: HostRuntime) {
    let bytes = [b'%'; 32768];
    let refused = CapRefused {
        fault: CapFault::TooLong,
        place: 32767,
    };
    assert_that!(rt; Capability::parse(&bytes).err() == Some(refused));
    assert_that!(rt; Capability::parse(&bytes[..32766]).is_ok());
}

const FAULTS: &[CapFault] = &[
    CapFault::TooLong,
    CapFault::CutShort,
    CapFault::UnknownEscape,
    CapFault::BadParameter,
    CapFault::BadVariable,
    CapFault::BadConstant,
    CapFault::BadFormat,
    CapFault::StrayThen,
    CapFault::StrayElse,
    CapFault::StrayEnd,
    CapFault::NoThen,
    CapFault::NestTooDeep,
    CapFault::StackTooDeep,
];

/// The words of faults, in the order of the faults.
const WORDS: &str = r"
0 => TooLong
1 => CutShort
2 => UnknownEscape
3 => BadParameter
4 => BadVariable
5 => BadConstant
6 => BadFormat
7 => StrayThen
8 => StrayElse
9 => StrayEnd
10 => NoThen
11 => NestTooDeep
12 => StackTooDeep
";

/// The word of the fault at a place, which the fault is shown as.
struct WordAt;

impl Finds for WordAt {
    fn find(&self, given: &Given<'_, '_>, found: &mut Vec<u8>) -> Result<(), Unfound> {
        let fault = FAULTS.get(place_of(given.text)?).ok_or("a fault")?;
        show(found, fault)?;
        only_if(found.as_slice() == fault.word().as_bytes())
    }
}

#[test]
fn faults_of_capabilities_are_shown_as_their_words(rt: HostRuntime) {
    check_rows(&rt, WORDS, &WordAt);
}
