//! Findings on tokens of capabilities on some of their paths, or by their conditionals: rows worked by hand.

use crate::tests::check_rows;
use TokenFinding::{
    ConstantCondition, DeadStore, LateIncrement, NoEffect, OperandType, ParameterRange,
    RepeatedCondition, RepeatedIncrement, StackResidue, StackUnderflow, TermcapParameter,
    UnsetVariable, UnusedIncrement,
};
use ti_cap::Capability;
use ti_fixtures::{Finds, Given, Unfound, number_of, show, show_debug};
use ti_lint::{
    Expected, PlacedFinding, TextParameters, TokenFinding, Variables, findings_of, text_parameters,
};

/// A capability, how many parameters it has, the mask of the variables that texts of its entry store, and what is wrong, each
/// finding after the number of bytes before its token.
const ROWS: &str = r"
- | 0 | 0 => -
\E[%i%p1%d;%p2%dH | 2 | 0 => -
# Texts of termcap, in the entries ibm8514 and tek4207-s.
\Ej\EYI%+ \Eo | 1 | 0 => 5 termcap-parameter 5 stack-residue
\E[;%i%df | 1 | 0 => 3 %i-unused 5 termcap-parameter
%{1}%+%d | 0 | 0 => 4 termcap-parameter
%?%t%; | 0 | 0 => 2 termcap-parameter
# The stack is empty on some path, or on all.
%p1%d%d | 1 | 0 => 5 stack-underflow
%p1%+ | 1 | 0 => 3 stack-underflow 3 stack-residue
%p1%!%d | 1 | 0 => -
%?%p1%t%p1%;%d | 1 | 0 => 12 stack-underflow
%?%p1%tA%e%d | 1 | 0 => 10 stack-underflow
%p1%?%p2%t%d%;%d | 2 | 0 => 14 stack-underflow
%?%p1%t%p1%e%p2%;%d | 2 | 0 => -
%?%p1%t%p1%e%p2%t%p2%;%d | 2 | 0 => 22 stack-underflow
# `mrcup` of ncr160vppp has two parameters.
%p3%{32}%+%c | 2 | 0 => 0 parameter-range
%p2%d | 2 | 0 => -
# `csr` of vt100-s, and branches.
\E[%i%i%p1%d;%p2%dr | 2 | 0 => 4 %i-repeated
%?%p1%t%i%;%i%p1%d | 1 | 0 => 7 %i-late 11 %i-repeated 11 %i-late
%?%p1%t%i%e%i%; | 1 | 0 => 7 %i-unused 11 %i-unused
%i%i%i%p2%d | 2 | 0 => 2 %i-repeated 4 %i-repeated
# What ti(1) says of `%i`, and what it writes in place of a finding.
%p1%d;%i%p2%d | 2 | 0 => 6 %i-late
%i%p1%d | 1 | 0 => -
%p1%' '%+%c | 1 | 0 => -
# `setf` of qnx loads `b` before a text stored it; only A to Z keep what another text stored.
\E@%p1%Pf%gb%gf%d%d | 1 | 0 => 8 unset-variable
%?%p1%t%p2%Pa%;%ga%d | 2 | 0 => 15 unset-variable
%?%gD%t2;%;%p1%d | 1 | 0 => 2 unset-variable
%?%gD%t2;%;%p1%d | 1 | 8 => -
%ga%d | 0 | 18446744073709551615 => 0 unset-variable
%p1%PA%gA%gZ%+%d | 1 | 0 => 9 unset-variable
# A value is left on some path; the end closes an open conditional.
%p1%p2%d | 2 | 0 => 0 stack-residue
%p1%l | 1 | 0 => 3 operand-type 3 stack-residue
%?%p1%t%p2%; | 2 | 0 => 7 stack-residue
%p1%?%p2%t%d%e%; | 2 | 0 => 0 stack-residue
%p1%?%p2%t%d%e%c%; | 2 | 0 => -
%p1%?%p2%t%d | 2 | 0 => 0 stack-residue
%p1%?%p2%t%?%p3%t%d%e%c%;%e%d%; | 3 | 0 => -
%p1%?%p2%t%d%e%?%p3%t%d%;%; | 3 | 0 => 0 stack-residue
# The third parameter has no 1 added; the first two have it only after the `%i`, whatever comes before.
%i%p3%d | 3 | 0 => 0 %i-unused
%p1%d%i%p3%d | 3 | 0 => 5 %i-unused
%?%p1%t%i%e%p2%d%; | 2 | 0 => 7 %i-unused
%?%p3%t%i%;%p2%d | 3 | 0 => -
%p1%d%i%p2%d | 2 | 0 => 5 %i-late
%?%p3%t%p1%d%;%i%?%p3%t%p1%d%; | 3 | 0 => 14 %i-late
%p3%d%i%p1%d | 3 | 0 => -
# A variable from A to Z is kept for other texts.
%p1%Pa | 1 | 0 => 3 dead-store
%p1%PA | 1 | 0 => -
%p1%Pa%?%p2%t%ga%d%; | 2 | 0 => -
%?%p1%t%p2%Pa%e%ga%d%; | 2 | 0 => 10 dead-store 15 unset-variable
%p1%Pz%gz%d%p1%Pz | 1 | 0 => 14 dead-store
# A conditional without bodies; a test that writes, stores or leaves a value has an effect.
%?%p1%t%; | 1 | 0 => 0 no-effect
%?%p1%t%e%p2%t%e%; | 2 | 0 => 0 no-effect
%?%p1%t | 1 | 0 => 0 no-effect
%?%p1%t%e%p2%tA%; | 2 | 0 => -
%?%p1%t%eA%; | 1 | 0 => -
%?A%p1%t%; | 1 | 0 => -
%?%p1%PA%gA%t%; | 1 | 0 => -
%?%p1%p2%t%;%d | 2 | 0 => -
%p1%?%t%; | 1 | 0 => -
%?%p1%t%?%p2%t%;%; | 2 | 0 => 7 no-effect
# A test of constants; one that a test takes from before it decides too, but is none.
%?%{1}%tA%; | 0 | 0 => 6 constant-condition
%?%{1}%{2}%=%!%tA%e%{0}%tB%; | 0 | 0 => 14 constant-condition 23 constant-condition
%?%{1}%t%; | 0 | 0 => 0 no-effect 6 constant-condition
%?%p1%{1}%-%tA%; | 1 | 0 => -
%{1}%?%tA%; | 0 | 0 => -
%{1}%?%{1}%=%tA%; | 0 | 0 => -
# The test of an earlier arm, and not that of a conditional in it or around it.
%?%p1%tA%e%p1%tB%; | 1 | 0 => 8 repeated-condition
%?%p1%t..%e%p1%t..%; | 1 | 0 => 9 repeated-condition
%?%p1%tA%e%p2%t%?%p1%tB%;%e%p1%tC%; | 2 | 0 => 25 repeated-condition
%?%p1%t%?%p1%tA%;%; | 1 | 0 => -
%?%p1%t%?%p2%tA%e%p1%tB%;%; | 2 | 0 => -
%?%p1%tA%e%p1%!%tB%; | 1 | 0 => -
%?%p1%tA%;%?%p2%tB%e%p1%tC%; | 2 | 0 => -
%?%p1%tA%e%p1%;%d | 1 | 0 => 15 stack-underflow
";

/// Adds findings with their places.
fn show_findings(found: &mut Vec<u8>, findings: &[PlacedFinding]) -> Result<(), Unfound> {
    for PlacedFinding { place, finding } in findings {
        if !found.is_empty() {
            found.push(b' ')?;
        }
        show(found, place)?;
        found.push(b' ')?;
        found.extend_from_slice(finding.word().as_bytes())?;
    }
    Ok(())
}

/// The findings on the capability of a row.
struct FindingsIn;

impl Finds for FindingsIn {
    fn find(&self, given: &Given<'_, '_>, found: &mut Vec<u8>) -> Result<(), Unfound> {
        let [_, parameters, mask, ..] = given.fields();
        let expected = Expected {
            parameters: parameters.parse::<u8>()?,
            texts: TextParameters::NONE,
            stored: Variables {
                mask: number_of(mask)?,
            },
        };
        let capability = Capability::parse(given.bytes)?;
        let findings = findings_of(*found.allocator(), &capability, expected)?;
        show_findings(found, findings.as_slice())
    }
}

#[test]
fn findings_hold_on_some_path(rt: HostRuntime) {
    check_rows(&rt, ROWS, &FindingsIn);
}

/// The name of a capability with two parameters, the capability, and where it takes a value of the other kind.
const KINDS: &str = r"
# The second parameter of `pfkey` is a text, and the first one a number.
pfkey | %p1%d%p2%s => -
pfkey | %p1%s%p2%d => 3 8
pfkey | %p1%d%p2%l%d => -
pfkey | %p2%l%s => 5
cup | %p1%s => 3
cup | %{1}%l%d => 4
cup | %p1%PA%gA%s => 9
# Either operand, a test, and a store.
pfkey | %p1%p2%+%d => 6
pfkey | %p2%p1%+%d => 6
pfkey | %?%p2%t%; => 5
pfkey | %p2%PA%p1%d => 3
# On some path the kind is right; what the empty stack lacks is told instead.
pfkey | %?%p1%t%p1%e%p2%;%d => -
pfkey | %?%p1%t%p2%e%p2%;%d => 17
pfkey | %?%p1%t%p2%;%d => -
";

/// Adds the places of the findings on operands.
fn show_places(found: &mut Vec<u8>, findings: &[PlacedFinding]) -> Result<(), Unfound> {
    for PlacedFinding { place, finding } in findings {
        if *finding == OperandType {
            if !found.is_empty() {
                found.push(b' ')?;
            }
            show(found, place)?;
        }
    }
    Ok(())
}

/// Where the capability of a row takes a value of the other kind.
struct PlacesIn;

impl Finds for PlacesIn {
    fn find(&self, given: &Given<'_, '_>, found: &mut Vec<u8>) -> Result<(), Unfound> {
        let expected = Expected {
            parameters: 2,
            texts: text_parameters(given.bytes),
            stored: Variables::NONE,
        };
        let capability = Capability::parse(given.second)?;
        let findings = findings_of(*found.allocator(), &capability, expected)?;
        show_places(found, findings.as_slice())
    }
}

#[test]
fn values_are_of_the_kind_that_is_taken(rt: HostRuntime) {
    check_rows(&rt, KINDS, &PlacesIn);
}

/// Names, and which of their first three parameters are texts.
const PARAMETERS: &str = r"
pfxl => (false, true, true)
Ms => (true, true, false)
cup => (false, false, false)
";

/// Which parameters of a name are texts.
struct AreTexts;

impl Finds for AreTexts {
    fn find(&self, given: &Given<'_, '_>, found: &mut Vec<u8>) -> Result<(), Unfound> {
        let texts = text_parameters(given.bytes);
        show_debug(found, &(texts.first, texts.second, texts.third))
    }
}

#[test]
fn some_parameters_are_texts(rt: HostRuntime) {
    check_rows(&rt, PARAMETERS, &AreTexts);
}

/// The findings, and their words.
const WORDS: &[(TokenFinding, &'static str)] = &[
    (StackUnderflow, "stack-underflow"),
    (ParameterRange, "parameter-range"),
    (RepeatedIncrement, "%i-repeated"),
    (UnsetVariable, "unset-variable"),
    (StackResidue, "stack-residue"),
    (UnusedIncrement, "%i-unused"),
    (LateIncrement, "%i-late"),
    (DeadStore, "dead-store"),
    (OperandType, "operand-type"),
    (NoEffect, "no-effect"),
    (ConstantCondition, "constant-condition"),
    (RepeatedCondition, "repeated-condition"),
    (TermcapParameter, "termcap-parameter"),
];

/// The first word that is not the one of its finding.
fn first_other(words: &[(TokenFinding, &'static str)]) -> &'static str {
    for (finding, word) in words {
        if finding.word() != *word {
            return *word;
        }
    }
    ""
}

#[test]
fn each_finding_has_a_word(rt: HostRuntime) {
    assert_that!(rt; first_other(WORDS).is_empty());
}

/// Letters and other characters, and whether the set of `D` and `z` has them.
const CONTAINED: &str = r"
D => true
z => true
d => false
@ => false
{ => false
";

/// Whether the set has a character.
struct IsContained;

impl Finds for IsContained {
    fn find(&self, given: &Given<'_, '_>, found: &mut Vec<u8>) -> Result<(), Unfound> {
        let set = Variables {
            mask: 1 << 3 | 1 << 57,
        };
        let letter = *given.bytes.first().ok_or("a letter")?;
        show(found, &set.contains(letter))
    }
}

#[test]
fn a_set_has_the_letters_of_its_bits(rt: HostRuntime) {
    check_rows(&rt, CONTAINED, &IsContained);
}
