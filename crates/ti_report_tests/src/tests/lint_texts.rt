//! The classes of the texts in terminfo(5), and which capabilities store variables and leave out parameters.

use crate::tests::check_rows;
use ti_cap::{CapFault, Capability, Token};
use ti_fixtures::{Finds, Given, Unfound, place_of, show, show_debug};
use ti_lint::{
    Variables, extended_class_of, is_double_percent, is_false_mark, is_half_paired, is_mark,
    is_meant_to_expand, stored_by, toggling_pairs, undoing_pairs, unused_parameters,
};
use ti_names::{Class, NameTable, class_of};
use ti_rules::Finding;
use ti_words::Kind;

/// Names of texts with what they are. In micro mode a text has the parameters of the text that it is like.
const CLASSES: &[(&'static str, Class)] = &[
    ("cup", Class::Parameterized(2)),
    ("sgr", Class::Parameterized(9)),
    ("setaf", Class::Parameterized(1)),
    ("csr", Class::Parameterized(2)),
    ("tsl", Class::Parameterized(1)),
    ("wind", Class::Parameterized(4)),
    ("initc", Class::Parameterized(4)),
    ("initp", Class::Parameterized(7)),
    ("mcuf", Class::Parameterized(1)),
    ("smcup", Class::Plain),
    ("is2", Class::Plain),
    ("kf1", Class::Key),
    ("lf1", Class::Label),
    ("acsc", Class::List),
    ("if", Class::File),
    ("u6", Class::Input),
];

/// The first text that has another class.
fn first_other_class(classes: &[(&'static str, Class)]) -> &'static str {
    for (name, class) in classes {
        let found = match NameTable::All.find(*name) {
            Some((Kind::Text, index)) => class_of(index),
            _ => None,
        };
        if found != Some(*class) {
            return *name;
        }
    }
    ""
}

#[test]
fn texts_have_their_classes(rt: HostRuntime) {
    assert_that!(rt; first_other_class(CLASSES).is_empty());
    assert_that!(rt; class_of(413).is_some() && class_of(414).is_none());
}

/// Capabilities, and the masks of the variables into which they store.
const STORED: &str = r"
# `setf` of qnx stores into `f` alone, which is bit 37.
\E@%p1%Pf%gb%gf%d%d => 137438953472
%?%p1%t%{1}%PA%e%{2}%PZ%; => 33554433
";

/// The mask of the variables into which a capability stores.
struct StoredBy;

impl Finds for StoredBy {
    fn find(&self, given: &Given<'_, '_>, found: &mut Vec<u8>) -> Result<(), Unfound> {
        show(found, &stored_by(&Capability::parse(given.bytes)?).mask)
    }
}

#[test]
fn capabilities_store_into_variables(rt: HostRuntime) {
    check_rows(&rt, STORED, &StoredBy);
}

#[test]
fn two_sets_of_variables_are_joined(rt: HostRuntime) {
    let (one, other) = (Variables { mask: 1 | 1 << 25 }, Variables { mask: 1 << 37 });
    assert_that!(rt; one.union(other) == Variables { mask: 1 | 1 << 25 | 1 << 37 });
}

/// Capabilities with a count of parameters, and the mask of those up to it that nothing pushes.
const UNUSED: &str = r"
@CUP | 2 => 0
@CUP | 4 => 12
@CUP | 0 => 0
# a path that is not always taken pushes the third
%?%p1%t%p3%d%; | 3 => 2
%?%p1%t%p3%d%; | 9 => 506
";

/// The mask of the parameters that a capability leaves out.
struct LeftOutBy;

impl Finds for LeftOutBy {
    fn find(&self, given: &Given<'_, '_>, found: &mut Vec<u8>) -> Result<(), Unfound> {
        let count = given.fields()[1].parse::<u8>()?;
        let capability = Capability::parse(given.bytes)?;
        show(found, &unused_parameters(&capability, count).mask)
    }
}

#[test]
fn parameters_are_left_out(rt: HostRuntime) {
    check_rows(&rt, UNUSED, &LeftOutBy);
}

/// Texts and places, and whether one of two percent signs stands there. The first are `kf50` of d200, and `rmacs` of f110 and of
/// tvi955.
const PERCENT: &str = r"
^^%% | 0 => false
^^%% | 1 => true
\E%% | 0 => false
\E%% | 1 => true
\E% | 0 => false
\E% | 1 => false
%a%%% | 0 => false
%a%%% | 1 => false
%a%%% | 2 => true
%a%%% | 3 => true
%a%%% | 4 => false
%% | 2 => false
- | 0 => false
";

/// Whether one of two percent signs stands at a place of a text.
struct IsDoublePercent;

impl Finds for IsDoublePercent {
    fn find(&self, given: &Given<'_, '_>, found: &mut Vec<u8>) -> Result<(), Unfound> {
        let place = place_of(given.fields()[1])?.min(given.bytes.len());
        show(found, &is_double_percent(given.bytes, place))
    }
}

#[test]
fn two_percent_signs_are_found(rt: HostRuntime) {
    check_rows(&rt, PERCENT, &IsDoublePercent);
}

/// Texts and places, and whether a padding mark starts there. `kdl1` of tvi921 has a mark, as a key must not.
const MARKS: &str = r"
\ER$<1*/> | 1 => false
\ER$<1*/> | 2 => true
\ER$<1*/> | 3 => false
$<5$<5> | 0 => false
$<5$<5> | 3 => true
$<> | 0 => false
- | 0 => false
";

/// Whether a padding mark starts at a place of a text.
struct IsMark;

impl Finds for IsMark {
    fn find(&self, given: &Given<'_, '_>, found: &mut Vec<u8>) -> Result<(), Unfound> {
        let place = place_of(given.fields()[1])?.min(given.bytes.len());
        show(found, &is_mark(given.bytes, place))
    }
}

#[test]
fn padding_marks_are_found(rt: HostRuntime) {
    check_rows(&rt, MARKS, &IsMark);
}

/// The same for what starts as a mark and is none. A mark has a digit, at most five before the point, and an end.
const FALSE_MARKS: &str = r"
a$<5>b$<> | 1 => false
a$<5>b$<> | 6 => true
$<123456> | 0 => true
$<5$<5> | 0 => true
$<5$<5> | 3 => false
$$<.5/> | 0 => false
$$<.5/> | 1 => false
";

/// Whether something that is no mark starts like one at a place of a text.
struct IsFalseMark;

impl Finds for IsFalseMark {
    fn find(&self, given: &Given<'_, '_>, found: &mut Vec<u8>) -> Result<(), Unfound> {
        let place = place_of(given.fields()[1])?.min(given.bytes.len());
        show(found, &is_false_mark(given.bytes, place))
    }
}

#[test]
fn false_padding_marks_are_found(rt: HostRuntime) {
    check_rows(&rt, FALSE_MARKS, &IsFalseMark);
}

#[test]
fn some_tokens_are_meant_to_be_expanded(rt: HostRuntime) {
    // `op` of d220 begins with ESC, `[` and `%?%gD%t`.
    assert_that!(rt; is_meant_to_expand(Token::CondOpen));
    assert_that!(rt; is_meant_to_expand(Token::Load(b'D')));
    assert_that!(rt; !is_meant_to_expand(Token::CondThen));
    assert_that!(rt; !is_meant_to_expand(Token::Byte(b'%')));
}

#[test]
fn pairs_undo_each_other(rt: HostRuntime) {
    for (names, pair) in [("sc", "rc"), ("smam", "rmam")].iter().zip(undoing_pairs()) {
        assert_that!(rt; names == pair);
    }
    assert_that!(rt; undoing_pairs().len() == 6);
    // `acsc` of vt100 has 25 pairs; here are two.
    assert_that!(rt; !is_half_paired(b"``aa"));
    assert_that!(rt; is_half_paired(b"``aaf"));
}

#[test]
fn modes_start_and_end(rt: HostRuntime) {
    for (names, pair) in [("smso", "rmso"), ("smul", "rmul"), ("smcup", "rmcup")]
        .iter()
        .zip(toggling_pairs())
    {
        assert_that!(rt; names == pair);
    }
    assert_that!(rt; toggling_pairs().len() == 18);
}

/// Names of an entry's own, and what their texts are.
const OWN_CLASSES: &str = r"
# user_caps(5): XM has one parameter, E3 has none, and the names of keys start with k
XM => Some(Parameterized(1))
E3 => Some(Plain)
kDC5 => Some(Key)
xm => Some(Input)
# tmux(1) gives Ms two parameters, Sync one and Enbp none; setrgbf has one for each of red, green and blue
Ms => Some(Parameterized(2))
Sync => Some(Parameterized(1))
Enbp => Some(Plain)
setrgbf => Some(Parameterized(3))
# screen(1): WS has two parameters, and KJ is the name of an encoding
WS => Some(Parameterized(2))
KJ => Some(Label)
# Vim has t_fe without parameters, and t_SH with one
fe => Some(Plain)
SH => Some(Parameterized(1))
# user_caps(5): rv is a pattern of what the terminal answers
rv => Some(Input)
Xm => None
- => None
";

/// The class of the text of an own name.
struct OwnClassOf;

impl Finds for OwnClassOf {
    fn find(&self, given: &Given<'_, '_>, found: &mut Vec<u8>) -> Result<(), Unfound> {
        show_debug(found, &extended_class_of(given.bytes))
    }
}

#[test]
fn some_texts_of_own_names_are_known(rt: HostRuntime) {
    check_rows(&rt, OWN_CLASSES, &OwnClassOf);
}

/// The findings of texts and entries, and their words.
const WORDS: &[(Finding, &'static str)] = &[
    (Finding::Malformed(CapFault::StrayEnd), "malformed"),
    (Finding::UnusedParameter, "parameter-unused"),
    (Finding::UninterpretedEscape, "uninterpreted-escape"),
    (Finding::UninterpretedPercent, "uninterpreted-percent"),
    (Finding::EqualPair, "pair-equal"),
    (Finding::FalseMark, "padding-malformed"),
    (Finding::MarkInKey, "padding-in-key"),
    (Finding::HalfPaired, "acsc-odd"),
    (Finding::KeyPrefix, "key-prefix"),
    (Finding::AlikeKeys, "keys-alike"),
    (Finding::EmptyKey, "key-empty"),
    (Finding::LongDelay, "long-delay"),
    (Finding::Runs, "runs"),
    (Finding::Reads, "reads"),
    (Finding::Size, "size"),
    (Finding::ManyColors, "size"),
    (Finding::DividesByZero, "crash"),
    (Finding::DividesByParameter, "crash"),
    (Finding::DividesLeast, "crash"),
    (Finding::NotTried, "not-tried"),
    (Finding::NotAllTried, "not-tried"),
    (Finding::NotFollowed, "not-tried"),
    (Finding::UnknownFunction, "unknown-function"),
    (Finding::ComputedByte, "computed-byte"),
    (Finding::OpenString, "string-open"),
    (Finding::CutString, "string-cut"),
    (Finding::OpenLine, "string-open"),
    (Finding::NotEcma, "not-ecma"),
    (Finding::LoneMir, "mir-alone"),
    (Finding::RepeatedName, "name-repeated"),
    (Finding::RepeatedAlias, "alias-repeated"),
    (Finding::ColorsStay, "colors-pair"),
    (Finding::NoColors, "colors-pair"),
    (Finding::ColorsAreFixed, "colors-pair"),
    (Finding::Layout, "layout"),
    (Finding::Base, "base"),
];

/// The first word that is not the one of its finding.
fn first_other(words: &[(Finding, &'static str)]) -> &'static str {
    for (finding, word) in words {
        if finding.word() != *word {
            return *word;
        }
    }
    ""
}

#[test]
fn each_finding_of_a_text_has_a_word(rt: HostRuntime) {
    assert_that!(rt; first_other(WORDS).is_empty());
}
