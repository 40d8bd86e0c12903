//! Divisions at which programs end by SIGFPE that expand a string by another library: by 0, and of the least number by -1.

ghost use Rattle.std.specs.Prelude.{◌≡◌, ◌++◌, ◌∷◌, IfOk, OnOk, map};
ghost use Rattle.ti_rules.specs.Crashes.{AreCrashes, AreCrashesOf, AreDivisionRemarks, AreDivisionsIf, AreDivisionsOf, AreUnknownDivisions, after, combined, complemented, computed, divides, is_least, is_minus_one, is_zero_for, knows_nothing, least_is_top, may_be_zero, negated, on_division, on_numbers, on_parameter, on_token, range_in, result_of, rows_of, with_right};
ghost use Rattle.ti_rules.specs.Lines.{Adds, AreAll};
ghost use Rattle.ti_values.specs.inner.Rows.{row_of};
ghost use Rattle.ti_rules.specs.inner.Growing.{Gains};
ghost use Rattle.ti_rules.specs.inner.Held.{before_held, text_held, texts_held, unknowns_held};

use crate::finding::Finding;
use crate::looked::{known_fitting, unknown_fitting};
use crate::lookup::number_named;
use crate::remark::{Evidence, NamedText};
use crate::report::Report;
use crate::subject::{KnownText, unknown_texts};
use crate::text_remarks::TextRemarks;
use std::alloc::{AllocError, Allocator};
use ti_cap::{Capability, Op, Token};
use ti_control::is_sent;
use ti_expand::{apply, complement, logical_not};
use ti_names::Class;
use ti_values::{Range, Tried, tried_texts, values_of};

/// What is known before a token.
#[derive(Drop)]
pub struct Before<A: Allocator> {
    /// The numbers on top of the stack that constants and operations alone left there, the top first.
    numbers: Vec<i32, A>,
    /// The parameter that the token right before pushed.
    parameter: Option<u8>,
}

/// Numbers with another one on top.
fn with_top<A: Allocator>(alloc: A, top: i32, numbers: &[i32]) -> Result<Vec<i32, A>, AllocError>
    ensures { IfOk result (λ list. list.items ≡ top ∷ numbers.now) }
{
    let mut list = Vec::new(alloc);
    list.push(top)?;
    list.extend_from_slice(numbers)?;
    Ok(list)
}

/// The numbers that are known after `%!`.
fn negated<A: Allocator>(alloc: A, numbers: &[i32]) -> Result<Vec<i32, A>, AllocError>
    ensures { IfOk result (λ list. list.items ≡ negated numbers.now) }
{
    match numbers {
        [top, rest @ ..] => with_top(alloc, logical_not(*top), rest),
        [] => Ok(Vec::new(alloc)),
    }
}

/// The numbers that are known after `%~`.
fn complemented<A: Allocator>(alloc: A, numbers: &[i32]) -> Result<Vec<i32, A>, AllocError>
    ensures { IfOk result (λ list. list.items ≡ complemented numbers.now) }
{
    match numbers {
        [top, rest @ ..] => with_top(alloc, complement(*top), rest),
        [] => Ok(Vec::new(alloc)),
    }
}

/// The result of an operation.
#[tactic(auto, unfolding(crate::specs::Crashes::result_of))]
fn result_of(op: Op, left: i32, right: i32) -> i32
    ensures { result ≡ result_of op left right }
{
    apply(op, left, right)
}

/// The numbers that are known after an operation, by its right one and those below.
fn with_right<A: Allocator>(
    alloc: A,
    op: Op,
    right: i32,
    numbers: &[i32],
) -> Result<Vec<i32, A>, AllocError>
    ensures { IfOk result (λ list. list.items ≡ with_right op right numbers.now) }
{
    match numbers {
        [left, rest @ ..] => with_top(alloc, result_of(op, *left, right), rest),
        [] => Ok(Vec::new(alloc)),
    }
}

/// The numbers that are known after an operation on two.
fn combined<A: Allocator>(alloc: A, op: Op, numbers: &[i32]) -> Result<Vec<i32, A>, AllocError>
    ensures { IfOk result (λ list. list.items ≡ combined op numbers.now) }
{
    match numbers {
        [right, rest @ ..] => with_right(alloc, op, *right, rest),
        [] => Ok(Vec::new(alloc)),
    }
}

/// The numbers that are known after an operation.
fn computed<A: Allocator>(alloc: A, op: Op, numbers: &[i32]) -> Result<Vec<i32, A>, AllocError>
    ensures { IfOk result (λ list. list.items ≡ computed op numbers.now) }
{
    match op {
        Op::Not => negated(alloc, numbers),
        Op::BitNot => complemented(alloc, numbers),
        _ => combined(alloc, op, numbers),
    }
}

impl<A: Allocator + Copy> Before<A> {
    /// Nothing is known.
    fn nothing(alloc: A) -> Self
        ensures { before_held result ≡ knows_nothing }
    {
        Before {
            numbers: Vec::new(alloc),
            parameter: None,
        }
    }

    /// What is known after a token.
    fn after(&self, alloc: A, token: &Token) -> Result<Self, AllocError>
        ensures { IfOk result (λ next. before_held next ≡ after (before_held self.now) token.now) }
    {
        let numbers = match token {
            Token::Constant(number) => with_top(alloc, *number, self.numbers.as_slice())?,
            Token::Compute(op) => computed(alloc, *op, self.numbers.as_slice())?,
            Token::Param(which) => return Ok(Before {
                numbers: Vec::new(alloc),
                parameter: Some(*which),
            }),
            _ => Vec::new(alloc),
        };
        Ok(Before {
            numbers,
            parameter: None,
        })
    }
}

/// Whether a token divides.
fn divides(token: &Token) -> bool
    ensures { result ≡ divides token.now }
{
    match token {
        Token::Compute(Op::Div | Op::Rem) => true,
        _ => false,
    }
}

/// Whether a number is -1.
fn is_minus_one(number: i32) -> bool
    ensures { result ≡ is_minus_one number }
{
    number == -1
}

/// Whether a number is the least one of 32 bits.
fn is_least(number: i32) -> bool
    ensures { result ≡ is_least number }
{
    number == i32::MIN
}

/// Whether the least number is on top.
fn least_is_top(numbers: &[i32]) -> bool
    ensures { result ≡ least_is_top numbers.now }
{
    match numbers {
        [top, ..] => is_least(*top),
        [] => false,
    }
}

/// Whether a parameter is 0 for the values of a try.
fn is_zero_for(which: u8, tried: Tried) -> bool
    ensures { result ≡ is_zero_for which tried }
{
    match tried {
        Tried::Number(first) => which != 1 || first == 0,
        Tried::Two(first, second) => if which == 1 {
            first == 0
        } else {
            which != 2 || second == 0
        },
        Tried::Attributes(set) => set == 0,
    }
}

/// Whether a parameter is 0 for some of the values over which a text is tried.
fn may_be_zero<A: Allocator + Copy>(
    alloc: A,
    range: Option<Range>,
    which: u8,
) -> Result<bool, AllocError>
    ensures { IfOk result (λ found. found ≡ may_be_zero range which) }
{
    let Some(range) = range else {
        return Ok(false);
    };
    let tries = values_of(alloc, range)?;
    'tries: for tried in tries.as_slice() {
        if is_zero_for(which, *tried) {
            return Ok(true);
        }
    }
    Ok(false)
}

/// The range of the text with a name, if it has one.
fn range_in(rows: &[(&'static str, Range)], name: &[u8]) -> Option<Range>
    ensures { result ≡ range_in (map row_of rows.now) name.now }
{
    'rows: for (known, range) in rows {
        if known.as_bytes() == name {
            return Some(*range);
        }
    }
    None
}

impl<A: Allocator + Copy> TextRemarks<A> {
    ghost use Rattle.std.specs.Prelude.{◌∷◌, []};
    ghost use Rattle.ti_rules.specs.Remarks.{placed};
    ghost use Rattle.ti_rules.specs.inner.Held.{evidence_held};

    /// Adds a remark at a place.
    fn push_one(
        &mut self,
        place: usize,
        finding: Finding,
        evidence: Evidence<A>,
    ) -> Result<(), AllocError>
        ensures { OnOk result
            (self.new ≡ self.old ++ placed (place ∷ []) finding (evidence_held evidence)) }
    {
        let mut places = Vec::new(self.allocator());
        places.push(place)?;
        self.push_at(places, finding, evidence)
    }

    /// Adds the remark on a division by numbers that are known.
    fn push_on_numbers(&mut self, numbers: &[i32], place: usize) -> Result<(), AllocError>
        ensures { OnOk result (self.new ≡ self.old ++ on_numbers numbers.now place) }
    {
        let [divisor, rest @ ..] = numbers else {
            return Ok(());
        };
        if *divisor == 0 {
            return self.push_one(place, Finding::DividesByZero, Evidence::None);
        }
        if is_minus_one(*divisor) && least_is_top(rest) {
            return self.push_one(place, Finding::DividesLeast, Evidence::None);
        }
        Ok(())
    }

    /// Adds the remark on a division by a parameter.
    fn push_on_parameter(
        &mut self,
        range: Option<Range>,
        which: u8,
        place: usize,
    ) -> Result<(), AllocError>
        ensures { OnOk result (self.new ≡ self.old ++ on_parameter range which place) }
    {
        if may_be_zero(self.allocator(), range, which)? {
            return self.push_one(place, Finding::DividesByParameter, Evidence::Last(which));
        }
        Ok(())
    }

    /// Adds the remark on a token.
    fn push_crash(
        &mut self,
        range: Option<Range>,
        before: &Before<A>,
        token: &Token,
        place: usize,
    ) -> Result<(), AllocError>
        ensures { OnOk result
            (self.new ≡ self.old ++ on_token range (before_held before.now) token.now place) }
    {
        if !divides(token) {
            return Ok(());
        }
        match before.parameter {
            Some(which) => self.push_on_parameter(range, which, place),
            None => self.push_on_numbers(before.numbers.as_slice(), place),
        }
    }

    /// Adds the remarks on the divisions of a capability that is tried over a range.
    fn push_crashes(
        &mut self,
        range: Option<Range>,
        capability: &Capability<'_>,
    ) -> Result<(), AllocError>
        ensures { OnOk result (Adds (AreCrashes range capability.now) self.old self.new) }
    {
        let alloc = self.allocator();
        let mut tape = capability.tape();
        let mut before = Before::nothing(alloc);
        let mut place = 0;
        'tokens: while let Some(token) = tape.token() {
            self.push_crash(range, &before, &token, place)?;
            before = before.after(alloc, &token)?;
            place = tape.at();
        }
        Ok(())
    }
}

impl<'r, 'a, A: Allocator + Copy> Report<'r, 'a, A> {
    /// Adds the remarks on the divisions of a capability.
    fn push_crashes_of(
        &mut self,
        range: Option<Range>,
        capability: &Capability<'_>,
        subject: &NamedText<'a>,
    ) -> Result<(), AllocError>
        requires { capability.now ≡ subject.now.text.now }
        ensures { OnOk result (Gains (AreCrashesOf range subject.now.name.now subject.now.text.now)
            self.old self.new) }
    {
        let mut remarks = TextRemarks::new(self.allocator());
        remarks.push_crashes(range, capability)?;
        remarks.push_with_name(self, subject)?;
        Ok(())
    }

    /// Adds the remarks on the divisions of a text, if it is a capability.
    fn push_divisions_if(
        &mut self,
        range: Option<Range>,
        subject: &NamedText<'a>,
    ) -> Result<(), AllocError>
        ensures { OnOk result (Gains (AreDivisionsIf range subject.now.name.now subject.now.text.now)
            self.old self.new) }
    {
        match Capability::parse(subject.text) {
            Ok(capability) => {
                self.push_crashes_of(range, &capability, subject)?;
                Ok(())
            }
            Err(_) => Ok(()),
        }
    }

    /// Adds the remarks on the divisions of a text of which it is known what it is, if it is sent.
    fn push_divisions_of(
        &mut self,
        rows: &[(&'static str, Range)],
        text: &KnownText<'a>,
    ) -> Result<(), AllocError>
        ensures { OnOk result (Gains (AreDivisionsOf (map row_of rows.now) (text_held text.now)) self.old self.new) }
    {
        match (is_sent(text.subject.name), text.class) {
            (true, Class::Parameterized(_)) => {
                self.push_divisions_if(range_in(rows, text.subject.name), &text.subject)
            }
            _ => Ok(()),
        }
    }

    /// Adds the remarks on the divisions of some texts of which it is known what they are.
    fn push_known_divisions(
        &mut self,
        rows: &[(&'static str, Range)],
        texts: &[KnownText<'a>],
    ) -> Result<(), AllocError>
        ensures { OnOk result (Gains (AreAll (AreDivisionsOf (map row_of rows.now)) (texts_held texts.now))
            self.old self.new) }
    {
        'texts: for text in texts {
            self.push_divisions_of(rows, text)?;
        }
        Ok(())
    }

    /// Adds the remarks on the divisions of some others.
    fn push_unknown_divisions(&mut self, texts: &[NamedText<'a>]) -> Result<(), AllocError>
        ensures { OnOk result (Gains (AreAll AreUnknownDivisions (unknowns_held texts.now)) self.old self.new) }
    {
        'texts: for text in texts {
            self.push_divisions_if(None, text)?;
        }
        Ok(())
    }

    /// Adds the remarks on the divisions of all texts, by the ranges of some.
    fn push_divisions_by(&mut self, rows: &[(&'static str, Range)]) -> Result<(), AllocError>
        requires { map row_of rows.now ≡ rows_of self.old.on.entry }
        ensures { OnOk result (Gains (AreDivisionRemarks self.old.on.entry) self.old self.new) }
    {
        let known = self.texts();
        let unknown = unknown_texts(self.allocator(), self.entry())?;
        let others = unknown.as_slice();
        let (end, others_end) = (known_fitting(known), unknown_fitting(others));
        self.push_known_divisions(rows, &known[..end])?;
        self.push_unknown_divisions(&others[..others_end])?;
        Ok(())
    }

    /// Adds the remarks on divisions at which programs end.
    pub fn push_divisions(&mut self) -> Result<(), AllocError>
        ensures { OnOk result (Gains (AreDivisionRemarks self.old.on.entry) self.old self.new) }
    {
        let entry = self.entry();
        let lines = number_named(entry, "lines");
        let columns = number_named(entry, "cols");
        let colors = number_named(entry, "colors");
        let rows = tried_texts(lines, columns, colors);
        self.push_divisions_by(&rows)?;
        Ok(())
    }
}
