//! The sentence on a finding: its words, with its evidence before or after them.

use crate::which::{operand_words, write_attributes, write_lost, write_origins};
use std::alloc::Allocator;
use ti_cap::ParameterSet;
use ti_escape::Form;
use ti_lint::TokenFinding;
use ti_rules::{About, Evidence, Finding, Remark};
use ti_sink::Page;
use ti_values::Tried;

/// Writes the parameters of a set.
fn write_parameters<A: Allocator>(page: &mut Page<A>, set: ParameterSet) {
    'parameters: for which in 1..10 {
        if set.contains(which) {
            page.put(" %p");
            page.unsigned(u64::from(which));
        }
    }
}

/// Writes the values of a try.
fn write_values<A: Allocator>(page: &mut Page<A>, tried: Tried) {
    match tried {
        Tried::Number(first) => {
            page.put("for ");
            page.unsigned(u64::from(first))
        }
        Tried::Two(first, second) => {
            page.put("for ");
            page.unsigned(u64::from(first));
            page.put(" ");
            page.unsigned(u64::from(second))
        }
        Tried::Attributes(0) => page.put("for no attribute"),
        Tried::Attributes(mask) => {
            page.put("for");
            write_parameters(page, ParameterSet { mask })
        }
    }
}

/// Writes what is sent.
fn write_output<A: Allocator>(page: &mut Page<A>, sent: &[u8]) {
    if sent.is_empty() {
        page.put(" it sends nothing")
    } else {
        page.put(" it sends ");
        page.shown(Form::Notation, sent)
    }
}

/// Writes the values of a try, and what is sent for them.
fn write_sent<A: Allocator>(page: &mut Page<A>, tried: Tried, sent: &[u8]) {
    write_values(page, tried);
    write_output(page, sent)
}

/// Writes the evidence that comes before the words of the finding.
fn write_before<A: Allocator, B: Allocator>(page: &mut Page<A>, evidence: &Evidence<B>) {
    match evidence {
        Evidence::Last(parameter) => {
            page.put("%p");
            page.unsigned(u64::from(*parameter))
        }
        Evidence::For(tried) => write_values(page, *tried),
        Evidence::Sent(tried, sent) => write_sent(page, *tried, sent.as_slice()),
        Evidence::SentForTwo(one, other, sent) => {
            write_values(page, *one);
            page.put(" and ");
            write_sent(page, *other, sent.as_slice())
        }
        Evidence::Attribute(_, set) => write_values(page, Tried::Attributes(*set)),
        Evidence::Lacking(_, set, sent, _) => {
            write_sent(page, Tried::Attributes(*set), sent.as_slice())
        }
        Evidence::Function(words) => {
            page.shown(Form::Notation, words.as_slice());
            page.put(": the terminal ")
        }
        Evidence::None
        | Evidence::Value(_)
        | Evidence::Parameters(_)
        | Evidence::Named(_)
        | Evidence::Count(_) => (),
    }
}

/// Writes the evidence that comes after them.
fn write_after<A: Allocator, B: Allocator>(page: &mut Page<A>, evidence: &Evidence<B>) {
    match evidence {
        Evidence::Value(value) => page.integer(*value),
        Evidence::Parameters(set) => write_parameters(page, *set),
        Evidence::Attribute(name, _) => page.label(name.as_bytes()),
        Evidence::Lacking(name, _, _, text) => {
            page.label(name.as_bytes());
            page.put(" is ");
            page.shown(Form::Notation, text.as_slice())
        }
        Evidence::Named(names) => {
            page.put("; not at ");
            page.shown(Form::Notation, names.as_slice())
        }
        Evidence::Count(count) => page.unsigned(*count as u64),
        Evidence::None
        | Evidence::Last(_)
        | Evidence::For(_)
        | Evidence::Sent(..)
        | Evidence::SentForTwo(..)
        | Evidence::Function(_) => (),
    }
}

/// Writes what is wrong.
pub fn write_meaning<A: Allocator + Copy>(page: &mut Page<A>, alloc: A, remark: &Remark<'_, A>) {
    match (remark.finding(), remark.about(), remark.evidence()) {
        (Finding::OriginDiffers, About::Two(cup, other), _) => {
            write_origins(page, alloc, cup, other)
        }
        (Finding::Combination, About::Text(text), Evidence::Sent(tried, sent)) => {
            write_combination(page, alloc, text.text, *tried, sent.as_slice())
        }
        (Finding::Token(TokenFinding::OperandType), About::Text(text), _) => {
            page.put(words_of_operands(text.text, remark.places()).0)
        }
        (finding, _, evidence) => {
            write_before(page, evidence);
            page.put(finding.sentence());
            write_after(page, evidence)
        }
    }
}

/// Writes for which attributes `sgr` lacks a part, and which.
fn write_combination<A: Allocator + Copy>(
    page: &mut Page<A>,
    alloc: A,
    text: &[u8],
    tried: Tried,
    sent: &[u8],
) {
    write_values(page, tried);
    if let Tried::Attributes(set) = tried {
        write_attributes(page, set);
        write_output(page, sent);
        write_lost(page, alloc, text, set, sent)
    }
}

/// The sentence on tokens that take a value of the other kind, and the remedy: those of each if they are alike, and else of all.
fn words_of_operands(text: &[u8], places: &[usize]) -> (&'static str, &'static str) {
    let first = operand_words(text, places.first().copied().unwrap_or(0));
    if places
        .iter()
        .all(|place| operand_words(text, *place).0 == first.0)
    {
        return first;
    }
    let any = Finding::Token(TokenFinding::OperandType);
    (any.sentence(), any.remedy())
}

/// What to do.
pub fn remedy_of<A: Allocator>(remark: &Remark<'_, A>) -> &'static str {
    match (remark.finding(), remark.about()) {
        (Finding::Token(TokenFinding::OperandType), About::Text(text)) => {
            words_of_operands(text.text, remark.places()).1
        }
        (finding, _) => finding.remedy(),
    }
}
