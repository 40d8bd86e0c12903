//! The findings on an entry: remarks.

use crate::finding::Finding;
use std::alloc::{AllocError, Allocator};
use std::marker::Model;
use ti_cap::ParameterSet;
use ti_values::Tried;

/// A text and its name.
#[derive(Clone, Copy)]
pub struct NamedText<'a> {
    pub name: &'a [u8],
    pub text: &'a [u8],
}

/// The subject of a remark.
#[derive(Clone, Copy)]
pub enum About<'a> {
    Entry,
    Name(&'a [u8]),
    Text(NamedText<'a>),
    Two(NamedText<'a>, NamedText<'a>),
}

/// The evidence that a sentence has beside the words of its finding.
#[derive(Drop)]
pub enum Evidence<A: Allocator> {
    None,
    /// The last parameter by terminfo(5).
    Last(u8),
    /// The value of a test.
    Value(i32),
    /// Some parameters.
    Parameters(ParameterSet),
    /// Values.
    For(Tried),
    /// Values, and what is sent for them.
    Sent(Tried, Vec<u8, A>),
    /// Two values, and what is sent for both.
    SentForTwo(Tried, Tried, Vec<u8, A>),
    /// An attribute, by the name of its text, and a set of attributes.
    Attribute(&'static str, u16),
    /// The same, with what is sent for the set, and the text of which it lacks a part.
    Lacking(&'static str, u16, Vec<u8, A>, Vec<u8, A>),
    /// A function of the terminal, in words.
    Function(Vec<u8, A>),
    /// Names, with a space between two.
    Named(Vec<u8, A>),
    /// How many there are.
    Count(usize),
}

impl<A: Allocator + Copy> Evidence<A> {
    ghost use Rattle.std.specs.Prelude.{◌≡◌, IfOk};
    ghost use Rattle.ti_rules.specs.inner.Held.{evidence_held};

    /// The same evidence.
    pub fn copy(&self, alloc: A) -> Result<Self, AllocError>
        ensures { IfOk result (λ evidence. evidence_held evidence ≡ evidence_held self.now) }
    {
        Ok(match self {
            Evidence::None => Evidence::None,
            Evidence::Last(parameter) => Evidence::Last(*parameter),
            Evidence::Value(value) => Evidence::Value(*value),
            Evidence::Parameters(set) => Evidence::Parameters(*set),
            Evidence::For(value) => Evidence::For(*value),
            Evidence::Sent(value, sent) => Evidence::Sent(*value, sent.as_slice().to_vec(alloc)?),
            Evidence::SentForTwo(one, other, sent) => {
                Evidence::SentForTwo(*one, *other, sent.as_slice().to_vec(alloc)?)
            }
            Evidence::Attribute(name, set) => Evidence::Attribute(name, *set),
            Evidence::Lacking(name, set, sent, text) => {
                Evidence::Lacking(
                    name,
                    *set,
                    sent.as_slice().to_vec(alloc)?,
                    text.as_slice().to_vec(alloc)?,
                )
            }
            Evidence::Function(words) => Evidence::Function(words.as_slice().to_vec(alloc)?),
            Evidence::Named(names) => Evidence::Named(names.as_slice().to_vec(alloc)?),
            Evidence::Count(count) => Evidence::Count(*count),
        })
    }
}

/// A remark: its subject, the places in its text, the finding, and the evidence.
#[derive(Drop)]
pub struct Remark<'a, A: Allocator> {
    about: About<'a>,
    places: Vec<usize, A>,
    finding: Finding,
    evidence: Evidence<A>,
}

impl<'a, A: Allocator> Model for Remark<'a, A> {
    ghost use Rattle.ti_rules.specs.Remarks.{Remark as TheRemark};
    ghost use Rattle.ti_rules.specs.inner.Held.{about_held, evidence_held};

    ghost Value = { TheRemark };

    ghost view = { λ r. record {
      about = about_held r.about;
      places = r.places.items;
      finding = r.finding;
      evidence = evidence_held r.evidence;
    } };
}

impl<'a, A: Allocator> Remark<'a, A> {
    ghost use Rattle.std.specs.Prelude.{◌≡◌};
    ghost use Rattle.ti_rules.specs.inner.Held.{about_held, evidence_held};

    /// A remark.
    pub fn new(
        about: About<'a>,
        places: Vec<usize, A>,
        finding: Finding,
        evidence: Evidence<A>,
    ) -> Self
        ensures { result ≡ record {
          about = about_held about.entry;
          places = places.items;
          finding = finding;
          evidence = evidence_held evidence;
        } }
    {
        Remark {
            about,
            places,
            finding,
            evidence,
        }
    }

    /// Returns its subject.
    pub fn about(&self) -> About<'a>
        ensures { about_held result ≡ self.now.about }
    {
        self.about
    }

    /// The places of the text at which it is so.
    pub fn places(&self) -> &[usize]
        ensures { result.now ≡ self.now.places }
    {
        self.places.as_slice()
    }

    /// Returns its finding.
    pub fn finding(&self) -> Finding
        ensures { result ≡ self.now.finding }
    {
        self.finding
    }

    /// The evidence.
    pub fn evidence(&self) -> &Evidence<A>
        ensures { evidence_held result.now ≡ self.now.evidence }
    {
        &self.evidence
    }
}
