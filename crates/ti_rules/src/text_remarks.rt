//! Remarks on a text, whatever its name is.

ghost use Rattle.std.specs.Prelude.{◌≡◌, ◌++◌, ◌∷◌, [], OnOk, map};
ghost use Rattle.ti_rules.specs.Remarks.{placed, unplaced, with_name};
ghost use Rattle.ti_rules.specs.inner.Growing.{GainsThese};
ghost use Rattle.ti_rules.specs.inner.Held.{evidence_held};

use crate::finding::Finding;
use crate::remark::{About, Evidence, NamedText};
use crate::report::Report;
use std::alloc::{AllocError, Allocator};
use std::marker::Model;

/// A finding on a text: its places, and the finding.
#[derive(Drop)]
pub struct TextRemark<A: Allocator> {
    places: Vec<usize, A>,
    finding: Finding,
    evidence: Evidence<A>,
}

impl<A: Allocator> Model for TextRemark<A> {
    ghost use Rattle.ti_rules.specs.Remarks.{TextRemark as TheTextRemark};
    ghost use Rattle.ti_rules.specs.inner.Held.{evidence_held};

    ghost Value = { TheTextRemark };

    ghost view = { λ r. record {
      places = r.places.items;
      finding = r.finding;
      evidence = evidence_held r.evidence;
    } };
}

/// The remarks on a text, in order.
#[derive(Drop)]
pub struct TextRemarks<A: Allocator> {
    alloc: A,
    list: Vec<TextRemark<A>, A>,
}

impl<A: Allocator> Model for TextRemarks<A> {
    ghost use Rattle.std.specs.Prelude.{List};
    ghost use Rattle.ti_rules.specs.Remarks.{TextRemark as TheTextRemark};

    ghost Value = { List TheTextRemark };

    ghost view = { λ r. r.list.items };
}

impl<A: Allocator + Copy> TextRemark<A> {
    /// Adds it under the name of the text to a report.
    fn push_with_name<'a>(
        &self,
        report: &mut Report<'_, 'a, A>,
        subject: &NamedText<'a>,
    ) -> Result<(), AllocError>
        ensures { OnOk result (GainsThese
            (with_name subject.now.name.now subject.now.text.now self.now ∷ []) report.old report.new) }
    {
        let alloc = report.allocator();
        let places = self.places.as_slice().to_vec(alloc)?;
        let evidence = self.evidence.copy(alloc)?;
        report.push(About::Text(*subject), places, self.finding, evidence)
    }
}

impl<A: Allocator + Copy> TextRemarks<A> {
    /// None, which takes no memory.
    pub fn new(alloc: A) -> Self
        ensures { result ≡ [] }
    {
        TextRemarks {
            alloc,
            list: Vec::new(alloc),
        }
    }

    /// Returns the allocator.
    pub fn allocator(&self) -> A {
        self.alloc
    }

    /// Adds a remark at no place.
    pub fn push(&mut self, finding: Finding, evidence: Evidence<A>) -> Result<(), AllocError>
        ensures { OnOk result (self.new ≡ self.old ++ unplaced finding (evidence_held evidence)) }
    {
        let places = Vec::new(self.alloc);
        self.list.push(TextRemark {
            places,
            finding,
            evidence,
        })?;
        Ok(())
    }

    /// Adds a remark at some places. Without a place there is none.
    pub fn push_at(
        &mut self,
        places: Vec<usize, A>,
        finding: Finding,
        evidence: Evidence<A>,
    ) -> Result<(), AllocError>
        ensures { OnOk result
            (self.new ≡ self.old ++ placed places.items finding (evidence_held evidence)) }
    {
        if places.is_empty() {
            return Ok(());
        }
        self.list.push(TextRemark {
            places,
            finding,
            evidence,
        })?;
        Ok(())
    }

    /// Adds them under the name of the text to a report.
    pub fn push_with_name<'a>(
        &self,
        report: &mut Report<'_, 'a, A>,
        subject: &NamedText<'a>,
    ) -> Result<(), AllocError>
        ensures { OnOk result (GainsThese
            (map (with_name subject.now.name.now subject.now.text.now) self.now) report.old report.new) }
    {
        'remarks: for remark in &self.list {
            remark.push_with_name(report, subject)?;
        }
        Ok(())
    }
}
