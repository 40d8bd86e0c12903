//! Findings on the bytes that a text sends for numbers, and the trial of a text that all such rules look at.

ghost use Rattle.std.specs.Prelude.{◌≡◌, IfOk, OnOk};
ghost use Rattle.ti_values.specs.Findings.{sent_at as the_sent_at};
ghost use Rattle.ti_values.specs.Sent.{texts_of};
ghost use Rattle.ti_rules.specs.inner.Growing.{Gains, GainsThese};
ghost use Rattle.ti_rules.specs.Values.{AreNumbersRemarks, IsEmptyReport, IsNegativeReport, IsSameReport, IsUnendedReport, is_ansi_entry, remark_of, sent_evidence, tried_at};
ghost use Rattle.ti_rules.specs.inner.Held.{trial_held};

use crate::finding::Finding;
use crate::remark::{Evidence, NamedText};
use crate::report::Report;
use crate::splits::sequence_finding;
use std::alloc::{AllocError, Allocator};
use ti_cap::Capability;
use ti_values::{Tried, first_empty, first_negative, first_same, first_unended, sent_at};

/// A text, the values that it is tried over, and what it sends for each.
#[derive(Drop)]
pub struct Trial<'t, 'a, A: Allocator> {
    pub subject: NamedText<'a>,
    pub tried: &'t [Tried],
    pub sent: &'t [Vec<u8, A>],
}

impl<'t, 'a, A: Allocator + Copy> Trial<'t, 'a, A> {
    ghost use Rattle.std.specs.Prelude.{◌≡◌, IfOk};
    ghost use Rattle.ti_values.specs.Findings.{sent_at as the_sent_at};
    ghost use Rattle.ti_values.specs.Sent.{texts_of};
    ghost use Rattle.ti_rules.specs.Values.{tried_at, unended_finding};
    ghost use Rattle.ti_rules.specs.inner.Held.{trial_held};

    /// The value at a place.
    fn tried_at(&self, place: usize) -> Tried
        ensures { result ≡ tried_at (trial_held self.now) place }
    {
        if place < self.tried.len() {
            return self.tried[place];
        }
        Tried::Number(0)
    }

    /// The finding on a sequence that is not ended, at the place.
    fn unended_finding(&self, found: Option<usize>) -> Finding
        ensures { result ≡ unended_finding (trial_held self.now) found }
    {
        match found {
            Some(place) => sequence_finding(sent_at(self.sent, place)),
            None => Finding::UnendedSequence,
        }
    }

    /// A copy of what is sent for it.
    pub fn copy_of(&self, alloc: A, place: usize) -> Result<Vec<u8, A>, AllocError>
        ensures { IfOk result (λ text. text.items ≡ the_sent_at (texts_of self.now.sent.now) place) }
    {
        let mut text = Vec::new(alloc);
        text.extend_from_slice(sent_at(self.sent, place))?;
        Ok(text)
    }
}

impl<'r, 'a, A: Allocator + Copy> Report<'r, 'a, A> {
    /// Adds the remark on a value for which nothing is sent.
    fn push_empty(&mut self, trial: &Trial<'_, 'a, A>) -> Result<(), AllocError>
        ensures { OnOk result (Gains (IsEmptyReport (trial_held trial.now)) self.old self.new) }
    {
        match first_empty(trial.sent) {
            None => Ok(()),
            Some(place) => {
                let evidence = Evidence::For(trial.tried_at(place));
                self.push_on_values(&trial.subject, Finding::EmptyOutput, evidence)?;
                Ok(())
            }
        }
    }

    /// Adds the remark on two values for which the same is sent.
    fn push_same(&mut self, trial: &Trial<'_, 'a, A>) -> Result<(), AllocError>
        ensures { OnOk result (Gains (IsSameReport (trial_held trial.now)) self.old self.new) }
    {
        match first_same(self.allocator(), trial.sent)? {
            None => Ok(()),
            Some(found) => {
                let text = trial.copy_of(self.allocator(), found.other)?;
                let evidence = Evidence::SentForTwo(
                    trial.tried_at(found.one),
                    trial.tried_at(found.other),
                    text,
                );
                self.push_on_values(&trial.subject, Finding::SameOutput, evidence)?;
                Ok(())
            }
        }
    }

    /// Adds the remark on the value at a place, with what is sent for it, if there is one.
    pub fn push_sent(
        &mut self,
        trial: &Trial<'_, 'a, A>,
        finding: Finding,
        found: Option<usize>,
    ) -> Result<(), AllocError>
        ensures { OnOk result (GainsThese
            (remark_of (trial_held trial.now) finding (sent_evidence (trial_held trial.now)) found) self.old self.new) }
    {
        match found {
            None => Ok(()),
            Some(place) => {
                let text = trial.copy_of(self.allocator(), place)?;
                let evidence = Evidence::Sent(trial.tried_at(place), text);
                self.push_on_values(&trial.subject, finding, evidence)
            }
        }
    }

    /// Adds the remark on a value for which a number below 0 is sent.
    fn push_negative(
        &mut self,
        capability: &Capability<'_>,
        trial: &Trial<'_, 'a, A>,
    ) -> Result<(), AllocError>
        requires { capability.now ≡ trial.now.subject.text.now }
        ensures { OnOk result
            (Gains (IsNegativeReport (trial_held trial.now)) self.old self.new) }
    {
        let found = first_negative(self.allocator(), capability, trial.tried)?;
        self.push_sent(trial, Finding::NegativeNumber, found)?;
        Ok(())
    }

    /// Adds the remark on a value for which a sequence is sent that is not ended, of a terminal of ECMA-48.
    pub fn push_unended(&mut self, trial: &Trial<'_, 'a, A>) -> Result<(), AllocError>
        ensures { OnOk result
            (Gains (IsUnendedReport (is_ansi_entry self.old.on.entry) (trial_held trial.now)) self.old self.new) }
    {
        if self.is_ansi() {
            let found = first_unended(trial.sent);
            return self.push_sent(trial, trial.unended_finding(found), found);
        }
        Ok(())
    }

    /// Adds the remarks on what is sent for numbers.
    pub fn push_numbers_remarks(
        &mut self,
        capability: &Capability<'_>,
        trial: &Trial<'_, 'a, A>,
    ) -> Result<(), AllocError>
        requires { capability.now ≡ trial.now.subject.text.now }
        ensures { OnOk result
            (Gains (AreNumbersRemarks (is_ansi_entry self.old.on.entry) (trial_held trial.now)) self.old self.new) }
    {
        self.push_empty(trial)?;
        self.push_same(trial)?;
        self.push_negative(capability, trial)?;
        self.push_unended(trial)?;
        Ok(())
    }
}
