//! Findings on the bytes that `sgr` sends for sets of attributes, by themselves and beside the texts that start them.

ghost use Rattle.std.specs.Prelude.{◌≡◌, ◌&&◌, IfOk, OnOk, option_map};
ghost use Rattle.std.specs.List.{flat_map};
ghost use Rattle.ti_values.specs.Attributes.{attributes, is_ignored};
ghost use Rattle.ti_values.specs.Sent.{texts_of};
ghost use Rattle.ti_rules.specs.Values.{AreAttributesRemarks, IsCombinationReport, IsShownReport, differing_text as the_differing_text, ignored_if, on_differing, on_ignored, text_named};
ghost use Rattle.ti_rules.specs.Whole.{has};
ghost use Rattle.ti_rules.specs.inner.Growing.{Gains, GainsThese};
ghost use Rattle.ti_rules.specs.inner.Held.{trial_held};

use crate::colors::has;
use crate::finding::Finding;
use crate::lookup::text_named;
use crate::remark::Evidence;
use crate::report::Report;
use crate::sent::Trial;
use std::alloc::{AllocError, Allocator};
use ti_entry::Entry;
use ti_values::{attributes, first_combination, first_shown, is_different, is_ignored};
use ti_words::Text;

/// The text that starts an attribute, if what is sent for it lacks a part of that.
fn differing_text<'a, A: Allocator + Copy>(
    alloc: A,
    entry: &Entry<'a>,
    sent: &[Vec<u8, A>],
    name: &str,
    set: u16,
) -> Result<Option<&'a [u8]>, AllocError>
    ensures { IfOk result (λ found. option_map (λ text. text.now) found
        ≡ the_differing_text (texts_of sent.now) set (text_named entry.now name.now)) }
{
    match text_named(entry, name) {
        Text::Value(text) => {
            if is_different(alloc, sent, set, text)? {
                return Ok(Some(text));
            }
            Ok(None)
        }
        Text::Absent | Text::Cancelled => Ok(None),
    }
}

impl<'r, 'a, A: Allocator + Copy> Report<'r, 'a, A> {
    /// Adds the remark on an attribute that is not sent as its text is.
    fn push_differing(
        &mut self,
        trial: &Trial<'_, 'a, A>,
        attribute: (&'static str, u16),
    ) -> Result<(), AllocError>
        ensures { OnOk result (GainsThese (on_differing self.old.on.entry (trial_held trial.now)
            (attribute.entry.0.now, attribute.entry.1)) self.old self.new) }
    {
        let (name, set) = attribute;
        match differing_text(self.allocator(), self.entry(), trial.sent, name, set)? {
            None => Ok(()),
            Some(text) => {
                let its = Vec::from_slice(self.allocator(), text)?;
                let sent = trial.copy_of(self.allocator(), usize::from(set))?;
                let evidence = Evidence::Lacking(name, set, sent, its);
                self.push_on_values(&trial.subject, Finding::DifferingAttribute, evidence)
            }
        }
    }

    /// Adds the remarks on all attributes that are not sent as their texts are.
    fn push_all_differing(&mut self, trial: &Trial<'_, 'a, A>) -> Result<(), AllocError>
        ensures { OnOk result (GainsThese
            (flat_map (on_differing self.old.on.entry (trial_held trial.now)) attributes) self.old self.new) }
    {
        'attributes: for (name, set) in attributes() {
            self.push_differing(trial, (*name, *set))?;
        }
        Ok(())
    }

    /// Adds the remark on a set for which what is sent lacks what an attribute sends alone.
    fn push_combination(&mut self, trial: &Trial<'_, 'a, A>) -> Result<(), AllocError>
        ensures { OnOk result
            (Gains (IsCombinationReport (trial_held trial.now)) self.old self.new) }
    {
        let found = first_combination(self.allocator(), trial.sent)?;
        self.push_sent(trial, Finding::Combination, found)
    }

    /// Adds the remark on a set of attributes for which something is sent that shows.
    fn push_shown_text(&mut self, trial: &Trial<'_, 'a, A>) -> Result<(), AllocError>
        ensures { OnOk result (Gains (IsShownReport (trial_held trial.now)) self.old self.new) }
    {
        let found = first_shown(trial.sent);
        self.push_sent(trial, Finding::ShownText, found)
    }
}

/// Whether an attribute is ignored whose text is there.
fn is_ignored_text<A: Allocator>(
    entry: &Entry<'_>,
    sent: &[Vec<u8, A>],
    name: &str,
    set: u16,
) -> bool
    ensures { result ≡ has entry.now name.now && is_ignored (texts_of sent.now) set }
{
    has(entry, name) && is_ignored(sent, set)
}

impl<'r, 'a, A: Allocator + Copy> Report<'r, 'a, A> {
    /// Adds the remark on an attribute, if it is ignored.
    fn push_ignored(
        &mut self,
        ignored: bool,
        trial: &Trial<'_, 'a, A>,
        attribute: (&'static str, u16),
    ) -> Result<(), AllocError>
        ensures { OnOk result (GainsThese
            (ignored_if ignored (trial_held trial.now) attribute.entry.0.now attribute.entry.1) self.old self.new) }
    {
        if !ignored {
            return Ok(());
        }
        let evidence = Evidence::Attribute(attribute.0, attribute.1);
        self.push_on_values(&trial.subject, Finding::IgnoredAttribute, evidence)
    }

    /// Adds the remarks on all attributes that are ignored.
    fn push_all_ignored(&mut self, trial: &Trial<'_, 'a, A>) -> Result<(), AllocError>
        ensures { OnOk result (GainsThese
            (flat_map (on_ignored self.old.on.entry (trial_held trial.now)) attributes) self.old self.new) }
    {
        let entry = self.entry();
        'attributes: for (name, set) in attributes() {
            let ignored = is_ignored_text(entry, trial.sent, name, *set);
            self.push_ignored(ignored, trial, (*name, *set))?;
        }
        Ok(())
    }

    /// Adds the remarks on what is sent for sets of attributes.
    pub fn push_attributes_remarks(&mut self, trial: &Trial<'_, 'a, A>) -> Result<(), AllocError>
        ensures { OnOk result
            (Gains (AreAttributesRemarks self.old.on.entry (trial_held trial.now)) self.old self.new) }
    {
        self.push_all_ignored(trial)?;
        self.push_all_differing(trial)?;
        self.push_combination(trial)?;
        self.push_shown_text(trial)?;
        self.push_unended(trial)?;
        Ok(())
    }
}
