//! Findings on a text for some of the values that it may be given: which texts are tried, and over which values.

ghost use Rattle.std.specs.Prelude.{◌≡◌, OnOk, map};
ghost use Rattle.ti_values.specs.inner.Rows.{row_of};
ghost use Rattle.ti_rules.specs.Lines.{AreReports};
ghost use Rattle.ti_rules.specs.Values.{AreValueRemarks, IsAttributesReport, IsNamedTriedReport, IsNumbersReport, IsRangeReport, IsTriedReport, IsTriedReportOf, is_ansi_entry, text_named};
ghost use Rattle.ti_rules.specs.inner.Growing.{Gains};

use crate::finding::Finding;
use crate::lookup::{number_named, text_named};
use crate::remark::{Evidence, NamedText};
use crate::report::Report;
use crate::sent::Trial;
use crate::trials::Trials;
use std::alloc::{AllocError, Allocator};
use ti_cap::Capability;
use ti_values::{Range, is_short, sent_for, tried_texts, values_of};
use ti_words::Text;

/// A text, and the values that it is tried over.
#[derive(Clone, Copy)]
struct RangedText<'a> {
    subject: NamedText<'a>,
    range: Range,
}

impl<'r, 'a, A: Allocator + Copy> Report<'r, 'a, A> {
    /// Adds the remarks on a capability that is tried over numbers.
    fn push_tried_numbers(
        &mut self,
        capability: &Capability<'_>,
        text: &RangedText<'a>,
    ) -> Result<(), AllocError>
        requires { capability.now ≡ text.now.subject.text.now }
        ensures { OnOk result (Gains (IsNumbersReport (is_ansi_entry self.old.on.entry) text.now.subject.name.now
            text.now.subject.text.now text.now.range) self.old self.new) }
    {
        let all = values_of(self.allocator(), text.range)?;
        let tried = all.as_slice();
        let list = sent_for(self.allocator(), capability, tried)?;
        let sent = list.as_slice();
        let subject = text.subject;
        let trial = Trial {
            subject,
            tried,
            sent,
        };
        self.push_numbers_remarks(capability, &trial)?;
        Ok(())
    }

    /// The same, but a text that is kept as one of which nothing is reported is not tried again.
    fn push_of_numbers(
        &mut self,
        trials: &mut Trials<A>,
        capability: &Capability<'_>,
        text: &RangedText<'a>,
    ) -> Result<(), AllocError>
        requires { capability.now ≡ text.now.subject.text.now }
        ensures { OnOk result (Gains (IsNumbersReport (is_ansi_entry self.old.on.entry) text.now.subject.name.now
            text.now.subject.text.now text.now.range) self.old self.new) }
    {
        let ansi = self.is_ansi();
        if trials.is_quiet(ansi, text.subject.text, text.range) {
            return Ok(());
        }
        let count = self.count();
        self.push_tried_numbers(capability, text)?;
        if self.count() == count {
            trials.keep_quiet(self.allocator(), ansi, text.subject.text, text.range)?;
        }
        Ok(())
    }

    /// Adds the remarks on a capability that is tried over all sets of attributes. What it sends is kept.
    fn push_of_attributes(
        &mut self,
        trials: &mut Trials<A>,
        capability: &Capability<'_>,
        subject: &NamedText<'a>,
    ) -> Result<(), AllocError>
        requires { capability.now ≡ subject.now.text.now }
        ensures { OnOk result (Gains (IsAttributesReport self.old.on.entry
            subject.now.name.now subject.now.text.now) self.old self.new) }
    {
        let all = values_of(self.allocator(), Range::Attributes)?;
        let tried = all.as_slice();
        let subject = *subject;
        if let Some(sent) = trials.sent_for(subject.text) {
            return self.push_attributes_remarks(&Trial {
                subject,
                tried,
                sent,
            });
        }
        let list = sent_for(self.allocator(), capability, tried)?;
        let sent = list.as_slice();
        self.push_attributes_remarks(&Trial {
            subject,
            tried,
            sent,
        })?;
        trials.keep_sent(self.allocator(), subject.text, list)?;
        Ok(())
    }

    /// Adds the remarks on a capability that is tried over the values of a range.
    fn push_values_of(
        &mut self,
        trials: &mut Trials<A>,
        capability: &Capability<'_>,
        text: &RangedText<'a>,
    ) -> Result<(), AllocError>
        requires { capability.now ≡ text.now.subject.text.now }
        ensures { OnOk result (Gains (IsRangeReport self.old.on.entry text.now.subject.name.now
            text.now.subject.text.now text.now.range) self.old self.new) }
    {
        match text.range {
            Range::Attributes => { self.push_of_attributes(trials, capability, &text.subject) }
            Range::Numbers(_, _) | Range::Places(_, _) | Range::Regions(_) => {
                self.push_of_numbers(trials, capability, text)
            }
        }
    }

    /// Adds the remarks on a text, if it is a capability: whether it is too long to be tried, or what is wrong with it.
    fn push_ranged_text(
        &mut self,
        trials: &mut Trials<A>,
        text: &RangedText<'a>,
    ) -> Result<(), AllocError>
        ensures { OnOk result (Gains (IsTriedReport self.old.on.entry text.now.subject.name.now
            text.now.subject.text.now text.now.range) self.old self.new) }
    {
        match Capability::parse(text.subject.text) {
            Ok(capability) => {
                if !is_short(&capability) {
                    self.push_on_values(&text.subject, Finding::NotTried, Evidence::None)?;
                    return Ok(());
                }
                self.push_values_of(trials, &capability, text)?;
                Ok(())
            }
            Err(_) => Ok(()),
        }
    }

    /// Adds the remarks on the text with a name, if it is there.
    fn push_named(
        &mut self,
        trials: &mut Trials<A>,
        row: (&'static str, Range),
    ) -> Result<(), AllocError>
        ensures { OnOk result (Gains (IsTriedReportOf self.old.on.entry row.entry.0.now
            (text_named self.old.on.entry row.entry.0.now) row.entry.1) self.old self.new) }
    {
        let Text::Value(text) = text_named(self.entry(), row.0) else {
            return Ok(());
        };
        let name = row.0.as_bytes();
        let text = RangedText {
            subject: NamedText { name, text },
            range: row.1,
        };
        self.push_ranged_text(trials, &text)
    }

    /// Adds the remarks on some texts, each with its range.
    fn push_rows(
        &mut self,
        trials: &mut Trials<A>,
        rows: &[(&'static str, Range)],
    ) -> Result<(), AllocError>
        ensures { OnOk result (Gains (AreReports (IsNamedTriedReport self.old.on.entry) 0
            (map row_of rows.now)) self.old self.new) }
    {
        'rows: for (name, range) in rows {
            self.push_named(trials, (*name, *range))?;
        }
        Ok(())
    }

    /// Adds the remarks on all texts that are tried over values.
    pub fn push_values(&mut self, trials: &mut Trials<A>) -> Result<(), AllocError>
        ensures { OnOk result (Gains (AreValueRemarks self.old.on.entry) self.old self.new) }
    {
        let entry = self.entry();
        let lines = number_named(entry, "lines");
        let columns = number_named(entry, "cols");
        let colors = number_named(entry, "colors");
        let rows = tried_texts(lines, columns, colors);
        self.push_rows(trials, &rows)?;
        Ok(())
    }
}
