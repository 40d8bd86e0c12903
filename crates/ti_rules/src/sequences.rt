//! Texts that are sent as they stand and have a control sequence that is not ended.

ghost use Rattle.std.specs.Prelude.{OnOk};
ghost use Rattle.ti_rules.specs.Sequences.{AreSequenceRemarks, IsSequenceOf, IsSequenceReport};
ghost use Rattle.ti_rules.specs.inner.Growing.{Gains};
ghost use Rattle.ti_rules.specs.inner.Held.{text_held};

use crate::remark::{Evidence, NamedText};
use crate::report::Report;
use crate::splits::text_finding;
use crate::subject::KnownText;
use std::alloc::{AllocError, Allocator};
use ti_names::Class;
use ti_values::has_unended;

impl<'r, 'a, A: Allocator + Copy> Report<'r, 'a, A> {
    /// Adds the remark on a text, if it has one.
    fn push_sequence(&mut self, subject: &NamedText<'a>) -> Result<(), AllocError>
        ensures { OnOk result (Gains (IsSequenceReport subject.now.name.now
            subject.now.text.now) self.old self.new) }
    {
        if has_unended(subject.text) {
            self.push_on_values(subject, text_finding(subject.text), Evidence::None)?;
            return Ok(());
        }
        Ok(())
    }

    /// The same, if it is a text of terminfo(5) that is sent as it stands, to a terminal of ECMA-48.
    fn push_sequence_of(&mut self, ansi: bool, text: &KnownText<'a>) -> Result<(), AllocError>
        ensures { OnOk result (Gains (IsSequenceOf ansi (text_held text.now)) self.old self.new) }
    {
        match (ansi, text.standard, text.class) {
            (true, true, Class::Plain) => self.push_sequence(&text.subject),
            _ => Ok(()),
        }
    }

    /// Adds the remarks on all texts.
    pub fn push_sequences(&mut self) -> Result<(), AllocError>
        ensures { OnOk result (Gains (AreSequenceRemarks self.old.on.entry) self.old self.new) }
    {
        let ansi = self.is_ansi();
        'texts: for text in self.texts() {
            self.push_sequence_of(ansi, text)?;
        }
        Ok(())
    }
}
