//! What the strings of an entry make a terminal do, held against the table of what they may.

ghost use Rattle.std.specs.Prelude.{◌≡◌, ◌≤◌, ◌++◌, ◌∷◌, [], IfOk, OnOk, codes, drop, length, take};
ghost use Rattle.ti_rules.specs.Controls.{AreControlRemarks, AreControlsBy, AreControlsOf, AreOnLooks, AreUnknownControls, asked, folded_by, folds, left_evidence, looks_of, look as looked_as, on_left, plain_sending, titled, with_title};
ghost use Rattle.ti_rules.specs.Controls as TheSending;
ghost use Rattle.ti_rules.specs.inner.Growing.{Gains, GainsThese};
ghost use Rattle.ti_rules.specs.inner.Held.{evidence_held, sending_held, text_held, texts_held, unknown_held, unknowns_held};
ghost use Rattle.ti_rules.specs.Lines.{AreAll};
ghost use Rattle.ti_rules.specs.Values.{text_named};
ghost use Rattle.ti_words.specs.Texts.{text_value};

use crate::control_remarks::{Looked, add_look};
use crate::ecma::is_ecma_entry;
use crate::finding::Finding;
use crate::judged::Terminal;
use crate::looked::{known_fitting, names_of, unknown_fitting};
use crate::lookup::text_named;
use crate::remark::{About, Evidence, NamedText};
use crate::report::Report;
use crate::sending::{Sending, stands, takes_title, with_title};
use crate::subject::{KnownText, unknown_texts};
use std::alloc::{AllocError, Allocator};
use ti_allow::doubled;
use ti_control::is_sent;
use ti_lint::{Level, LintOptions};
use ti_names::Class;
use ti_words::Text;

/// The names of texts that are left, if the entry comes from a stranger.
fn left_evidence<A: Allocator>(
    alloc: A,
    untrusted: bool,
    names: &[u8],
) -> Result<Evidence<A>, AllocError>
    ensures { IfOk result (λ evidence. evidence_held evidence ≡ left_evidence untrusted names.now) }
{
    if untrusted {
        let names = names.to_vec(alloc)?;
        return Ok(Evidence::Named(names));
    }
    Ok(Evidence::None)
}

/// Whether the findings on an entry's strings are one line.
fn folds(options: LintOptions, is_ecma: bool, count: usize) -> bool
    ensures { result ≡ folds options is_ecma count }
{
    match options.level {
        Level::Errors => options.untrusted && !is_ecma && count > 1,
        Level::All => false,
    }
}

impl<'r, 'a, A: Allocator + Copy> Report<'r, 'a, A> {
    /// Adds the remarks on a string, as it is sent.
    fn push_look(
        &mut self,
        terminal: &Terminal<'_>,
        look: &Looked<'a>,
        sending: Sending<'_>,
    ) -> Result<(), AllocError>
        ensures { OnOk result (Gains (AreOnLooks terminal.now.untrusted
            (asked look.now.name.now (sending_held sending.entry) ∷ [])) self.old self.new) }
    {
        let found = self.found_in(look.name, sending)?;
        let mut remarks = Vec::new(self.allocator());
        add_look(
            &mut remarks,
            self.allocator(),
            terminal,
            look,
            found.as_slice(),
        )?;
        self.extend(remarks)?;
        Ok(())
    }

    /// Adds the remarks on a string with its title and what ends it.
    fn push_titled(
        &mut self,
        terminal: &Terminal<'_>,
        look: &Looked<'a>,
        text: &[u8],
        end: &[u8],
    ) -> Result<(), AllocError>
        ensures { OnOk result (Gains (AreOnLooks terminal.now.untrusted (asked look.now.name.now
            (TheSending.Expanded (with_title text.now end.now)) ∷ [])) self.old self.new) }
    {
        let bytes = with_title(self.allocator(), text, end)?;
        self.push_look(terminal, look, Sending::Expanded(bytes.as_slice()))?;
        Ok(())
    }

    /// Adds the remarks on a string that a program gives parameters.
    fn push_expanded(
        &mut self,
        terminal: &Terminal<'_>,
        subject: &NamedText<'a>,
    ) -> Result<(), AllocError>
        ensures { OnOk result (Gains (AreOnLooks terminal.now.untrusted (looked_as terminal.now.untrusted subject.now.name.now subject.now.text.now (TheSending.Expanded
            (titled (text_value terminal.now.end) subject.now.name.now subject.now.text.now)) ∷ [])) self.old self.new) }
    {
        let sending = Sending::Expanded(subject.text);
        let look = Looked::of(terminal.untrusted, subject, stands(sending));
        match (takes_title(subject.name), terminal.end) {
            (true, Text::Value(end)) => self.push_titled(terminal, &look, subject.text, end),
            _ => self.push_look(terminal, &look, sending),
        }
    }

    /// Adds the remarks on a string that is sent as it stands.
    fn push_plain(
        &mut self,
        terminal: &Terminal<'_>,
        subject: &NamedText<'a>,
    ) -> Result<(), AllocError>
        ensures { OnOk result (Gains (AreOnLooks terminal.now.untrusted (looked_as terminal.now.untrusted subject.now.name.now subject.now.text.now
            (plain_sending (text_value terminal.now.end) subject.now.name.now subject.now.text.now) ∷ [])) self.old self.new) }
    {
        let look = Looked::of(terminal.untrusted, subject, true);
        match (takes_title(subject.name), terminal.end) {
            (true, Text::Value(end)) => {
                let text = doubled(self.allocator(), subject.text)?;
                self.push_titled(terminal, &look, text.as_slice(), end)?;
                Ok(())
            }
            _ => self.push_look(terminal, &look, Sending::AsItStands(subject.text)),
        }
    }

    /// Adds the remarks on a text, as it is sent, if it is.
    fn push_sent_as(
        &mut self,
        terminal: &Terminal<'_>,
        text: &KnownText<'a>,
    ) -> Result<(), AllocError>
        ensures { OnOk result (Gains (AreOnLooks terminal.now.untrusted
            (looks_of terminal.now.untrusted (text_value terminal.now.end) (text_held text.now))) self.old self.new) }
    {
        match (is_sent(text.subject.name), text.class) {
            (true, Class::Plain) => {
                self.push_plain(terminal, &text.subject)?;
                Ok(())
            }
            (true, Class::Parameterized(_)) => {
                self.push_expanded(terminal, &text.subject)?;
                Ok(())
            }
            _ => Ok(()),
        }
    }

    /// Adds the remarks on a text, as it is sent, and by the rules that are its own.
    fn push_controls_of(
        &mut self,
        terminal: &Terminal<'_>,
        text: &KnownText<'a>,
    ) -> Result<(), AllocError>
        ensures { OnOk result (Gains (AreControlsOf terminal.now.untrusted (text_value terminal.now.end) (text_held text.now))
            self.old self.new) }
    {
        self.push_sent_as(terminal, text)?;
        self.push_own(terminal.untrusted, &text.subject)?;
        Ok(())
    }

    /// Adds the remarks on a text of which nothing is known: expanded, and as it stands.
    fn push_unknown(
        &mut self,
        terminal: &Terminal<'_>,
        subject: &NamedText<'a>,
    ) -> Result<(), AllocError>
        ensures { OnOk result (Gains (AreUnknownControls terminal.now.untrusted (unknown_held subject.now))
            self.old self.new) }
    {
        let mut remarks = Vec::new(self.allocator());
        let expanded = Sending::Expanded(subject.text);
        let look = Looked::of(terminal.untrusted, subject, stands(expanded));
        let found = self.found_in(look.name, expanded)?;
        add_look(
            &mut remarks,
            self.allocator(),
            terminal,
            &look,
            found.as_slice(),
        )?;
        let plain = Looked::of(terminal.untrusted, subject, true);
        let found = self.found_in(plain.name, Sending::AsItStands(subject.text))?;
        add_look(
            &mut remarks,
            self.allocator(),
            terminal,
            &plain,
            found.as_slice(),
        )?;
        self.extend(remarks)?;
        Ok(())
    }

    /// Adds the remarks on some texts of which it is known what they are.
    fn push_known_controls(
        &mut self,
        terminal: &Terminal<'_>,
        texts: &[KnownText<'a>],
    ) -> Result<(), AllocError>
        ensures { OnOk result (Gains (AreAll (AreControlsOf terminal.now.untrusted (text_value terminal.now.end)) (texts_held texts.now))
            self.old self.new) }
    {
        'texts: for text in texts {
            self.push_controls_of(terminal, text)?;
        }
        Ok(())
    }

    /// Adds the remarks on some others.
    fn push_unknown_controls(
        &mut self,
        terminal: &Terminal<'_>,
        texts: &[NamedText<'a>],
    ) -> Result<(), AllocError>
        ensures { OnOk result (Gains (AreAll (AreUnknownControls terminal.now.untrusted) (unknowns_held texts.now))
            self.old self.new) }
    {
        'texts: for text in texts {
            self.push_unknown(terminal, text)?;
        }
        Ok(())
    }

    /// Adds the remark that texts are left, whose names come after a space each, if there are any.
    fn push_left(&mut self, untrusted: bool, spaced: &[u8]) -> Result<(), AllocError>
        ensures { OnOk result (GainsThese (on_left untrusted spaced.now) self.old self.new) }
    {
        let [_, names @ ..] = spaced else {
            return Ok(());
        };
        let evidence = left_evidence(self.allocator(), untrusted, names)?;
        let places = Vec::new(self.allocator());
        self.push(About::Entry, places, Finding::NotAllTried, evidence)
    }

    /// Adds the remarks on the texts of an entry of the terminal, and the one that not all were looked at.
    fn push_controls_by(&mut self, terminal: &Terminal<'_>) -> Result<(), AllocError>
        requires { text_value terminal.now.end ≡ text_named self.old.on.entry (codes "fsl") }
        ensures { OnOk result (Gains (AreControlsBy terminal.now.untrusted self.old.on.entry) self.old self.new) }
    {
        let known = self.texts();
        let unknown = unknown_texts(self.allocator(), self.entry())?;
        let others = unknown.as_slice();
        let (end, others_end) = (known_fitting(known), unknown_fitting(others));
        self.push_known_controls(terminal, &known[..end])?;
        self.push_unknown_controls(terminal, &others[..others_end])?;
        let names = names_of(self.allocator(), &known[end..], &others[others_end..])?;
        self.push_left(terminal.untrusted, names.as_slice())?;
        Ok(())
    }

    /// Puts one remark in the place of those after the first so many, if they are of a stranger's entry that is not of ECMA-48.
    fn fold(&mut self, is_ecma: bool, first: usize) -> Result<(), AllocError>
        requires { first ≤ length self.old.remarks }
        ensures kept { OnOk result (self.new.on ≡ self.old.on) }
        ensures folded { OnOk result (self.new.remarks ≡ take first self.old.remarks
            ++ folded_by self.old.on.options is_ecma (drop first self.old.remarks)) }
    {
        let count = self.count() - first;
        if folds(self.options(), is_ecma, count) {
            self.truncate(first);
            let places = Vec::new(self.allocator());
            return self.push(
                About::Entry,
                places,
                Finding::NotEcma,
                Evidence::Count(count),
            );
        }
        Ok(())
    }

    /// Adds the remarks on what the strings of an entry make a terminal do.
    pub fn push_controls(&mut self) -> Result<(), AllocError>
        ensures { OnOk result (Gains (AreControlRemarks self.old.on.options self.old.on.entry) self.old self.new) }
    {
        let entry = self.entry();
        let terminal = Terminal {
            untrusted: self.untrusted(),
            is_ecma: is_ecma_entry(entry),
            end: text_named(entry, "fsl"),
        };
        let first = self.count();
        self.push_controls_by(&terminal)?;
        self.fold(terminal.is_ecma, first)?;
        Ok(())
    }
}
