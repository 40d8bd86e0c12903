//! The report on an entry.

ghost use Rattle.std.specs.Prelude.{◌≡◌, ◌∷◌, [], IfOk, OnOk, length, take};
ghost use Rattle.ti_allow.specs.Harmless.{IsSilent};
ghost use Rattle.ti_rules.specs.Controls.{Keeps};
ghost use Rattle.ti_rules.specs.Lines.{Adds};
ghost use Rattle.ti_rules.specs.Reports.{AreRemarks, AreTextRemarks, IsFindingCount, IsReport, IsUseReport};
ghost use Rattle.ti_rules.specs.Reported.{reported as the_reported};
ghost use Rattle.ti_rules.specs.Subjects.{known_texts};
ghost use Rattle.ti_rules.specs.inner.Growing.{Gains, GainsThese};
ghost use Rattle.ti_rules.specs.Names.{on_name};
ghost use Rattle.ti_rules.specs.Remarks.{NoEvidence, OfTwo, on_values, unmarked};
ghost use Rattle.ti_rules.specs.Values.{is_ansi_entry as the_is_ansi};
ghost use Rattle.ti_rules.specs.Whole.{found_if};
ghost use Rattle.ti_rules.specs.inner.Held.{about_held, evidence_held, sending_held, texts_held};

use crate::finding::Finding;
use crate::harmless::Harmless;
use crate::judgements::Judgements;
use crate::lookup::is_ansi_entry;
use crate::remark::{About, Evidence, NamedText, Remark};
use crate::reported::reported;
use crate::sending::Sending;
use crate::stored::stored_by_texts;
use crate::subject::{KnownText, known_texts};
use crate::texts::judge;
use crate::trials::Trials;
use crate::usage::Usage;
use std::alloc::{AllocError, Allocator};
use std::marker::Model;
use ti_allow::Found;
use ti_entry::Entry;
use ti_lint::LintOptions;

/// The findings on an entry: remarks, in order. Each rule adds its own.
#[derive(Drop)]
pub struct Report<'r, 'a, A: Allocator> {
    alloc: A,
    bytes: &'r [u8],
    entry: &'r Entry<'a>,
    texts: &'r [KnownText<'a>],
    options: LintOptions,
    remarks: Vec<Remark<'a, A>, A>,
    harmless: Harmless<A>,
}

impl<'r, 'a, A: Allocator> Model for Report<'r, 'a, A> {
    ghost use Rattle.std.specs.Prelude.{◌≡◌};
    ghost use Rattle.ti_rules.specs.Reported.{reported as the_reported};
    ghost use Rattle.ti_rules.specs.Subjects.{known_texts};
    ghost use Rattle.ti_rules.specs.inner.Growing.{Report as TheReport};
    ghost use Rattle.ti_rules.specs.inner.Held.{texts_held};

    ghost Value = { TheReport };

    ghost view = { λ r. record {
      on = record { bytes = r.bytes.now; entry = r.entry.now; options = r.options };
      remarks = r.remarks.items;
    } };

    ghost invariant = { λ r. texts_held r.texts.now ≡ known_texts r.entry.now };
}

impl<'r, 'a, A: Allocator + Copy> Report<'r, 'a, A> {
    /// None on an entry that was read from the bytes and has these texts, which takes no memory.
    fn new(
        alloc: A,
        bytes: &'r [u8],
        entry: &'r Entry<'a>,
        texts: &'r [KnownText<'a>],
        options: LintOptions,
    ) -> Self
        requires { texts_held texts.now ≡ known_texts entry.now }
        ensures { result ≡ record {
          on = record { bytes = bytes.now; entry = entry.now; options = options };
          remarks = [];
        } }
    {
        Report {
            alloc,
            bytes,
            entry,
            texts,
            options,
            remarks: Vec::new(alloc),
            harmless: Harmless::new(alloc),
        }
    }

    /// Returns the allocator.
    pub fn allocator(&self) -> A {
        self.alloc
    }

    /// The bytes that the entry was read from.
    pub fn bytes(&self) -> &'r [u8]
        ensures { result.now ≡ self.now.on.bytes }
    {
        self.bytes
    }

    /// The entry.
    pub fn entry(&self) -> &'r Entry<'a>
        ensures { result.now ≡ self.now.on.entry }
    {
        self.entry
    }

    /// The names of the entry.
    pub fn names(&self) -> &'a [u8]
        ensures { result.now ≡ self.now.on.entry.names }
    {
        self.entry.names()
    }

    /// The texts of the entry of which it is known what they are.
    pub fn texts(&self) -> &'r [KnownText<'a>]
        ensures { texts_held result.now ≡ known_texts self.now.on.entry }
    {
        self.texts
    }

    /// Whether the motions of the entry are those of a terminal of ECMA-48.
    pub fn is_ansi(&self) -> bool
        ensures { result ≡ the_is_ansi self.now.on.entry }
    {
        is_ansi_entry(self.entry)
    }

    /// Whether the entry comes from a stranger.
    pub fn untrusted(&self) -> bool
        ensures { result ≡ self.now.on.options.untrusted }
    {
        self.options.untrusted
    }

    /// What is looked for.
    pub fn options(&self) -> LintOptions
        ensures { result ≡ self.now.on.options }
    {
        self.options
    }

    /// Drops all remarks but the first so many.
    pub fn truncate(&mut self, count: usize)
        ensures kept { self.new.on ≡ self.old.on }
        ensures first { self.new.remarks ≡ take count self.old.remarks }
    {
        self.remarks.truncate(count);
    }

    /// Adds remarks.
    pub fn extend(&mut self, more: Vec<Remark<'a, A>, A>) -> Result<(), AllocError>
        ensures { OnOk result (GainsThese more.entry.items self.old self.new) }
    {
        let mut more = more;
        self.remarks.append(&mut more)
    }

    /// How many remarks there are.
    pub fn count(&self) -> usize
        ensures { result ≡ length self.now.remarks }
    {
        self.remarks.len()
    }

    /// Exchanges the strings in which nothing was found for those of the trials.
    fn exchange(&mut self, trials: &mut Trials<A>)
        ensures { self.new ≡ self.old }
    {
        trials.exchange(&mut self.harmless);
    }

    /// What a string can do beside what the table has for its name.
    pub fn found_in(
        &mut self,
        name: &[u8],
        sending: Sending<'_>,
    ) -> Result<Vec<Found, A>, AllocError>
        ensures kept { self.new ≡ self.old }
        ensures keeps { IfOk result (λ found. IsSilent found.items → Keeps name.now (sending_held sending.entry)) }
    {
        self.harmless.found_in(self.alloc, name, sending)
    }

    /// The remarks that are reported.
    fn into_reported(self) -> Result<Vec<Remark<'a, A>, A>, AllocError>
        ensures { IfOk result (λ remarks. remarks.items
            ≡ the_reported self.entry.on.options.level self.entry.remarks) }
    {
        reported(self.alloc, self.options.level, self.remarks)
    }

    /// Adds a remark.
    pub fn push(
        &mut self,
        about: About<'a>,
        places: Vec<usize, A>,
        finding: Finding,
        evidence: Evidence<A>,
    ) -> Result<(), AllocError>
        ensures { OnOk result (GainsThese (record {
          about = about_held about.entry;
          places = places.items;
          finding = finding;
          evidence = evidence_held evidence;
        } ∷ []) self.old self.new) }
    {
        self.remarks
            .push(Remark::new(about, places, finding, evidence))?;
        Ok(())
    }

    /// Adds a remark on what is sent by a text.
    pub fn push_on_values(
        &mut self,
        subject: &NamedText<'a>,
        finding: Finding,
        evidence: Evidence<A>,
    ) -> Result<(), AllocError>
        ensures { OnOk result (GainsThese
            (on_values subject.now.name.now subject.now.text.now finding (evidence_held evidence))
            self.old self.new) }
    {
        let places = Vec::new(self.alloc);
        self.push(About::Text(*subject), places, finding, evidence)
    }

    /// Adds a remark on two texts.
    pub fn push_on_two(
        &mut self,
        one: NamedText<'a>,
        other: NamedText<'a>,
        finding: Finding,
    ) -> Result<(), AllocError>
        ensures { OnOk result (GainsThese
            (unmarked (OfTwo one.entry.name.now one.entry.text.now other.entry.name.now other.entry.text.now)
            finding NoEvidence) self.old self.new) }
    {
        let places = Vec::new(self.alloc);
        self.push(About::Two(one, other), places, finding, Evidence::None)
    }

    /// Adds a remark on a name.
    pub fn push_on_name(&mut self, name: &'a [u8], finding: Finding) -> Result<(), AllocError>
        ensures { OnOk result (GainsThese (on_name name.now finding) self.old self.new) }
    {
        let places = Vec::new(self.alloc);
        self.push(About::Name(name), places, finding, Evidence::None)
    }

    /// Adds a remark on the entry, if it is so.
    pub fn push_if(&mut self, found: bool, finding: Finding) -> Result<(), AllocError>
        ensures { OnOk result (GainsThese (found_if found finding) self.old self.new) }
    {
        if !found {
            return Ok(());
        }
        let places = Vec::new(self.alloc);
        self.push(About::Entry, places, finding, Evidence::None)
    }

    /// Adds the remarks on a text that is used so.
    fn push_text(
        &mut self,
        judgements: &mut Judgements<'a, A>,
        usage: Usage,
        subject: &NamedText<'a>,
    ) -> Result<(), AllocError>
        ensures { OnOk result (Gains (IsUseReport usage subject.now.name.now subject.now.text.now)
            self.old self.new) }
    {
        judgements.begin(subject.text);
        if let Some(remarks) = judgements.of(usage, subject.text) {
            return remarks.push_with_name(self, subject);
        }
        let remarks = judge(self.allocator(), usage, subject.text)?;
        remarks.push_with_name(self, subject)?;
        judgements.keep(usage, subject.text, remarks)?;
        Ok(())
    }

    /// Adds the remarks on all texts.
    fn push_texts(&mut self) -> Result<(), AllocError>
        ensures { OnOk result
            (Gains (AreTextRemarks self.old.on.entry) self.old self.new) }
    {
        let texts = self.texts();
        let stored = stored_by_texts(texts);
        let mut judgements = Judgements::new(self.allocator());
        'texts: for text in texts {
            let usage = Usage::of(stored, text.subject.name, text.class);
            self.push_text(&mut judgements, usage, &text.subject)?;
        }
        Ok(())
    }

    /// Adds the remarks of all rules, in order, but those on what strings make a terminal do.
    fn push_all(&mut self, trials: &mut Trials<A>) -> Result<(), AllocError>
        ensures { OnOk result (Gains
            (AreRemarks self.old.on.bytes self.old.on.entry) self.old self.new) }
    {
        self.push_texts()?;
        self.push_values(trials)?;
        self.push_sequences()?;
        self.push_pairs()?;
        self.push_origins()?;
        self.push_keys()?;
        self.push_names()?;
        self.push_name_bytes()?;
        self.push_actions()?;
        self.push_whole()?;
        self.push_divisions()?;
        Ok(())
    }
}

/// Returns the remarks on what is wrong with an entry that was read from the bytes, and, if all is reported, on what many have on
/// purpose, in order. A sound entry has none. Texts that were tried for earlier entries with the same trials are not tried again.
///
/// # Errors
///
/// Memory was refused.
pub fn remarks_of<'a, A: Allocator + Copy>(
    alloc: A,
    trials: &mut Trials<A>,
    options: LintOptions,
    bytes: &[u8],
    entry: &Entry<'a>,
) -> Result<Vec<Remark<'a, A>, A>, AllocError>
    ensures remarks { IfOk result (λ remarks. IsReport options bytes.now entry.now remarks.items) }
{
    let texts = known_texts(alloc, entry)?;
    let mut report = Report::new(alloc, bytes, entry, texts.as_slice(), options);
    report.push_all(trials)?;
    report.exchange(trials);
    report.push_controls()?;
    report.exchange(trials);
    let remarks = report.into_reported()?;
    Ok(remarks)
}

/// How many remarks [`remarks_of`] returns.
///
/// # Errors
///
/// Memory was refused.
pub fn count_findings<A: Allocator + Copy>(
    alloc: A,
    trials: &mut Trials<A>,
    options: LintOptions,
    bytes: &[u8],
    entry: &Entry<'_>,
) -> Result<usize, AllocError>
    ensures { IfOk result (IsFindingCount options bytes.now entry.now) }
{
    let remarks = remarks_of(alloc, trials, options, bytes, entry)?;
    Ok(remarks.len())
}
