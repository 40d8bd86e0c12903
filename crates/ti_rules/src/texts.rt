//! The judgement of a text: what is wrong with it by how it is used, whatever its name is.

ghost use Rattle.std.specs.Prelude.{◌≡◌, ◌++◌, ◌∷◌, [], IfOk, OnOk, None, if◌then◌else◌};
ghost use Rattle.ti_rules.specs.Constants.{IsTestsReport};
ghost use Rattle.ti_rules.specs.Lines.{Adds, AreReports, InTurn};
ghost use Rattle.ti_rules.specs.Remarks.{NoEvidence, placed, unplaced};
ghost use Rattle.ti_rules.specs.inner.Held.{evidence_held};
ghost use Rattle.ti_rules.specs.Texts.{AreUnused, IsCapabilityReport, IsEscapeReport, IsFindingReport, IsFindingsReport, IsJudged, IsKeyReport, IsPercentReport, IsPlacesReport, IsPlainReport, IsUnusedReport, all_findings, delay_remarks, empty_key, evidence_of as the_evidence, expected_in, half_paired, on_delays, unused_finding, unused_remarks};

use crate::finding::Finding;
use crate::marks::{Sought, escapes_of, places_at, places_of};
use crate::remark::Evidence;
use crate::text_remarks::TextRemarks;
use crate::usage::Usage;
use std::alloc::{AllocError, Allocator};
use ti_cap::{CapRefused, Capability, ParameterSet};
use ti_lint::{
    Expected, PlacedFinding, TokenFinding, findings_of, is_half_paired, unused_parameters,
};
use ti_names::Class;
use ti_pad::{first_long_delay, total_delay};

/// The findings of tokens, in the order in which they are reported.
static ALL_FINDINGS: [TokenFinding; 13] = [
    TokenFinding::StackUnderflow,
    TokenFinding::TermcapParameter,
    TokenFinding::StackResidue,
    TokenFinding::ParameterRange,
    TokenFinding::RepeatedIncrement,
    TokenFinding::UnusedIncrement,
    TokenFinding::LateIncrement,
    TokenFinding::UnsetVariable,
    TokenFinding::DeadStore,
    TokenFinding::OperandType,
    TokenFinding::NoEffect,
    TokenFinding::ConstantCondition,
    TokenFinding::RepeatedCondition,
];

/// The findings, as a slice.
#[tactic(auto, unfolding(crate::specs::Texts::all_findings))]
fn all_findings() -> &'static [TokenFinding]
    ensures { result.now ≡ all_findings }
{
    &ALL_FINDINGS
}

/// A parameter beyond the last one comes with that.
fn evidence_of<A: Allocator>(finding: TokenFinding, parameters: u8) -> Evidence<A>
    ensures { evidence_held result ≡ the_evidence finding parameters }
{
    match finding {
        TokenFinding::ParameterRange => Evidence::Last(parameters),
        _ => Evidence::None,
    }
}

/// Returns the finding on parameters that nothing pushes.
fn unused_finding(usage: Usage) -> Finding
    ensures { result ≡ unused_finding usage }
{
    if usage.has_column {
        return Finding::UnusedColumn;
    }
    Finding::UnusedParameter
}

impl<A: Allocator + Copy> TextRemarks<A> {
    ghost use Rattle.std.specs.Prelude.{◌≡◌, ◌++◌};

    /// Adds the remarks on a finding.
    fn push_found(
        &mut self,
        capability: &Capability<'_>,
        founds: &[PlacedFinding],
        finding: TokenFinding,
        parameters: u8,
    ) -> Result<(), AllocError>
        ensures { OnOk result (Adds (IsFindingReport capability.now parameters founds.now 0 finding)
            self.old self.new) }
    {
        match finding {
            TokenFinding::ConstantCondition => self.push_tests(capability),
            _ => {
                let places = places_of(self.allocator(), founds, finding)?;
                self.push_at(
                    places,
                    Finding::Token(finding),
                    evidence_of(finding, parameters),
                )
            }
        }
    }

    /// Adds the remarks on each finding that was found.
    fn push_founds(
        &mut self,
        capability: &Capability<'_>,
        founds: &[PlacedFinding],
        parameters: u8,
    ) -> Result<(), AllocError>
        ensures { OnOk result (Adds
            (AreReports (IsFindingReport capability.now parameters founds.now) 0 all_findings)
            self.old self.new) }
    {
        'findings: for finding in all_findings() {
            self.push_found(capability, founds, *finding, parameters)?;
        }
        Ok(())
    }

    /// Adds the remark on parameters that are left out, but not if values were taken from the empty stack in their place.
    fn push_left_out(
        &mut self,
        usage: Usage,
        unused: ParameterSet,
        from_empty: &[usize],
    ) -> Result<(), AllocError>
        ensures { OnOk result
            (self.new ≡ self.old ++ unused_remarks usage unused from_empty.now) }
    {
        if !from_empty.is_empty() || unused.mask == 0 || usage.may_leave_out {
            return Ok(());
        }
        self.push(unused_finding(usage), Evidence::Parameters(unused))
    }

    /// The same of a capability.
    fn push_unused(
        &mut self,
        usage: Usage,
        capability: &Capability<'_>,
        parameters: u8,
        founds: &[PlacedFinding],
    ) -> Result<(), AllocError>
        ensures { OnOk result (Adds (IsUnusedReport usage capability.now parameters founds.now)
            self.old self.new) }
    {
        let unused = unused_parameters(capability, parameters);
        let from_empty = places_of(self.allocator(), founds, TokenFinding::TermcapParameter)?;
        self.push_left_out(usage, unused, from_empty.as_slice())?;
        Ok(())
    }

    /// Adds the remarks on the findings of a capability.
    fn push_findings(
        &mut self,
        usage: Usage,
        parameters: u8,
        capability: &Capability<'_>,
    ) -> Result<(), AllocError>
        ensures { OnOk result (Adds (IsFindingsReport usage parameters capability.now)
            self.old self.new) }
    {
        let expected = Expected {
            parameters,
            texts: usage.texts,
            stored: usage.stored,
        };
        let list = findings_of(self.allocator(), capability, expected)?;
        let founds = list.as_slice();
        self.push_founds(capability, founds, parameters)?;
        self.push_unused(usage, capability, parameters, founds)?;
        Ok(())
    }

    /// Adds the remark on a text that is no capability.
    fn push_malformed(&mut self, refused: CapRefused) -> Result<(), AllocError>
        ensures { OnOk result (self.new
            ≡ self.old ++ placed (refused.place ∷ []) (Finding.Malformed refused.fault) NoEvidence) }
    {
        let mut places = Vec::new(self.allocator());
        places.push(refused.place)?;
        self.push_at(places, Finding::Malformed(refused.fault), Evidence::None)
    }

    /// Adds the remarks on a text with parameters.
    fn push_capability(
        &mut self,
        usage: Usage,
        parameters: u8,
        text: &[u8],
    ) -> Result<(), AllocError>
        ensures { OnOk result (Adds (IsCapabilityReport usage parameters text.now)
            self.old self.new) }
    {
        match Capability::parse(text) {
            Ok(capability) => {
                self.push_findings(usage, parameters, &capability)?;
                Ok(())
            }
            Err(refused) => self.push_malformed(refused),
        }
    }

    /// Adds the remarks on the places at which something stands that should not.
    fn push_places(
        &mut self,
        text: &[u8],
        sought: Sought,
        finding: Finding,
    ) -> Result<(), AllocError>
        ensures { OnOk result (Adds (IsPlacesReport sought finding text.now) self.old self.new) }
    {
        let places = places_at(self.allocator(), text, sought)?;
        self.push_at(places, finding, Evidence::None)
    }

    /// Adds the remarks on what only an expansion takes away.
    fn push_percents(&mut self, text: &[u8]) -> Result<(), AllocError>
        ensures { OnOk result (Adds (IsPercentReport text.now) self.old self.new) }
    {
        self.push_places(text, Sought::Percents, Finding::UninterpretedPercent)
    }

    /// Adds the remarks on tokens that are meant to be expanded.
    fn push_escapes(&mut self, text: &[u8]) -> Result<(), AllocError>
        ensures { OnOk result (Adds (IsEscapeReport text.now) self.old self.new) }
    {
        let places = escapes_of(self.allocator(), text)?;
        self.push_at(places, Finding::UninterpretedEscape, Evidence::None)
    }

    /// Adds the remarks on a text that is sent as it stands.
    fn push_plain(&mut self, text: &[u8]) -> Result<(), AllocError>
        ensures { OnOk result (Adds (IsPlainReport text.now) self.old self.new) }
    {
        self.push_escapes(text)?;
        self.push_percents(text)?;
        self.push_places(text, Sought::FalseMark, Finding::FalseMark)?;
        Ok(())
    }

    /// Adds the remark on a key that sends nothing.
    fn push_empty_key(&mut self, text: &[u8]) -> Result<(), AllocError>
        ensures { OnOk result (self.new ≡ self.old ++ empty_key text.now) }
    {
        if text.is_empty() {
            return self.push(Finding::EmptyKey, Evidence::None);
        }
        Ok(())
    }

    /// Adds the remark on the place of a mark that is long.
    fn push_long_delay(&mut self, place: usize) -> Result<(), AllocError>
        ensures { OnOk result (self.new ≡ self.old ++ placed (place ∷ []) Finding.LongDelay NoEvidence) }
    {
        let mut places = Vec::new(self.allocator());
        places.push(place)?;
        self.push_at(places, Finding::LongDelay, Evidence::None)
    }

    /// Adds the remark on marks that are long together.
    fn push_long_delays(&mut self, text: &[u8]) -> Result<(), AllocError>
        ensures { OnOk result (self.new ≡ self.old ++ on_delays None text.now) }
    {
        if total_delay(text) > 20_000 {
            return self.push(Finding::LongDelays, Evidence::None);
        }
        Ok(())
    }

    /// Adds the remark on the first mark that is long, or on all marks if they are long together.
    fn push_delays_from(&mut self, first: Option<usize>, text: &[u8]) -> Result<(), AllocError>
        ensures { OnOk result (self.new ≡ self.old ++ on_delays first text.now) }
    {
        match first {
            Some(place) => self.push_long_delay(place),
            None => self.push_long_delays(text),
        }
    }

    /// Adds the remark on delays.
    fn push_delays(&mut self, text: &[u8]) -> Result<(), AllocError>
        ensures { OnOk result (self.new ≡ self.old ++ delay_remarks text.now) }
    {
        self.push_delays_from(first_long_delay(text), text)?;
        Ok(())
    }

    /// Adds the remarks on what a key sends.
    fn push_key(&mut self, text: &[u8]) -> Result<(), AllocError>
        ensures { OnOk result (Adds (IsKeyReport text.now) self.old self.new) }
    {
        self.push_empty_key(text)?;
        self.push_percents(text)?;
        self.push_places(text, Sought::Mark, Finding::MarkInKey)?;
        Ok(())
    }

    /// Adds the remark on a list of pairs that is cut.
    fn push_half_paired(&mut self, has_pairs: bool, text: &[u8]) -> Result<(), AllocError>
        ensures { OnOk result (self.new ≡ self.old ++ half_paired has_pairs text.now) }
    {
        if has_pairs && is_half_paired(text) {
            return self.push(Finding::HalfPaired, Evidence::None);
        }
        Ok(())
    }

    /// Adds the remarks on a text with parameters, and on its delays.
    fn push_expanded(&mut self, usage: Usage, parameters: u8, text: &[u8]) -> Result<(), AllocError>
        ensures { OnOk result (Adds (InTurn (IsCapabilityReport usage parameters text.now)
            (λ all. all ≡ delay_remarks text.now)) self.old self.new) }
    {
        self.push_capability(usage, parameters, text)?;
        self.push_delays(text)?;
        Ok(())
    }

    /// The same of a text that is sent as it stands.
    fn push_sent(&mut self, text: &[u8]) -> Result<(), AllocError>
        ensures { OnOk result (Adds (InTurn (IsPlainReport text.now)
            (λ all. all ≡ delay_remarks text.now)) self.old self.new) }
    {
        self.push_plain(text)?;
        self.push_delays(text)?;
        Ok(())
    }

    /// Adds the remarks on a text by its use.
    fn push_judgement(&mut self, usage: Usage, text: &[u8]) -> Result<(), AllocError>
        ensures { OnOk result (Adds (IsJudged usage text.now) self.old self.new) }
    {
        match usage.class {
            Class::Parameterized(parameters) => self.push_expanded(usage, parameters, text),
            Class::Plain => self.push_sent(text),
            Class::Key => self.push_key(text),
            Class::List => self.push_half_paired(usage.has_pairs, text),
            Class::Label | Class::File | Class::Character | Class::Input => Ok(()),
        }
    }
}

/// The judgement of a text.
pub fn judge<A: Allocator + Copy>(
    alloc: A,
    usage: Usage,
    text: &[u8],
) -> Result<TextRemarks<A>, AllocError>
    ensures { IfOk result (IsJudged usage text.now) }
{
    let mut remarks = TextRemarks::new(alloc);
    remarks.push_judgement(usage, text)?;
    Ok(remarks)
}
