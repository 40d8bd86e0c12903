//! All that is wrong with a capability, as a list.

ghost use Rattle.std.specs.Prelude.{◌≡◌, ◌↔◌, ◌++◌, Contains, AllPairs, IfOk, OnOk};
ghost use Rattle.ti_lint.specs.Found.{IsFoundAt, Precedes};
ghost use Rattle.ti_lint.specs.declared.placed_finding.PlacedFinding.{PlacedFinding};
ghost use Rattle.ti_lint.specs.inner.Found.{found_at};

use crate::expected::Expected;
use crate::findings::Findings;
use crate::token_finding::TokenFinding;
use std::alloc::{AllocError, Allocator};
use ti_cap::Capability;

/// A finding on a capability, and its place.
#[derive(Clone, Copy, Debug, PartialEq, Eq)]
pub struct PlacedFinding {
    /// The number of bytes before the token.
    pub place: usize,
    /// The finding.
    pub finding: TokenFinding,
}

/// All findings of a capability, in order of their places; those at one place are in the order of [`TokenFinding`]. It goes over the
/// tokens three times, and takes memory for each token and finding.
pub fn findings_of<A: Allocator + Copy>(
    alloc: A,
    capability: &Capability<'_>,
    expected: Expected,
) -> Result<Vec<PlacedFinding, A>, AllocError>
    ensures exact { IfOk result (λ list. (one : PlacedFinding)
        → Contains list.items one ↔ IsFoundAt capability.now expected one) }
    ensures order { IfOk result (λ list. AllPairs Precedes list.items) }
{
    let mut findings = Findings::new(alloc, capability, expected)?;
    let mut list = Vec::new(alloc);
    let mut place = 0;
    while let Some(judged) = findings.token() {
        note(&mut list, place, judged.before)?;
        note(&mut list, place, judged.after)?;
        note(&mut list, place, judged.within)?;
        place = findings.at();
    }
    Ok(list)
}

/// Adds a finding to a list, if there is one.
fn note<A: Allocator>(
    list: &mut Vec<PlacedFinding, A>,
    place: usize,
    finding: Option<TokenFinding>,
) -> Result<(), AllocError>
    ensures { OnOk result (list.new.items ≡ list.old.items ++ found_at place finding) }
{
    if let Some(finding) = finding {
        list.push(PlacedFinding { place, finding })?;
    }
    Ok(())
}
