//! The remarks on what a string can do beside what the table has for its name.

ghost use Rattle.std.specs.Prelude.{◌≡◌, OnOk, true};
ghost use Rattle.ti_allow.specs.Harmless.{IsSilent};
ghost use Rattle.ti_rules.specs.Controls.{AreControls};
ghost use Rattle.ti_rules.specs.Findings.{is_control};
ghost use Rattle.ti_rules.specs.Own.{asked_name};

use crate::judged::{Terminal, finding_on};
use crate::own::asked_name;
use crate::remark::{About, Evidence, NamedText, Remark};
use crate::words::words_of;
use std::alloc::{AllocError, Allocator};
use ti_allow::{Found, place_in_text};

/// A text under its name, the name by which the table is asked, and whether it is looked at as the capability that writes it.
#[derive(Clone, Copy)]
pub struct Looked<'a> {
    /// The text under its name.
    pub subject: NamedText<'a>,
    /// The name by which the table is asked.
    pub name: &'a [u8],
    /// Whether it is looked at as the capability that writes it.
    pub is_plain: bool,
}

impl<'a> Looked<'a> {
    /// A text that is looked at so.
    pub fn of(untrusted: bool, subject: &NamedText<'a>, is_plain: bool) -> Self
        ensures { result.name.now ≡ asked_name untrusted subject.now.name.now subject.now.text.now }
    {
        Looked {
            subject: *subject,
            name: asked_name(untrusted, subject.name, subject.text),
            is_plain,
        }
    }
}

/// The place of what is found in the capability that was looked at.
fn place_of(found: &Found) -> Option<usize> {
    match found {
        Found::Function(_, place) => Some(*place),
        Found::Open(_, opened) => *opened,
        Found::Cut(place) => Some(*place),
        Found::ComputedByte | Found::NotTried => None,
    }
}

/// The same place in the text.
fn place_in(text: &[u8], is_plain: bool, place: usize) -> usize {
    let there = if is_plain {
        place_in_text(text, place)
    } else {
        place
    };
    there.min(text.len().saturating_sub(1))
}

/// The words for what is found.
fn words_on<A: Allocator>(alloc: A, found: &Found) -> Result<Vec<u8, A>, AllocError> {
    match found {
        Found::Function(function, _) => words_of(alloc, function),
        _ => Ok(Vec::new(alloc)),
    }
}

/// The words as evidence, if there are any.
fn evidence_of<A: Allocator>(words: Vec<u8, A>) -> Evidence<A> {
    if words.is_empty() {
        return Evidence::None;
    }
    Evidence::Function(words)
}

/// The places of what is found.
fn places_of<A: Allocator>(
    alloc: A,
    text: &[u8],
    is_plain: bool,
    found: &Found,
) -> Result<Vec<usize, A>, AllocError> {
    let mut places = Vec::new(alloc);
    if let Some(place) = place_of(found) {
        places.push(place_in(text, is_plain, place))?;
    }
    Ok(places)
}

/// Whether a remark has a word.
fn has_word<A: Allocator>(remarks: &[Remark<'_, A>], word: &str) -> bool
    ensures { result ≡ true → IsSilent remarks.now → ⊥ }
{
    'remarks: for remark in remarks {
        if remark.finding().word() == word {
            return true;
        }
    }
    false
}

/// Adds a remark, unless one has its word.
fn add<'a, A: Allocator>(
    remarks: &mut Vec<Remark<'a, A>, A>,
    new: Remark<'a, A>,
) -> Result<(), AllocError>
    requires { is_control new.finding ≡ true }
    ensures some { OnOk result (IsSilent remarks.new.items → ⊥) }
    ensures controls { OnOk result (AreControls remarks.old.items → AreControls remarks.new.items) }
{
    if has_word(remarks.as_slice(), new.finding().word()) {
        return Ok(());
    }
    remarks.push(new)?;
    Ok(())
}

/// Adds the remark on what is found, if it is reported.
fn add_found<'a, A: Allocator + Copy>(
    remarks: &mut Vec<Remark<'a, A>, A>,
    alloc: A,
    terminal: &Terminal<'_>,
    look: &Looked<'a>,
    found: &Found,
) -> Result<(), AllocError>
    ensures controls { OnOk result (AreControls remarks.old.items → AreControls remarks.new.items) }
    ensures before { OnOk result (IsSilent remarks.new.items → IsSilent remarks.old.items) }
    ensures some { OnOk result (terminal.now.untrusted ≡ true → IsSilent remarks.new.items → ⊥) }
{
    let Some(finding) = finding_on(terminal, look.name, found) else {
        return Ok(());
    };
    let places = places_of(alloc, look.subject.text, look.is_plain, found)?;
    let evidence = evidence_of(words_on(alloc, found)?);
    add(
        remarks,
        Remark::new(About::Text(look.subject), places, finding, evidence),
    )
}

/// Adds the remarks on what is found in a string.
pub fn add_look<'a, A: Allocator + Copy>(
    remarks: &mut Vec<Remark<'a, A>, A>,
    alloc: A,
    terminal: &Terminal<'_>,
    look: &Looked<'a>,
    found: &[Found],
) -> Result<(), AllocError>
    ensures controls { OnOk result (AreControls remarks.old.items → AreControls remarks.new.items) }
    ensures before { OnOk result (IsSilent remarks.new.items → IsSilent remarks.old.items) }
    ensures silent { OnOk result (terminal.now.untrusted ≡ true → IsSilent remarks.new.items → IsSilent found.now) }
{
    'found: for one in found {
        add_found(remarks, alloc, terminal, look, one)?;
    }
    Ok(())
}
