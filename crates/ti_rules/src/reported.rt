//! Which remarks are reported: those that the table of findings has for the level, and that no other one hides.

ghost use Rattle.std.specs.Prelude.{◌≡◌, ◌++◌, ◌∷◌, [], IfOk, OnOk, if◌then◌else◌, map};
ghost use Rattle.ti_rules.specs.Reported.{head, hides, is_all, is_hidden, is_hidden_by, is_reported, is_same_text, reported};
ghost use Rattle.ti_rules.specs.inner.Held.{about_held, head_held, heads_held};

use crate::remark::{About, Remark};
use std::alloc::{AllocError, Allocator};
use ti_lint::Level;

/// The subject of a remark, and its word.
#[derive(Clone, Copy)]
struct Head<'a> {
    about: About<'a>,
    word: &'static str,
}

/// The heads of remarks.
fn heads_of<'a, A: Allocator + Copy>(
    alloc: A,
    remarks: &[Remark<'a, A>],
) -> Result<Vec<Head<'a>, A>, AllocError>
    ensures { IfOk result (λ heads. heads_held heads.items ≡ map head remarks.now) }
{
    let mut heads = Vec::new(alloc);
    'remarks: for remark in remarks {
        heads.push(Head {
            about: remark.about(),
            word: remark.finding().word(),
        })?;
    }
    Ok(heads)
}

/// Whether two are about the same text under the same name.
fn is_same_text(one: About<'_>, other: About<'_>) -> bool
    ensures { result ≡ is_same_text (about_held one.entry) (about_held other.entry) }
{
    match (one, other) {
        (About::Text(one), About::Text(other)) => one.name == other.name && one.text == other.text,
        _ => false,
    }
}

/// Whether a remark is hidden by another one.
fn hides<A: Allocator>(remark: &Remark<'_, A>, head: Head<'_>) -> bool
    ensures { result ≡ hides remark.now (head_held head.entry) }
{
    head.word == remark.finding().hidden_by() && is_same_text(head.about, remark.about())
}

/// Whether a remark is hidden by some.
fn is_hidden_by<A: Allocator>(heads: &[Head<'_>], remark: &Remark<'_, A>) -> bool
    ensures { result ≡ is_hidden_by (heads_held heads.now) remark.now }
{
    'heads: for head in heads {
        if hides(remark, *head) {
            return true;
        }
    }
    false
}

/// The same, but most findings are hidden by none.
fn is_hidden<A: Allocator>(heads: &[Head<'_>], remark: &Remark<'_, A>) -> bool
    ensures { result ≡ is_hidden (heads_held heads.now) remark.now }
{
    !remark.finding().hidden_by().is_empty() && is_hidden_by(heads, remark)
}

/// Whether a report has all.
fn is_all(level: Level) -> bool
    ensures { result ≡ is_all level }
{
    match level {
        Level::Errors => false,
        Level::All => true,
    }
}

/// Whether a remark is reported.
fn is_reported<A: Allocator>(level: Level, heads: &[Head<'_>], remark: &Remark<'_, A>) -> bool
    ensures { result ≡ is_reported level (heads_held heads.now) remark.now }
{
    (is_all(level) || !remark.finding().is_only_all()) && !is_hidden(heads, remark)
}

/// Keeps a remark, if it is reported.
fn keep<'a, A: Allocator>(
    kept: &mut Vec<Remark<'a, A>, A>,
    reported: bool,
    remark: Remark<'a, A>,
) -> Result<(), AllocError>
    ensures { OnOk result
        (kept.new.items ≡ kept.old.items ++ (if reported then remark.entry ∷ [] else [])) }
{
    if reported {
        kept.push(remark)?;
    }
    Ok(())
}

/// Those of some remarks that are reported.
pub fn reported<'a, A: Allocator + Copy>(
    alloc: A,
    level: Level,
    found: Vec<Remark<'a, A>, A>,
) -> Result<Vec<Remark<'a, A>, A>, AllocError>
    ensures { IfOk result (λ remarks. remarks.items ≡ reported level found.entry.items) }
{
    let heads = heads_of(alloc, found.as_slice())?;
    let mut rest = found;
    rest.reverse();
    let mut kept = Vec::new(alloc);
    'found: while let Some(remark) = rest.pop() {
        let reported = is_reported(level, heads.as_slice(), &remark);
        keep(&mut kept, reported, remark)?;
    }
    Ok(kept)
}
