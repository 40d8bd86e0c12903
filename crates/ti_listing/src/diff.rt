//! The differences of two entries, one item after another.

ghost use Rattle.std.specs.Prelude.{◌≡◌, IfOk, OnOk, map};
ghost use Rattle.ti_words.specs.Items.{ExtendedSubject, subject_value};
ghost use Rattle.ti_entry.specs.Finding.{names_of};
ghost use Rattle.ti_listing.specs.Differences.{AreDifferences, AreSame, AreTold, format_difference, IsChange, IsDifference, names_difference, TellsApart, extended_of_both, standard_of_both};
ghost use Rattle.ti_listing.specs.Values.{difference_value};
ghost use Rattle.ti_listing.specs.inner.Differences.{Adds};
ghost use Rattle.ti_listing.specs.inner.Names.{HasFirst};

use crate::change::push_change;
use crate::difference::Difference;
use crate::extended_names::names_of_both;
use crate::first_named::{first_indices, item_named};
use crate::name_key::NameKey;
use std::alloc::{AllocError, Allocator};
use std::collections::BTreeMap;
use ti_entry::Entry;
use ti_json::{Content, Topic};
use ti_line::Likeness;
use ti_words::{Kind, Subject, Width};

/// Two entries, and when they have a capability alike.
#[derive(Clone, Copy)]
pub struct Compared<'e, 'a> {
    likeness: Likeness,
    one: &'e Entry<'a>,
    other: &'e Entry<'a>,
}

impl<'a> Compared<'_, 'a> {
    /// Adds what differs of a capability.
    fn push<A: Allocator>(
        self,
        out: &mut Vec<Difference<'a>, A>,
        subject: Subject<'a>,
    ) -> Result<(), AllocError>
        ensures { OnOk result (Adds
            (IsDifference self.entry.likeness self.entry.one.now self.entry.other.now (subject_value subject.entry))
            (map difference_value out.old.items) (map difference_value out.new.items)) }
    {
        let (first, other) = (self.one.item(subject), self.other.item(subject));
        push_change(out, self.likeness, subject, first, other)
    }

    /// Adds what differs of an extended capability, by where each entry has its names first.
    fn push_named<A: Allocator>(
        self,
        out: &mut Vec<Difference<'a>, A>,
        kind: Kind,
        name: &'a [u8],
        of_one: &BTreeMap<NameKey<'a>, usize, A>,
        of_other: &BTreeMap<NameKey<'a>, usize, A>,
    ) -> Result<(), AllocError>
        requires one { HasFirst (names_of self.one.now.extended kind) of_one.now }
        requires other { HasFirst (names_of self.other.now.extended kind) of_other.now }
        ensures { OnOk result (Adds
            (IsDifference self.entry.likeness self.entry.one.now self.entry.other.now (ExtendedSubject kind name.now))
            (map difference_value out.old.items) (map difference_value out.new.items)) }
    {
        let first = item_named(self.one, of_one, kind, name);
        let other = item_named(self.other, of_other, kind, name);
        push_change(
            out,
            self.likeness,
            Subject::Extended(kind, name),
            first,
            other,
        )
    }

    /// Adds what differs of the capabilities of terminfo(5) of a kind.
    fn push_standard<A: Allocator>(
        self,
        out: &mut Vec<Difference<'a>, A>,
        kind: Kind,
    ) -> Result<(), AllocError>
        ensures { OnOk result (Adds
            (AreTold (IsDifference self.entry.likeness self.entry.one.now self.entry.other.now)
            (standard_of_both self.entry.one.now self.entry.other.now kind))
            (map difference_value out.old.items) (map difference_value out.new.items)) }
    {
        let (one, other) = (self.one.standard(), self.other.standard());
        let end = one.count_of(kind).max(other.count_of(kind));
        for index in 0..end {
            self.push(out, Subject::Standard(kind, index))?;
        }
        Ok(())
    }

    /// Adds what differs of the extended capabilities of a kind.
    fn push_extended<A: Allocator + Copy>(
        self,
        alloc: A,
        out: &mut Vec<Difference<'a>, A>,
        kind: Kind,
    ) -> Result<(), AllocError>
        ensures { OnOk result (Adds
            (AreTold (IsDifference self.entry.likeness self.entry.one.now self.entry.other.now)
            (extended_of_both self.entry.one.now self.entry.other.now kind))
            (map difference_value out.old.items) (map difference_value out.new.items)) }
    {
        let one = first_indices(alloc, kind, &self.one.extended())?;
        let other = first_indices(alloc, kind, &self.other.extended())?;
        let names = names_of_both(alloc, kind, self.one, self.other)?;
        for index in 0..names.len() {
            self.push_named(out, kind, names[index], &one, &other)?;
        }
        Ok(())
    }
}

/// Adds the formats, if they differ.
fn push_format<A: Allocator>(
    out: &mut Vec<Difference<'_>, A>,
    first: Width,
    other: Width,
) -> Result<(), AllocError>
    ensures { OnOk result (Adds (IsChange AreSame format_difference first other)
        (map difference_value out.old.items) (map difference_value out.new.items)) }
{
    if first == other {
        return Ok(());
    }
    out.push(Difference {
        topic: Topic::Format,
        first: Content::Format(first),
        other: Content::Format(other),
    })?;
    Ok(())
}

/// Adds the names, if they differ.
fn push_names<'a, A: Allocator>(
    out: &mut Vec<Difference<'a>, A>,
    first: &'a [u8],
    other: &'a [u8],
) -> Result<(), AllocError>
    ensures { OnOk result (Adds (IsChange AreSame names_difference first.now other.now)
        (map difference_value out.old.items) (map difference_value out.new.items)) }
{
    if first == other {
        return Ok(());
    }
    out.push(Difference {
        topic: Topic::Names,
        first: Content::Names(first),
        other: Content::Names(other),
    })?;
    Ok(())
}

/// Returns the differences of two entries: the format, the names, then the capabilities of terminfo(5) by their indices, and the
/// extended ones by their names. If a name stands twice in an entry, the first counts. There is nothing exactly if both say the
/// same, with texts that are alike counted as the same.
///
/// # Errors
///
/// Memory was refused.
pub fn difference_of<'a, A: Allocator + Copy>(
    alloc: A,
    likeness: Likeness,
    one: &Entry<'a>,
    other: &Entry<'a>,
) -> Result<Vec<Difference<'a>, A>, AllocError>
    ensures all { IfOk result (λ v. AreDifferences likeness one.now other.now
        (map difference_value v.items)) }
    ensures apart { IfOk result (λ v. TellsApart likeness one.now other.now
        (map difference_value v.items)) }
{
    let compared = Compared {
        likeness,
        one,
        other,
    };
    let mut out = Vec::new(alloc);
    push_format(&mut out, one.width(), other.width())?;
    push_names(&mut out, one.names(), other.names())?;
    compared.push_standard(&mut out, Kind::Flag)?;
    compared.push_standard(&mut out, Kind::Number)?;
    compared.push_standard(&mut out, Kind::Text)?;
    compared.push_extended(alloc, &mut out, Kind::Flag)?;
    compared.push_extended(alloc, &mut out, Kind::Number)?;
    compared.push_extended(alloc, &mut out, Kind::Text)?;
    Ok(out)
}
